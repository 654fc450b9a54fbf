//! Patterns that are read or refused, and texts that they find, each worked by hand.
ghost use Rattle.std.specs.Prelude.{◌≡◌, ◌<◌};

use crate::fault::{RegexCause, RegexFault};
use crate::regex::Regex;
use byte_class::Steps;
use std::alloc::{AllocError, Global};
use std::marker::Brand;
use std::sync::ledger::{Blank, Ledger};
use std::test::Fail;

// What reading a pattern answers: how many items, or the cause's number and the place.
fn answer(alloc: Global, pattern: &[u8], extended: bool) -> (u64, u64) {
    match Regex::read(alloc, pattern, extended, false) {
        Ok(regex) => (0, regex.item_count() as u64),
        Err(RegexFault { place, cause }) => (number(cause), place),
    }
}

fn number(cause: RegexCause) -> u64 {
    match cause {
        RegexCause::BadBracket => 1,
        RegexCause::BadClass => 2,
        RegexCause::BadRepeat => 3,
        RegexCause::BadGroup => 4,
        RegexCause::Trailing => 5,
        RegexCause::Unsupported => 6,
        RegexCause::TooDeep => 7,
        RegexCause::TooBig => 8,
        RegexCause::OutOfMemory => 9,
    }
}

// The first row of which the answer is another. A row is the number of the cause, or 0, the place of the fault, or the
// count of items, and the pattern.
fn first_wrong(alloc: Global, rows: &'static str, extended: bool) -> Option<&'static str> {
    for row in rows.lines() {
        let Some((cause, rest)) = row.split_once(' ') else {
            return Some(row);
        };
        let Some((place, pattern)) = rest.split_once(' ') else {
            return Some(row);
        };
        let (Ok(cause), Ok(place)) = (cause.parse::<u64>(), place.parse::<u64>()) else {
            return Some(row);
        };
        if answer(alloc, pattern.as_bytes(), extended) != (cause, place) {
            return Some(row);
        }
    }
    None
}

// Extended syntax.
const EXTENDED: &str = r"0 1 a
0 3 abc
0 1 ]
0 1 }
0 1 .
0 2 ^$
0 3 a*
0 2 a+
0 2 a?
0 4 a{2}b{2}
0 4 a{1,2}b
0 3 a{2,}
0 0 a{0}
0 5 a?b*
0 4 a|b
0 2 |
0 4 (|a)b
0 1 (a)
0 3 ^*
0 1 [a-z]
0 1 []a]
0 1 [^]a]
0 1 [a-]
0 1 [[:alpha:]-]
0 1 [[:alpha]
0 1 [\]
0 1 \.
0 1 \{
1 0 [a
1 1 a[z-a]
1 0 []
1 0 [[:alpha:]
2 1 [[:word:]]
2 2 [a[:ALPHA:]
3 0 *
3 1 (*a)
3 2 a|+
3 1 a{2,1}
3 1 a{256}
3 1 a{1000}
3 1 a{,2}
3 1 a{1
3 0 {1}
4 0 (a
4 1 a)
4 0 (a(b)
4 3 (a)(
5 1 a\
6 0 \1
6 1 a\w
6 1 [[=a=]]
6 1 [[.a.]]
6 3 [+-[.z.]]
8 0 a{255}{17}
0 0 (a{255}{255}{255}){0}";

#[test]
fn extended_patterns_are_read_or_refused(rt: HostRuntime) -> Result<(), Fail> {
    let wrong = first_wrong(rt.alloc(), EXTENDED, true);
    assert!(rt; wrong.is_none(), "{wrong:?}");
    Ok(())
}

// Basic syntax.
const BASIC: &str = r"0 1 a
0 1 *
0 3 **
0 2 ^*
0 4 ^**
0 2 ^a
0 2 a^
0 2 a$
0 2 $a
0 3 a+?
0 3 a|b
0 4 ab*
0 3 (a)
0 1 \(a\)
0 3 \(a\)*
0 2 \(*a\)
0 3 \(^*a\)
0 2 \(a$\)
0 2 a\{2\}
0 3 {2}
0 1 \.
0 1 \}
3 1 a\{2\
3 1 a\{2}
3 0 \{1\}
4 0 \(a
4 1 a\)
5 0 \
6 5 \(a\)\1
6 1 a\|b
6 1 a\+
6 1 a\?";

#[test]
fn basic_patterns_are_read_or_refused(rt: HostRuntime) -> Result<(), Fail> {
    let wrong = first_wrong(rt.alloc(), BASIC, false);
    assert!(rt; wrong.is_none(), "{wrong:?}");
    Ok(())
}

// The 65th group that is open at once is one too many.
#[test]
fn groups_are_at_most_64_deep(rt: HostRuntime) -> Result<(), Fail> {
    let alloc = rt.alloc();
    let mut pattern = Vec::new(alloc);
    for _ in 0..64 {
        pattern.push(b'(')?;
    }
    assert!(rt; answer(alloc, &pattern, true) == (4, 63));
    pattern.push(b'(')?;
    assert!(rt; answer(alloc, &pattern, true) == (7, 64));
    Ok(())
}

// A size of 4,096 is allowed, and one more is not; every other fault comes first.
#[test]
fn sizes_are_at_most_4096(rt: HostRuntime) -> Result<(), Fail> {
    let alloc = rt.alloc();
    let mut pattern = Vec::new(alloc);
    for _ in 0..4096 {
        pattern.push(b'a')?;
    }
    assert!(rt; answer(alloc, &pattern, true) == (0, 4096));
    pattern.push(b'a')?;
    assert!(rt; answer(alloc, &pattern, true) == (8, 0));
    pattern.push(b')')?;
    assert!(rt; answer(alloc, &pattern, true) == (4, 4097));
    Ok(())
}

fn counted<L: Ledger>(blank: Blank, regex: &mut Regex, text: &[u8]) -> bool
    requires name { blank.name ≡ L.name }
    requires parts { blank.parts ≡ L.parts }
    requires some { 0 < L.parts }
{
    let mut steps = Steps::<L>::new(blank);
    regex.matches(text, &mut steps)
}

// What a caller that counts no steps writes.
fn is_match(regex: &mut Regex, text: &[u8]) -> bool {
    counted::<Brand>(Blank::new(1), regex, text)
}

// Whether the pattern finds the text, or not where it is refused.
fn finds(alloc: Global, pattern: &[u8], text: &[u8], extended: bool, fold: bool) -> bool {
    match Regex::read(alloc, pattern, extended, fold) {
        Ok(regex) => {
            let mut regex = regex;
            is_match(&mut regex, text)
        }
        Err(_) => false,
    }
}

// The first row that is answered otherwise. A row is four letters, for extended syntax without and with folding and
// for basic syntax without and with folding, then a pattern and a text.
fn first_missed(alloc: Global, rows: &'static str) -> Option<&'static str> {
    for row in rows.lines() {
        let Some((answers, case)) = row.split_once(' ') else {
            return Some(row);
        };
        let Some((pattern, text)) = case.split_once(' ') else {
            return Some(row);
        };
        let (pattern, text, answers) = (pattern.as_bytes(), text.as_bytes(), answers.as_bytes());
        if answers.len() != 4
            || finds(alloc, pattern, text, true, false) != (answers[0] == b'y')
            || finds(alloc, pattern, text, true, true) != (answers[1] == b'y')
            || finds(alloc, pattern, text, false, false) != (answers[2] == b'y')
            || finds(alloc, pattern, text, false, true) != (answers[3] == b'y')
        {
            return Some(row);
        }
    }
    None
}

const FOUND: &str = r"yynn ^/a(.b)?$ /a
yynn ^/a(.b)?$ /a.b
nnnn ^/a(.b)?$ /a/z
nnyy ^/a\(.b\)*$ /a
nnyy ^/a\(.b\)*$ /a.b
nnnn ^/a\(.b\)*$ /a.bc
yyyy [/.][bz]$ /a.b
yyyy [/.][bz]$ /a/z
nnnn [/.][bz]$ /a
nyny A$ /a
yynn a|z /z
yyyy a|z a|z
yynn (a*)*b aaab
nnnn (a*)*b aaaa
yynn ^(ab)*$ abab
nnnn ^(ab)*$ abb
nnyy ^\(ab\)*$ abab
nnnn ^\(ab\)*$ abb
yynn (foo|bar)$ xxbar
nnnn (foo|bar)$ xxba
yynn (^|x)a bxa
nnnn (^|x)a ba
yynn a$|^b ba
yyyy a*b b
yynn ^(ab|cd){2}$ abcd
nnnn ^(ab|cd){2}$ ab
nnnn ^(ab|cd){2}$ abcdab
yynn ^a{2,3}$ aaa
nnnn ^a{2,3}$ aaaa
nnnn ^a{2,3}$ a
yynn ^a{2,}$ aaaa
yynn ^a+b?$ aa
yynn ^(|a)$ a
yyyy [^a] ab
nnnn ^[^a]$ a
ynyn ^[^a]$ A
yyyy ^[]a]$ ]
yyyy ^[a\]$ \
yyyy \.$ a.
nnnn \.$ ab
nnyy a^b a^b
nnyy a$b a$b
nnyy *a *a
yyyy ^*a *a
yynn ^*a ba
yyyy ^[[:digit:]]*$ 123
nnnn ^[[:digit:]]*$ 12a
yyyy b abc
nnnn d abc";

// Extended expressions, each with the literal that is read off it without and with folding, where `-` is none.
const LITERALS: &str = r"- - a|b
- - (abc)*
a - ab*c
cd - ab*cd
abc - (abc)+
abc - (a|b|abc)abc
aaab - a{3}b
bc - a?bc
ab - [a]b
/usr/ / ^/usr/
lib . lib[a-z]+\.so(\.[0-9]+)*$
x/1/2y /1/2 x/1/2y
baz7 7 (foo|bar)baz7
- - (7|b)";

#[test]
fn literals_are_read_off_expressions(rt: HostRuntime) -> Result<(), Fail> {
    let alloc = rt.alloc();
    for row in LITERALS.lines() {
        assert!(rt; has_literals(alloc, row), "{row}");
    }
    Ok(())
}

fn has_literals(alloc: Global, row: &str) -> bool {
    let Some((exact, rest)) = row.split_once(' ') else {
        return false;
    };
    let Some((folded, pattern)) = rest.split_once(' ') else {
        return false;
    };
    has_literal(alloc, pattern, false, exact) && has_literal(alloc, pattern, true, folded)
}

fn has_literal(alloc: Global, pattern: &str, fold: bool, literal: &str) -> bool {
    let expected = if literal == "-" { "" } else { literal };
    match Regex::read(alloc, pattern.as_bytes(), true, fold) {
        Ok(regex) => regex.literal() == expected.as_bytes(),
        Err(_) => false,
    }
}

#[test]
fn expressions_find_worked_texts(rt: HostRuntime) -> Result<(), Fail> {
    let wrong = first_missed(rt.alloc(), FOUND);
    assert!(rt; wrong.is_none(), "{wrong:?}");
    Ok(())
}

// Extended expressions and texts, `-` for the empty one, after whether the text is found.
const TABLES: &str = r"y ^ a
y $ a
y ^ -
y $ -
y ^$ -
n ^$ a
y a|$ b
y a|$ -
n ^a|b$ ca
y (^a|b)*c$ abc
y (^a|b)*c$ bbc
n (^a|b)*c$ abca
y (^a|b)*c$ xac
n (^a|b)c$ xac
y (^a|b)c$ xbc
y (^a|b)c$ ac
n a$ ab
y b$ ab
y a a
n a b
n a -
y .. ab
n .. a
y ^a*$ aaaa
n ^a*$ aaba
y [xy].*[yz]$ axby
n [xy].*[yz]$ axbyb
y a(a|b){8}c abbbbbbbbc
n a(a|b){8}c bbbbbbbbbc";

// With 64 states more an expression has no table, and finds the same in these texts.
#[test]
fn tables_find_what_states_find(rt: HostRuntime) -> Result<(), Fail> {
    let alloc = rt.alloc();
    for row in TABLES.lines() {
        assert!(rt; finds_both_ways(alloc, row)?, "{row}");
    }
    Ok(())
}

fn finds_both_ways(alloc: Global, row: &str) -> Result<bool, AllocError> {
    let Some((answer, case)) = row.split_once(' ') else {
        return Ok(false);
    };
    let Some((pattern, text)) = case.split_once(' ') else {
        return Ok(false);
    };
    let text = if text == "-" { "" } else { text };
    let wide = format!(in alloc; "{pattern}|~{{64}}")?;
    let found = finds(alloc, pattern.as_bytes(), text.as_bytes(), true, false);
    let widely = finds(alloc, wide.as_bytes(), text.as_bytes(), true, false);
    Ok(found == (answer == "y") && widely == found)
}

// The same, where none, one, two, three or more bytes lead from a set elsewhere.
const SKIPS: &str = r"y ^[^aeiou]*$ xyz
n ^[^aeiou]*$ xyza
n ^[^aeiou]*$ axyzxxxxxxxxxxxxxxxxxxxxxxxxxxxxxxxxxxxxxxxx
y ^[^aeiou]*$ -
n ^a baaa
y ^.*$ abc
n ^a.*b$ baab
y a$ bbba
n a$ bbbab
y a$ xxxxxxxxxxxxxxxxxxxxxxxxxxxxxxxxxxxxxxxxa
n \.(jpg|png|gif)$ xxxxxxxxxxxxxxxxxxxxxxxxxxxxxxxxxxxxxxxx
y \.(jpg|png|gif)$ /b.c/d.jpg
y \.(jpg|png|gif)$ ..gif
y \.(jpg|png|gif)$ xxxxxxxxxxxxxxxxxxxxxxxxxxxxxxxxxxxxxxxx.png
n \.(jpg|png|gif)$ xxxxxxxxxxxxxxxxxxxxxxxxxxxxxxxxxxxxxxxx.pngx
n \.(jpg|png|gif)$ jpg
n \.(jpg|png|gif)$ -
y ^/[^/]*$ /abc
n ^/[^/]*$ /abc/d
y a.*b.*c xaxxbxxxxxxxxxxxxxxxxxxxxxxxxxxxxxxxxxxxxxxxxc
n a.*b.*c xaxxcxxxxxxxxxxxxxxxxxxxxxxxxxxxxxxxxxxxxxxxxb
y needle|zzqqzz needle
y needle|zzqqzz xnneedlex
y needle|zzqqzz xneezzzqqzz
n needle|zzqqzz needlzzqqz
y needle|zzqqzz xxxxxxxxxxxxxxxxxxxxxxxxxxxxxxxxxxxxxxxxneedle
n needle|zzqqzz xxxxxxxxxxxxxxxxxxxxxxxxxxxxxxxxxxxxxxxxneedl
y a[^/]*b xaxxxxxxxxxxxxxxxxxxxxxxxxxxxxxxxxxxxxxxxxb
n a[^/]*b xaxxxxxxxxxxxxxxxxxxxxxxxxxxxxxxxxxxxxxxxx/b
y a[^/]*b xa/aab
y ax|by|cz ax
y ax|by|cz xxxxxxxxxxxxxxxxxxxxxxxxxxxxxxxxxxxxxxxxcz
y ax|by|cz xxxxxxxxxxxxxxxxxxxxxxxxxxxxxxxxxxxxxxxxcabyxxxxxxxxxxxxxxxxxxxxxxxxxxxxxxxxxxxxxxxx
n ax|by|cz xxxxxxxxxxxxxxxxxxxxxxxxxxxxxxxxxxxxxxxxabcaybz
y (^|x)ab|cd abx
y (^|y)ab|cd xxxxxxxxxxxxxxxxxxxxxxxxxxxxxxxxxxxxxxxxyab
n (^|y)ab|cd xxxxxxxxxxxxxxxxxxxxxxxxxxxxxxxxxxxxxxxxab
y [a-d]y xxxxxxxxxxxxxxxxxxxxxxxxxxxxxxxxxxxxxxxxdy
n [a-d]y xxxxxxxxxxxxxxxxxxxxxxxxxxxxxxxxxxxxxxxxdxxxxxxxxxxxxxxxxxxxxxxxxxxxxxxxxxxxxxxxxy
y b|c$|^d xxxxxxxxxxxxxxxxxxxxxxxxxxxxxxxxxxxxxxxxc
n b|c$|^d xxxxxxxxxxxxxxxxxxxxxxxxxxxxxxxxxxxxxxxxd
y ^b|^$|c -";

// With 64 states more nothing is passed over, and the same is found in these texts.
#[test]
fn skips_find_what_states_find(rt: HostRuntime) -> Result<(), Fail> {
    let alloc = rt.alloc();
    for row in SKIPS.lines() {
        assert!(rt; finds_both_ways(alloc, row)?, "{row}");
    }
    Ok(())
}

#[test]
fn skips_see_every_byte(rt: HostRuntime) -> Result<(), Fail> {
    let alloc = rt.alloc();
    assert!(rt; finds(alloc, b"\xFF$", b"bbb\n\xFF", true, false));
    assert!(rt; !finds(alloc, b"\xFF$", b"bbb\xFF\n", true, false));
    assert!(rt; finds(alloc, b"\ny|\0z", b"bb\0\nbb\0z", true, false));
    assert!(rt; !finds(alloc, b"\ny|\0z", b"bb\0\nbb\0y", true, false));
    assert!(rt; finds(alloc, b"a[^\xFF\n]*b", b"xa\n\xFFa\0b", true, false));
    assert!(rt; !finds(alloc, b"a[^\xFF\n]*b", b"xa\0\nb\xFFb", true, false));
    assert!(rt; !finds(alloc, b"^[^\n]*$", b"aaa\nb", true, false));
    Ok(())
}

#[test]
fn newlines_and_bytes_are_as_others(rt: HostRuntime) -> Result<(), Fail> {
    let alloc = rt.alloc();
    assert!(rt; finds(alloc, b"a.b", b"a\nb", true, false));
    assert!(rt; !finds(alloc, b"a$", b"a\n", true, false));
    assert!(rt; !finds(alloc, b"^b", b"a\nb", true, false));
    assert!(rt; finds(alloc, b"^.$", b"\xFF", true, false));
    assert!(rt; finds(alloc, b"^.$", b"\0", true, false));
    assert!(rt; finds(alloc, b"$", b"", true, false));
    assert!(rt; finds(alloc, b"", b"", true, false));
    Ok(())
}
