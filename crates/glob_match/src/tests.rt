//! Patterns whose answers were worked out by hand. Those of fnmatch(3) in glibc, without a flag and with
//! FNM_CASEFOLD, in the C locale, differ in these ways alone: a plain pattern must match the whole text;
//! a backslash at the end matches nothing; `[.` and `[=` have their meaning in a bracket; a bracket
//! with an unknown class matches by what stands before that class alone; a `-` before a class makes
//! a range up to `[`; an unclosed bracket that ends in `a-` matches nothing; and with folding a
//! range is read in lower case, ends and byte, and a class is not folded.
ghost use Rattle.std.specs.Prelude.{◌≡◌, ◌+◌, ◌<◌, ◌≤◌, length};

use crate::glob::Glob;
use byte_class::Steps;
use std::alloc::{AllocError, Global};
use std::marker::Brand;
use std::sync::ledger::{Blank, Ledger};
use std::test::Fail;

fn counted<L: Ledger>(blank: Blank, glob: &Glob, text: &[u8]) -> bool
    requires name { blank.name ≡ L.name }
    requires parts { blank.parts ≡ L.parts }
    requires some { 0 < L.parts }
{
    let mut steps = Steps::<L>::new(blank);
    glob.matches(text, &mut steps)
}

// What a caller writes that counts no steps.
fn is_match(glob: &Glob, text: &[u8]) -> bool {
    counted::<Brand>(Blank::new(1), glob, text)
}

fn answer(alloc: Global, pattern: &[u8], text: &[u8], fold: bool) -> Result<bool, AllocError> {
    let glob = Glob::read(alloc, pattern, fold)?;
    Ok(is_match(&glob, text))
}

// The pattern `*b` has two items, so on a text of five bytes its steps rise by at most 36.
fn matches_star_b<L: Ledger>(alloc: Global, steps: &mut Steps<L>) -> Result<bool, AllocError>
    ensures { steps.new ≤ steps.old + 36 }
{
    let glob = Glob::read(alloc, b"*b", false)?;
    Ok(glob.matches(b"/x/ab", steps))
}

// The first row that is answered otherwise. A row is two answers, without and with folding, a pattern
// and a text.
fn first_wrong(alloc: Global, rows: &'static str) -> Result<Option<&'static str>, AllocError> {
    for row in rows.lines() {
        let Some((answers, case)) = row.split_once(' ') else {
            return Ok(Some(row));
        };
        let Some((pattern, text)) = case.split_once(' ') else {
            return Ok(Some(row));
        };
        let (pattern, text) = (pattern.as_bytes(), text.as_bytes());
        let plain = answer(alloc, pattern, text, false)?;
        let folded = answer(alloc, pattern, text, true)?;
        let answered = match (plain, folded) {
            (true, true) => "yy",
            (true, false) => "yn",
            (false, true) => "ny",
            (false, false) => "nn",
        };
        if answered != answers {
            return Ok(Some(row));
        }
    }
    Ok(None)
}

// Plain, escaped and bracketed patterns.
const WORKED: &str = r"ny b /x/Bc
yy *b /x/ab
nn *b /x/Bc
yn [!a-c]* Bc
yy [!a-c]* /b
yy \* *
nn \* c*
yy [ [
nn [ /[
yy []x] ]
yy a\ a\
yy [[:digit:]]? 7/";

#[test]
fn matches_worked_patterns(rt: HostRuntime) -> Result<(), Fail> {
    let wrong = first_wrong(rt.alloc(), WORKED)?;
    assert!(rt; wrong.is_none(), "{wrong:?}");
    Ok(())
}

// The rules of bracket expressions.
const BRACKETS: &str = r"yy []x] x
nn [!]a] ]
yy [!]a] b
nn [^]a] ]
yy [^]a] b
nn [!^] ^
yy [a^] ^
yy [a!] !
yy []-a] ^
nn []-a] -
yy [a-] -
yy [a-] a
yy [-a] -
nn [!-a] -
yy [--0] .
yy [a-c] c
nn [a-c] d
ny [a-c] B
nn [c-a] b
nn [c-a] c
nn [c-a] a
yy [\a-\c] b
nn [\a-\c] \
nn [a\-c] b
yy [a\-c] -
yy [X-\]] Y
nn [X-\]] ^
yy [\]] ]
yy [\]a] a
yy [\\] \
yy [\] []
yy [a\] [a]
yy [[:alpha:]-z] -
yy [[:alpha:]-z] q
nn [[:digit:]-z] q
yy [[:digit:]-z] z
yy [a-[:digit:]] -
yy [a-[:digit:]] 5
nn [a-[:digit:]] b
yy [[:nope:]a] a
nn [[:nope:]a] n
yy [[.a.]] .]
nn [[.a.]] a
yy [[=a=]] =]
yy [[:alpha] :
nn [[:alpha] b
nn [[::]] :
yy [[::]a] a
yy [[::] [:
yy [a [a
yy [! [!
yy [^ [^
yy [] []
yy [!] [!]
yy [a- [a-
yy [\ [\
yy [[:alpha:] [p
nn [[:alpha:] p
yy [a]] a]
yy ] ]
yy [*] *
nn [*] x
nn [?] x
yy [[] [
yy [a/b] /
yn [!a] A
ny [Z-a] A
ny [[:upper:]] a
ny [[:lower:]] A
yn [![:upper:]] a
yy [[:punct:]] _
nn [[:punct:]] a
nn [[:alnum:]] _
yy [[:alnum:]] 9
yy [[:xdigit:]] f
nn [[:xdigit:]] g
nn [[:graph:]]  
yy [[:print:]]  ";

#[test]
fn matches_brackets(rt: HostRuntime) -> Result<(), Fail> {
    let wrong = first_wrong(rt.alloc(), BRACKETS)?;
    assert!(rt; wrong.is_none(), "{wrong:?}");
    Ok(())
}

// Stars, and what is plain.
const STARS: &str = r"yy * 
yy  
yy  a
yy a bab
ny A bab
nn ? 
yy ? /
yy ** abc
yy *a*b* xaxxb
nn *a*b* xbxxa
yy *ab aab
nn *ab aba
yy a*b*c abxbxcc
nn a*b*c abxbxcd
yy */lib*.so /usr/lib/libx.so
nn */lib*.so /usr/lib/libx.so.1
yy *aab aaaaab
yy a?c abc
nn a?c ac
yy \a\? a?";

#[test]
fn matches_stars(rt: HostRuntime) -> Result<(), Fail> {
    let wrong = first_wrong(rt.alloc(), STARS)?;
    assert!(rt; wrong.is_none(), "{wrong:?}");
    Ok(())
}

// Plain patterns in either case.
const FOLDED: &str = r"ny lib LIB/x
ny LIB /usr/lib/x
ny pNg /a.PnG
yy lib /LIB/lib
ny LiB liB
ny axb x/xaxaxB
ny zebra z/zEz/zEBrA
nn zebra z/zebr
ny oo /fOo
nn oo /oxo
ny abc ABC
nn abcd abc
nn abcd bcda
ny a@ A@
nn @ `
nn ` @
yy { {
nn { [
nn ^ ~
nn | \
ny x1-y_z X1-Y_Z
nn 0 P
nn / O";

fn counted_from<L: Ledger>(blank: Blank, glob: &Glob, text: &[u8], from: usize) -> bool
    requires name { blank.name ≡ L.name }
    requires parts { blank.parts ≡ L.parts }
    requires some { 0 < L.parts }
    requires within { from ≤ length text.now }
{
    let mut steps = Steps::<L>::new(blank);
    glob.matches_from(text, from, &mut steps)
}

fn is_match_from(glob: &Glob, text: &[u8], from: usize) -> bool {
    if from > text.len() {
        return false;
    }
    counted_from::<Brand>(Blank::new(1), glob, text, from)
}

#[test]
fn matches_from_a_place(rt: HostRuntime) -> Result<(), Fail> {
    // A needle from 15 on, and one from 36 on.
    let text = b"/usr/share/doc/needlework/changelog/needle.txt".as_slice();
    for (pattern, fold, from, wanted) in [
        (b"needle".as_slice(), false, 0, true),
        (b"needle".as_slice(), false, 15, true),
        (b"needle".as_slice(), false, 16, true),
        (b"needle".as_slice(), false, 36, true),
        (b"needle".as_slice(), false, 37, false),
        (b"work".as_slice(), false, 21, true),
        (b"work".as_slice(), false, 22, false),
        (b"work".as_slice(), false, 36, false),
        (b"NEEDLE".as_slice(), false, 36, false),
        (b"NEEDLE".as_slice(), true, 36, true),
        (b"NEEDLE".as_slice(), true, 37, false),
        (b".txt".as_slice(), false, 42, true),
        (b".txt".as_slice(), false, 43, false),
        (b"".as_slice(), false, 46, true),
        (b"*.txt".as_slice(), false, 36, true),
        (b"needle*".as_slice(), false, 36, true),
        (b"needle*".as_slice(), false, 35, false),
    ] {
        let glob = Glob::read(rt.alloc(), pattern, fold)?;
        assert_eq!(rt; is_match_from(&glob, text, from), wanted);
    }
    let glob = Glob::read(rt.alloc(), b"lib", false)?;
    assert!(rt; is_match_from(&glob, b"/lib", 1));
    assert!(rt; !is_match_from(&glob, b"/lib", 2));
    Ok(())
}

#[test]
fn matches_folded(rt: HostRuntime) -> Result<(), Fail> {
    let wrong = first_wrong(rt.alloc(), FOLDED)?;
    assert!(rt; wrong.is_none(), "{wrong:?}");
    Ok(())
}

#[test]
fn folds_no_high_byte(rt: HostRuntime) -> Result<(), Fail> {
    assert!(rt; !answer(rt.alloc(), b"\xE4", b"\xC4", true)?);
    assert!(rt; answer(rt.alloc(), b"\xE4A", b"\xE4a", true)?);
    Ok(())
}

// Whether a pattern matches one text and not another.
fn tells_apart(alloc: Global, pattern: &[u8], yes: &[u8], no: &[u8]) -> Result<bool, AllocError> {
    Ok(answer(alloc, pattern, yes, false)? && !answer(alloc, pattern, no, false)?)
}

#[test]
fn matches_byte_zero(rt: HostRuntime) -> Result<(), Fail> {
    assert!(rt; tells_apart(rt.alloc(), b"[\0-\x02]", b"\0", b"\x03")?);
    Ok(())
}

#[test]
fn matches_high_bytes(rt: HostRuntime) -> Result<(), Fail> {
    assert!(rt; tells_apart(rt.alloc(), b"[\x80-\xFF]", b"\xFF", b"\x7F")?);
    Ok(())
}

#[test]
fn has_no_high_byte_in_a_class(rt: HostRuntime) -> Result<(), Fail> {
    assert!(rt; tells_apart(rt.alloc(), b"[![:alpha:][:print:]]", b"\xE9", b"e")?);
    Ok(())
}

#[test]
fn has_blanks_and_controls(rt: HostRuntime) -> Result<(), Fail> {
    let classes = b"[[:blank:]][[:space:]][[:cntrl:]]";
    assert!(rt; tells_apart(rt.alloc(), classes, b"\t\x0B\x7F", b"\x0B\t\x7F")?);
    Ok(())
}

#[test]
fn tells_its_items(rt: HostRuntime) -> Result<(), Fail> {
    let glob = Glob::read(rt.alloc(), b"*[a-c]?", false)?;
    let items = glob.items();
    assert_eq!(rt; items.len(), 3);
    assert!(rt; !items.is_empty() && items.is_star(0));
    assert_eq!(rt; glob.item_count(), 3);
    Ok(())
}

#[test]
fn tells_a_plain_pattern(rt: HostRuntime) -> Result<(), Fail> {
    let glob = Glob::read(rt.alloc(), b"ab", false)?;
    assert_eq!(rt; glob.plain(), Some(b"ab".as_slice()));
    Ok(())
}
