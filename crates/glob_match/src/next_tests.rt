//! Texts of which each begins as the one before, so that only the rest of it is searched.
ghost use Rattle.std.specs.Prelude.{◌≡◌, ◌<◌};

use crate::glob::Glob;
use crate::spot::Spot;
use byte_class::Steps;
use std::alloc::{AllocError, Global};
use std::marker::Brand;
use std::sync::ledger::{Blank, Ledger};
use std::test::Fail;

// With how many of the same bytes two texts begin.
fn common(before: &[u8], text: &[u8]) -> usize {
    for (place, byte) in text.iter().enumerate() {
        if before.get(place) != Some(byte) {
            return place;
        }
    }
    text.len()
}

// What is known of a text that was tried after another, of which it shares so many bytes, and None where
// `matches` answers otherwise.
fn counted<L: Ledger>(
    blank: Blank,
    glob: &Glob,
    before: &[u8],
    text: &[u8],
    shared: usize,
) -> Option<Spot>
    requires name { blank.name ≡ L.name }
    requires parts { blank.parts ≡ L.parts }
    requires some { 0 < L.parts }
{
    let mut steps = Steps::<L>::new(blank);
    let mut spot = Spot::Unjudged;
    let first = glob.matches_next(before, 0, &mut spot, &mut steps);
    if first != glob.matches(before, &mut steps) {
        return None;
    }
    let second = glob.matches_next(text, shared, &mut spot, &mut steps);
    if second != glob.matches(text, &mut steps) {
        return None;
    }
    Some(spot)
}

fn spot_after(glob: &Glob, before: &[u8], text: &[u8], shared: usize) -> Option<Spot> {
    counted::<Brand>(Blank::new(1), glob, before, text, shared)
}

fn spot_named(word: &str) -> Spot {
    match word.parse::<usize>() {
        Ok(end) => Spot::Ends(end),
        Err(_) => Spot::Nowhere,
    }
}

fn is_right(alloc: Global, row: &'static str) -> Result<bool, AllocError> {
    let mut words = row.split('|');
    let (Some(pattern), Some(before), Some(text)) = (words.next(), words.next(), words.next())
    else {
        return Ok(false);
    };
    let (Some(plain), Some(folded)) = (words.next(), words.next()) else {
        return Ok(false);
    };
    let (before, text) = (before.as_bytes(), text.as_bytes());
    let shared = common(before, text);
    let glob = Glob::read(alloc, pattern.as_bytes(), false)?;
    let in_either_case = Glob::read(alloc, pattern.as_bytes(), true)?;
    Ok(
        spot_after(&glob, before, text, shared) == Some(spot_named(plain))
            && spot_after(&in_either_case, before, text, shared) == Some(spot_named(folded)),
    )
}

fn first_wrong(alloc: Global, rows: &'static str) -> Result<Option<&'static str>, AllocError> {
    for row in rows.lines() {
        if !is_right(alloc, row)? {
            return Ok(Some(row));
        }
    }
    Ok(None)
}

// A row is a pattern, the text before, a text, and where the pattern first ends in it, without and with
// folding.
const ROWS: &str = r"lib|/usr/li|/usr/lib/x|8|8
lib|/usr/li|/usr/LIB/x|-|8
lib|/lia|/lib|4|4
lib|/lib/a|/lib/b/lib|4|4
lib|/lib/a|/lib|4|4
lib|/liba|/libb|4|4
lib|/LIB/a|/LIB/lib|8|4
lib|abc|lib|3|3
lib|lib|abc|-|-
lib|/lib|/lib|4|4
lib|/a/b|/a/b|-|-
lib|/lib/abc|/li|-|-
lib|/lib/abc|/lic|-|-
lib||/lib|4|4
lib|/lib||-|-
b|/ac|/ab|3|3
b|/ab|/ac|-|-
b|/aB|/aB|-|3
b|/b|/a|-|-
|/a|/b|0|0
||/b|0|0
|/a||0|0
abcdef|/a|/abc|-|-
abcdef|/abcde|/abcdef|7|7
aab|aaa|aaab|4|4
a1-|/A1|/A1-|-|4
@|/@|/`|-|-
lib|/usr/share/doc/libbed/of/many/names/li|/usr/share/doc/libbed/of/many/names/lib|18|18
lob|/usr/share/doc/lib/lo/of/many/names/and/lo|/usr/share/doc/lib/lo/of/many/names/and/loB|-|43
lob|/usr/share/doc/lib/lo/of/many/names/and/lo|/usr/share/doc/lib/lo/of/many/names/and/lob|43|43
lob|/usr/share/doc/lib/of/many/more/names/a|/usr/share/doc/lib/of/many/more/names/b/lab|-|-";

#[test]
fn searches_what_changed(rt: HostRuntime) -> Result<(), Fail> {
    let wrong = first_wrong(rt.alloc(), ROWS)?;
    assert!(rt; wrong.is_none(), "{wrong:?}");
    Ok(())
}

#[test]
fn folds_no_high_byte_of_what_changed(rt: HostRuntime) -> Result<(), Fail> {
    let glob = Glob::read(rt.alloc(), b"\xE4a", true)?;
    assert_eq!(rt;
        spot_after(&glob, b"/\xE4", b"/\xE4A", 2),
        Some(Spot::Ends(3))
    );
    assert_eq!(rt;
        spot_after(&glob, b"/\xC4", b"/\xC4a", 2),
        Some(Spot::Nowhere)
    );
    Ok(())
}

#[test]
fn knows_nothing_after_a_glob(rt: HostRuntime) -> Result<(), Fail> {
    let glob = Glob::read(rt.alloc(), b"*/lib", false)?;
    assert_eq!(rt;
        spot_after(&glob, b"/a/li", b"/a/lib", 5),
        Some(Spot::Unjudged)
    );
    Ok(())
}

// Writes the letters that the bits of a number stand for, the last first, over the highest one.
fn spell(letters: &mut Vec<u8>, number: u32, small: u8, big: u8) -> Result<(), AllocError> {
    letters.clear();
    for place in 0..5u32 {
        if number >> place < 2 {
            return Ok(());
        }
        letters.push(if (number >> place) % 2 == 0 {
            small
        } else {
            big
        })?;
    }
    Ok(())
}

// Whether all texts of at most four letters after all such ones are answered as `matches` does.
fn agrees(alloc: Global, glob: &Glob) -> Result<bool, AllocError> {
    let mut before = Vec::new(alloc);
    let mut text = Vec::new(alloc);
    for first in 1..32u32 {
        spell(&mut before, first, b'a', b'b')?;
        for second in 1..32u32 {
            spell(&mut text, second, b'a', b'b')?;
            let most = common(&before, &text);
            for shared in 0..5usize {
                if shared <= most && spot_after(glob, &before, &text, shared).is_none() {
                    return Ok(false);
                }
            }
        }
    }
    Ok(true)
}

#[test]
fn answers_as_the_whole_search(rt: HostRuntime) -> Result<(), Fail> {
    let mut pattern = Vec::new(rt.alloc());
    for number in 1..16u32 {
        spell(&mut pattern, number, b'a', b'b')?;
        assert!(rt;
            agrees(rt.alloc(), &Glob::read(rt.alloc(), &pattern, false)?)?,
            "{pattern:?}"
        );
        spell(&mut pattern, number, b'a', b'B')?;
        assert!(rt;
            agrees(rt.alloc(), &Glob::read(rt.alloc(), &pattern, true)?)?,
            "{pattern:?}"
        );
    }
    Ok(())
}
