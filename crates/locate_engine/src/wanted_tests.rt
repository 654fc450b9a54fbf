//! What the patterns of a query want of paths. The options are those of locate(1).
ghost use Rattle.std.specs.Prelude.{◌≡◌, ◌<◌};

use crate::{GlobMatcher, Globs, Matcher, Query, wanted_is_matched};
use glob_match::{Glob, Steps};
use std::alloc::{AllocError, Global};
use std::marker::Brand;
use std::sync::ledger::{Blank, Ledger};

// What a caller writes that knows the matcher by its trait alone.
fn wants<M: Matcher, L: Ledger>(matcher: &mut M, blank: Blank, path: &[u8]) -> bool
    requires name { blank.name ≡ L.name }
    requires parts { blank.parts ≡ L.parts }
    requires some { 0 < L.parts }
{
    let mut steps = Steps::<L>::new(blank);
    matcher.wants(path, &mut steps)
}

fn is_wanted(query: &Query, path: &[u8]) -> bool {
    wants::<GlobMatcher, Brand>(&mut GlobMatcher::new(query), Blank::new(1), path)
}

fn query_of(globs: Globs, options: &str) -> Query {
    Query {
        globs,
        all: options.contains('A'),
        base: options.contains('b'),
        existing: false,
        follow: false,
        separator: b'\n',
        limit: None,
        count_only: false,
    }
}

// The patterns stand between commas.
fn globs_of(alloc: Global, patterns: &str, fold: bool) -> Result<Globs, AllocError> {
    let mut globs = Globs::new(alloc);
    for pattern in patterns.split(',') {
        globs.push(Glob::read(alloc, pattern.as_bytes(), fold)?)?;
    }
    Ok(globs)
}

// The first row that is answered otherwise. A row is an answer, options, patterns and a path.
fn first_wrong(alloc: Global, rows: &'static str) -> Result<Option<&'static str>, AllocError> {
    for row in rows.lines() {
        let Some((answer, case)) = row.split_once(' ') else {
            return Ok(Some(row));
        };
        let Some((options, texts)) = case.split_once(' ') else {
            return Ok(Some(row));
        };
        let Some((patterns, path)) = texts.split_once(' ') else {
            return Ok(Some(row));
        };
        let globs = globs_of(alloc, patterns, options.contains('i'))?;
        let query = query_of(globs, options);
        if is_wanted(&query, path.as_bytes()) != (answer == "y") {
            return Ok(Some(row));
        }
    }
    Ok(None)
}

const WANTED: &str = r"y - a /a
y - a /a.b
y - a /a/z
n - q /a
y b a /a
y b a /a.b
n b a /a/z
y b z /a/z
n - A /a/z
y i A /a/z
n b A /a
y bi A /a
n A a,z /a
n A a,z /a.b
y A a,z /a/z
n A a,z,q /a/z
y - a,z /a
y - q,z /a/z
n - q,r /a/z
n bA a,z /a/z
n - *b /a
y - *b /a.b
n - *b /a/z
y b ?.b /a.b
n - ?.b /a.b
y - a*,/a* /a/z
y -  /a
y b  /a/z
y -  ";

#[test]
fn wants_by_options(rt: HostRuntime) -> Result<(), AllocError> {
    let wrong = first_wrong(rt.alloc(), WANTED)?;
    assert!(rt; wrong.is_none(), "{wrong:?}");
    Ok(())
}

// Nothing follows the last slash of a path that ends in one, and all is base where there is none.
const BASES: &str = r"n b a /a/
y b  /a/
y b * /a/
n b ? /a/
n b / /a/
y - / /a/
y b a a
y b a a.b
n b a a/
n b a /";

#[test]
fn asks_of_bases(rt: HostRuntime) -> Result<(), AllocError> {
    let wrong = first_wrong(rt.alloc(), BASES)?;
    assert!(rt; wrong.is_none(), "{wrong:?}");
    Ok(())
}

// Patterns whose answers were worked out by hand, without and with folding.
const PATTERNS: &str = r"n - b /x/Bc
y i b /x/Bc
y - *b /x/ab
n i *b /x/Bc
y - [!a-c]* Bc
n i [!a-c]* Bc
y i [!a-c]* /b
y - \* *
n - \* c*
y - [ [
n - [ /[
y i []x] ]
y - a\ a\";

#[test]
fn wants_by_patterns(rt: HostRuntime) -> Result<(), AllocError> {
    let wrong = first_wrong(rt.alloc(), PATTERNS)?;
    assert!(rt; wrong.is_none(), "{wrong:?}");
    Ok(())
}

#[test]
fn without_a_pattern_all_want_every_path(rt: HostRuntime) {
    for options in ["A", "-"] {
        let query = query_of(Globs::new(rt.alloc()), options);
        wanted_is_matched(&query, b"/a");
        assert_eq!(rt; is_wanted(&query, b"/a"), query.all);
    }
}

#[test]
fn keeps_patterns_in_order(rt: HostRuntime) -> Result<(), AllocError> {
    let globs = globs_of(rt.alloc(), "a,*b", false)?;
    assert!(rt; !globs.is_empty() && globs.len() == 2);
    assert_eq!(rt; globs.at(0).plain(), Some(b"a".as_slice()));
    assert_eq!(rt; globs.at(1).item_count(), 2);
    Ok(())
}
