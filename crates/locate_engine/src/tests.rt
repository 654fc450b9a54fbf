//! Searches of databases in memory: what is printed, how often the gate is asked, and how they end.
ghost use Rattle.std.specs.Prelude.{◌≡◌, ◌<◌, IfOk, IfSome};

use crate::{Globs, Outcome, Query, Tally, search};
use byte_feed::{Damage, DamageCause};
use glob_match::{Glob, Steps};
use loc_outside::{MemFiles, MemGate, MemSink};
use std::alloc::{AllocError, Global};
use std::marker::Brand;
use std::sync::ledger::{Blank, Ledger};

/// A database of mlocate with `/a` and `/a.b`, `/a/z`, and the two empty directories `/a/z` and `/a.b`. The third
/// directory's head begins at byte 70.
const OPEN: &[u8] = b"\0mlocate\0\0\0\x02\0\0\0\0/\0ab\
    \0\0\0\0\0\0\x03\xE8\0\0\0\0\0\0\0\0/\0\x01a\0\x01a.b\0\x02\
    \0\0\0\0\0\0\x03\xE8\0\0\0\0\0\0\0\0/a\0\x01z\0\x02\
    \0\0\0\0\0\0\x03\xE8\0\0\0\0\0\0\0\0/a/z\0\x02\
    \0\0\0\0\0\0\x03\xE8\0\0\0\0\0\0\0\0/a.b\0\x02";

/// The same, whose paths are shown only to those who may list their directories.
const GATED: &[u8] = b"\0mlocate\0\0\0\x02\0\x01\0\0/\0ab\
    \0\0\0\0\0\0\x03\xE8\0\0\0\0\0\0\0\0/\0\x01a\0\x01a.b\0\x02\
    \0\0\0\0\0\0\x03\xE8\0\0\0\0\0\0\0\0/a\0\x01z\0\x02\
    \0\0\0\0\0\0\x03\xE8\0\0\0\0\0\0\0\0/a/z\0\x02\
    \0\0\0\0\0\0\x03\xE8\0\0\0\0\0\0\0\0/a.b\0\x02";

/// A LOCATE02 database with `/a` and `/a/z`.
const LOCATE02: &[u8] = b"\0LOCATE02\0\0/a\0\x02/z\0";

/// A LOCATE02 database with `/usr/lib/one`, `/usr/lib/once`, `/usr/libx`, `/usr/zone` and `/zone`, which share 11, 8, 5
/// and 1 bytes with the one before.
const SHARING: &[u8] = b"\0LOCATE02\0\0/usr/lib/one\0\x0Bce\0\xFDx\0\xFDzone\0\xFCzone\0";

/// A bigram database with `/a`, whose table has no pair.
fn bigram(alloc: Global) -> Result<Vec<u8>, AllocError> {
    let mut bytes = Vec::new(alloc);
    bytes.resize(256, 0)?;
    bytes.extend_from_slice(b"\x0E/a")?;
    Ok(bytes)
}

/// A limit, and none where the options have no `L`.
fn limit_of(options: &str) -> Option<u64>
    ensures { IfSome result (λ limit. 0 < limit) }
{
    if options.contains("L1") {
        return Some(1);
    }
    if options.contains("L3") {
        return Some(3);
    }
    None
}

/// The patterns between commas.
fn globs_of(alloc: Global, patterns: &str) -> Result<Globs, AllocError> {
    let mut globs = Globs::new(alloc);
    for pattern in patterns.split(',') {
        globs.push(Glob::read(alloc, pattern.as_bytes(), false)?)?;
    }
    Ok(globs)
}

fn query_of(alloc: Global, options: &str, patterns: &str) -> Result<Query, AllocError>
    ensures { IfOk result (λ query. IfSome query.limit (λ limit. 0 < limit)) }
{
    Ok(Query {
        globs: globs_of(alloc, patterns)?,
        all: options.contains('A'),
        base: options.contains('B'),
        existing: options.contains('e'),
        follow: false,
        separator: b',',
        limit: limit_of(options),
        count_only: options.contains('c'),
    })
}

/// A gate that hides `/a` and has lost `/a.b` where the options say so, and fails at its n-th call.
fn gate_of(alloc: Global, options: &str) -> Result<MemGate, AllocError> {
    let mut gate = MemGate::new(alloc);
    if options.contains('h') {
        gate.hide(b"/a")?;
    }
    if options.contains('l') {
        gate.lose(b"/a.b")?;
    }
    for (option, call) in [("G1", 1), ("G2", 2), ("G3", 3)] {
        if options.contains(option) {
            gate.fail_at(call)?;
        }
    }
    Ok(gate)
}

fn file_of(options: &str) -> &'static [u8] {
    if options.contains('s') {
        return LOCATE02;
    }
    if options.contains('n') {
        return SHARING;
    }
    if options.contains('g') {
        return GATED;
    }
    if options.contains('d') {
        return OPEN.get(..78).unwrap_or(b"");
    }
    OPEN
}

fn files_of(alloc: Global, options: &str) -> Result<MemFiles, AllocError> {
    let mut files = MemFiles::new(alloc);
    if options.contains('b') {
        files.put("db", &bigram(alloc)?)?;
    } else if !options.contains('x') {
        files.put("db", file_of(options))?;
    }
    for (option, call) in [("R1", 1), ("R2", 2), ("R3", 3)] {
        if options.contains(option) {
            files.fail_at(call)?;
        }
    }
    Ok(files)
}

fn counted<L: Ledger>(
    blank: Blank,
    query: &Query,
    files: &mut MemFiles,
    gate: &mut MemGate,
    out: &mut MemSink,
) -> (Outcome, u64)
    requires name { blank.name ≡ L.name }
    requires parts { blank.parts ≡ L.parts }
    requires some { 0 < L.parts }
    requires limit { IfSome query.now.limit (λ limit. 0 < limit) }
{
    let mut steps = Steps::<L>::new(blank);
    let mut tally = Tally { matched: 0 };
    let outcome = search(query, "db", files, gate, out, &mut tally, &mut steps);
    (outcome, tally.matched)
}

fn named(outcome: Outcome) -> &'static str {
    match outcome {
        Outcome::Whole => "Whole",
        Outcome::Missing => "Missing",
        Outcome::NotADatabase => "NotADatabase",
        Outcome::Damage(
            Damage {
                place: 70,
                cause: DamageCause::Cut,
            },
        ) => "Cut",
        Outcome::Damage(_) => "Damage",
        Outcome::ReadFault => "ReadFault",
        Outcome::GateFault => "GateFault",
        Outcome::TooLarge => "TooLarge",
        Outcome::LimitReached => "LimitReached",
        Outcome::WriteFault => "WriteFault",
    }
}

fn digit(number: u64) -> &'static str {
    match number {
        0 => "0",
        1 => "1",
        2 => "2",
        3 => "3",
        4 => "4",
        5 => "5",
        _ => "more",
    }
}

/// The bytes of a row's last word, which is `none` for no byte.
fn text_of(printed: &str) -> &[u8] {
    if printed == "none" {
        return b"";
    }
    printed.as_bytes()
}

/// Whether a search ends with this outcome after so many paths and asks, and prints this.
fn is_right(
    alloc: Global,
    options: &str,
    patterns: &str,
    outcome: &str,
    matched: &str,
    asks: &str,
    printed: &str,
) -> Result<bool, AllocError> {
    let query = query_of(alloc, options, patterns)?;
    let mut files = files_of(alloc, options)?;
    let mut gate = gate_of(alloc, options)?;
    let mut out = MemSink::with_room(alloc, if options.contains('w') { 6 } else { 80 })?;
    let (ended, count) = counted::<Brand>(Blank::new(1), &query, &mut files, &mut gate, &mut out);
    Ok(
        named(ended) == outcome
            && digit(count) == matched
            && digit(gate.asks()) == asks
            && out.taken() == text_of(printed),
    )
}

/// The first row that is answered otherwise. A row has options, patterns, an outcome, the number of paths, that of asks,
/// and what is printed.
fn first_wrong(alloc: Global, rows: &'static str) -> Result<Option<&'static str>, AllocError> {
    for row in rows.lines() {
        let mut words = row.split(' ');
        let options = words.next().unwrap_or("");
        let patterns = words.next().unwrap_or("");
        let outcome = words.next().unwrap_or("");
        let matched = words.next().unwrap_or("");
        let asks = words.next().unwrap_or("");
        let printed = words.next().unwrap_or("");
        if !is_right(alloc, options, patterns, outcome, matched, asks, printed)? {
            return Ok(Some(row));
        }
    }
    Ok(None)
}

#[test]
fn asks_the_gate_once_a_block(rt: HostRuntime) -> Result<(), AllocError> {
    let rows = "\
o a Whole 3 0 /a,/a.b,/a/z,
g a Whole 3 2 /a,/a.b,/a/z,
gh a Whole 2 2 /a,/a.b,
gh z Whole 0 1 none";
    assert_eq!(rt; first_wrong(rt.alloc(), rows)?, None);
    let rows = "\
gG1 a GateFault 0 1 none
gG2 a GateFault 2 2 /a,/a.b,
gG3 a Whole 3 2 /a,/a.b,/a/z,
g q Whole 0 0 none";
    assert_eq!(rt; first_wrong(rt.alloc(), rows)?, None);
    Ok(())
}

#[test]
fn asks_whether_visible_paths_exist(rt: HostRuntime) -> Result<(), AllocError> {
    let rows = "\
el a Whole 2 3 /a,/a/z,
egh a Whole 2 4 /a,/a.b,
egG2 a GateFault 0 2 none
elG3 a GateFault 1 3 /a,";
    assert_eq!(rt; first_wrong(rt.alloc(), rows)?, None);
    Ok(())
}

#[test]
fn stops_at_the_limit(rt: HostRuntime) -> Result<(), AllocError> {
    let rows = "\
oL1 a LimitReached 1 0 /a,
oL3 a LimitReached 3 0 /a,/a.b,/a/z,
oL3 z Whole 1 0 /a/z,
cL3 a LimitReached 3 0 none";
    assert_eq!(rt; first_wrong(rt.alloc(), rows)?, None);
    Ok(())
}

#[test]
fn ends_at_the_first_fault(rt: HostRuntime) -> Result<(), AllocError> {
    let rows = "\
oR1 a ReadFault 0 0 none
oR2 a ReadFault 0 0 none
oR3 a ReadFault 3 0 /a,/a.b,/a/z,
x a Missing 0 0 none
wo a WriteFault 1 0 /a,/a.";
    assert_eq!(rt; first_wrong(rt.alloc(), rows)?, None);
    Ok(())
}

#[test]
fn reads_each_format(rt: HostRuntime) -> Result<(), AllocError> {
    let rows = "\
s a Whole 2 0 /a,/a/z,
b a Whole 1 0 /a,
d a Cut 3 0 /a,/a.b,/a/z,
dL1 a LimitReached 1 0 /a,
c a Whole 3 0 none";
    assert_eq!(rt; first_wrong(rt.alloc(), rows)?, None);
    Ok(())
}

// Before, in and behind what a path shares with the one before, and across the border.
#[test]
fn judges_what_paths_share(rt: HostRuntime) -> Result<(), AllocError> {
    let rows = "\
n lib Whole 3 0 /usr/lib/one,/usr/lib/once,/usr/libx,
n one Whole 3 0 /usr/lib/one,/usr/zone,/zone,
n on Whole 4 0 /usr/lib/one,/usr/lib/once,/usr/zone,/zone,
n once Whole 1 0 /usr/lib/once,
n bx Whole 1 0 /usr/libx,
n r/z Whole 1 0 /usr/zone,
n /z Whole 2 0 /usr/zone,/zone,
n usr Whole 4 0 /usr/lib/one,/usr/lib/once,/usr/libx,/usr/zone,
nB lib Whole 1 0 /usr/libx,
n *e Whole 4 0 /usr/lib/one,/usr/lib/once,/usr/zone,/zone,";
    assert_eq!(rt; first_wrong(rt.alloc(), rows)?, None);
    Ok(())
}

// A pattern that was not asked of the path before is asked of the whole path.
#[test]
fn judges_several_patterns(rt: HostRuntime) -> Result<(), AllocError> {
    let rows = "\
n lib,zone Whole 5 0 /usr/lib/one,/usr/lib/once,/usr/libx,/usr/zone,/zone,
n once,usr/lib Whole 3 0 /usr/lib/one,/usr/lib/once,/usr/libx,
nA usr,zone Whole 1 0 /usr/zone,
nA once,lib Whole 1 0 /usr/lib/once,
nA x,usr/lib Whole 1 0 /usr/libx,
nB one,x Whole 4 0 /usr/lib/one,/usr/libx,/usr/zone,/zone,
n q,q,q,q,q,q,q,q,q,/zo Whole 2 0 /usr/zone,/zone,
nA /,/,/,/,/,/,/,/,/,on Whole 4 0 /usr/lib/one,/usr/lib/once,/usr/zone,/zone,";
    assert_eq!(rt; first_wrong(rt.alloc(), rows)?, None);
    Ok(())
}
