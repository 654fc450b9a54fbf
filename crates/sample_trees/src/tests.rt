//! The first directories and names, and the trees after a round.

use crate::{SampleStep, sample_steps};
use loc_outside::{Listing, MemTree, Times, Tree};
use path_order::{PathBuf, Stamp};
use std::alloc::AllocError;
use std::test::Fail;

// How many names a directory has, and the first and the last of them in the order of their bytes.
fn count_names(tree: &mut MemTree, dir: &[u8], first: &mut PathBuf, last: &mut PathBuf) -> u32 {
    let Ok(Listing::Shown) = tree.open_dir(dir) else {
        return 1000;
    };
    for count in 0..100u32 {
        let Ok(Some(_)) = tree.next_name(last) else {
            return count;
        };
        if count == 0 {
            let _ = first.set(last.bytes());
        }
    }
    1000
}

fn at(seconds: u64) -> Times {
    let moment = Stamp::new(seconds, 0).unwrap_or(Stamp::zero());
    Times {
        modified: moment,
        changed: moment,
    }
}

// A directory, how many names it has, the first and the last of them, and its time.
type Row = (&'static [u8], u32, &'static [u8], &'static [u8], u64);

// Whether a directory is as a row says.
fn is_as(tree: &mut MemTree, row: &Row) -> bool {
    let mut first = PathBuf::new();
    let mut last = PathBuf::new();
    let names = count_names(tree, row.0, &mut first, &mut last);
    names == row.1
        && (names == 0 || first.bytes() == row.2)
        && (names == 0 || last.bytes() == row.3)
        && tree.stat(row.0) == Ok(Some(at(row.4)))
}

#[test]
fn the_first_directories(rt: HostRuntime) -> Result<(), Fail> {
    let rows: [Row; 8] = [
        (b"/", 14, b"d1", b"f5", 1_000_000),
        (b"/d1", 9, b"d10", b"f0", 1_000_000),
        (b"/d1/d9", 10, b"d73", b"f1", 1_000_000),
        (b"/d1/d9/d73", 12, b"d585", b"f3", 1_000_000),
        (b"/d1/d9/d73/d585", 1, b"f0", b"f0", 1_000_000),
        (b"/d3/d31/d249", 9, b"d1993", b"f0", 1_000_000),
        (b"/d3/d31/d250", 7, b"f0", b"f6", 1_000_000),
        (b"/d2/d18/d149/d1194", 0, b"", b"", 1_000_000),
    ];
    let mut steps = sample_steps(rt.alloc(), 1, 0)?;
    assert_eq!(rt; steps.len(), 1);
    let step = &mut steps[0];
    assert_eq!(rt; step.now, Stamp::new(2_000_000, 0).unwrap_or(Stamp::zero()));
    for row in &rows {
        assert!(rt; is_as(&mut step.tree, row));
    }
    assert_eq!(rt; step.tree.stat(b"/d3/d31/d250/d2001"), Ok(None));
    Ok(())
}

// The ten edits: three add a file, two change no name, four take away the first file, and one finds none.
#[test]
fn the_directories_after_a_round(rt: HostRuntime) -> Result<(), Fail> {
    let rows: [Row; 11] = [
        (b"/d1/d11/d93/d745", 0, b"", b"", 2_000_099),
        (b"/d3/d25/d203/d1632", 6, b"f0", b"f5", 2_000_093),
        (b"/d2/d18/d147/d1179", 4, b"f0", b"n1_2", 2_000_094),
        (b"/d3/d26/d210/d1683", 8, b"f0", b"n1_3", 2_000_099),
        (b"/d3/d30/d241/d1932", 6, b"f1", b"f6", 2_000_098),
        (b"/d4/d37/d300", 1, b"f1", b"f1", 2_000_093),
        (b"/d2/d18/d149/d1194", 0, b"", b"", 2_000_096),
        (b"/d1/d15/d124/d999", 4, b"f0", b"n1_7", 2_000_099),
        (b"/d7/d63", 13, b"d505", b"f4", 2_000_098),
        (b"/d1/d15/d127/d1017", 7, b"f0", b"n1_9", 2_000_096),
        (b"/", 14, b"d1", b"f5", 1_000_000),
    ];
    let mut steps = sample_steps(rt.alloc(), 1, 1)?;
    assert_eq!(rt; steps.len(), 2);
    let step = &mut steps[1];
    assert_eq!(rt; step.now, Stamp::new(2_000_100, 0).unwrap_or(Stamp::zero()));
    for row in &rows {
        assert!(rt; is_as(&mut step.tree, row));
    }
    Ok(())
}

// What was added in the second and third rounds, and that a step keeps its tree while later ones are edited.
#[test]
fn a_step_for_each_round(rt: HostRuntime) -> Result<(), Fail> {
    let rows: [(usize, Row); 6] = [
        (0, (b"/d1", 15, b"d10", b"f6", 1_000_000)),
        (1, (b"/d1/d13/d110", 9, b"d881", b"f0", 1_000_000)),
        (2, (b"/d1/d13/d110", 8, b"d881", b"d888", 2_000_195)),
        (2, (b"/d3/d30/d245/d1964", 1, b"n2_1", b"n2_1", 2_000_200)),
        (3, (b"/d3/d30/d248/d1991", 4, b"f0", b"n3_9", 2_000_295)),
        (3, (b"/d3/d30/d245/d1964", 1, b"n2_1", b"n2_1", 2_000_200)),
    ];
    let mut steps = sample_steps(rt.alloc(), 7, 3)?;
    for (step, row) in &rows {
        assert!(rt; *step < steps.len());
        assert!(rt; is_as(&mut steps[*step].tree, row));
    }
    Ok(())
}
