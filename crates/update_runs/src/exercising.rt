//! An exercise: updates of a sample.
ghost use Rattle.std.specs.Prelude.{◌≡◌, ◌+◌, ◌<◌, ◌^◌, IfOk, IsTrue, length};
ghost use Rattle.path_order.specs.Path.{is_normal};
ghost use Rattle.tree_scan.specs.Plans.{plan_of};
ghost use Rattle.update_runs.specs.Exercises.{exercised, sample_plan};

use crate::list::update_list;
use crate::outcome::ListFault;
use mount_table::Mounts;
use path_order::PathBuf;
use sample_trees::sample_steps;
use std::alloc::{AllocError, Global};
use tree_scan::Rules;
use updatedb_conf::{Conf, block_is_short};

/// What an exercise comes to: its rounds, the directories of the last database, how many were opened in all updates, and the
/// bytes of the last database.
#[derive(Clone, Copy, Debug, PartialEq, Eq)]
pub struct Exercised {
    pub rounds: u8,
    pub directories: u64,
    pub opened: u64,
    pub bytes: u64,
}

/// The rules of a sample's updates.
pub(crate) fn sample_rules(alloc: Global) -> Rules
    ensures plan { plan_of result ≡ sample_plan }
    ensures block { length (plan_of result).block < 2 ^ 32 }
{
    let mut root = PathBuf::new();
    let _ = root.set(b"/");
    let conf = Conf::defaults(alloc);
    block_is_short(&conf);
    Rules {
        root,
        conf,
        mounts: Mounts::none(alloc),
        flag: true,
        verbose: false,
        version: 0,
    }
}

/// Updates the sample that is drawn by this number, from no database on: its first tree, and the one after each round.
/// The only refusal is that memory runs out.
pub fn exercise(alloc: Global, number: u64, rounds: u8) -> Result<Exercised, AllocError>
    ensures { IfOk result (λ shown. shown ≡ exercised number rounds) }
{
    let rules = sample_rules(alloc);
    let mut steps = sample_steps(alloc, number, rounds)?;
    match update_list(alloc, &rules, b"", &mut steps) {
        Ok(list) => Ok(Exercised {
            rounds,
            directories: list.directories,
            opened: list.openings,
            bytes: list.bytes.as_slice().len() as u64,
        }),
        Err(ListFault::OutOfMemory) => Err(AllocError),
        // The root is there, and a sample passes no limit.
        Err(ListFault::RootMissing) => unreachable!(),
        Err(ListFault::TooManyNames) => unreachable!(),
        Err(ListFault::TooManyDirectories) => unreachable!(),
    }
}
