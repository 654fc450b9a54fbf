//! The steps of a sample.
ghost use Rattle.std.specs.Prelude.{◌≡◌, ◌∷◌, ◌++◌, [], OnOk, IfOk};
ghost use Rattle.loc_outside.specs.Memory.{fresh_tree};
ghost use Rattle.sample_trees.specs.Rounds.{seconds_of};
ghost use Rattle.sample_trees.specs.Steps.{sample_steps as steps_of};

use crate::first_tree::first_tree;
use crate::numbers::Numbers;
use crate::rounds::{edit_round, round_seconds};
use crate::step::SampleStep;
use loc_outside::MemTree;
use path_order::Stamp;
use std::alloc::{AllocError, Global};

/// Appends a step with a copy of the tree, and the moment of the round.
fn push_step(
    alloc: Global,
    steps: &mut Vec<SampleStep>,
    tree: &MemTree,
    round: u8,
) -> Result<(), AllocError>
    ensures { OnOk result (steps.new.items ≡ steps.old.items ++ record { tree = fresh_tree tree.now.dirs; now = record { seconds = seconds_of round; nanos = 0 } } ∷ []) }
{
    let tree = tree.copy(alloc)?;
    let now = Stamp::new(round_seconds(round), 0).unwrap_or(Stamp::zero());
    steps.push(SampleStep { tree, now })?;
    Ok(())
}

/// The first tree of 2,001 directories and the one after each round of edits, each with its moment.
/// No tree was opened or looked up, and no call of one is set to fail. The only refusal is that memory runs out.
pub fn sample_steps(alloc: Global, seed: u64, rounds: u8) -> Result<Vec<SampleStep>, AllocError>
    ensures { IfOk result (λ steps. steps.items ≡ steps_of seed rounds) }
{
    let mut numbers = Numbers { state: seed };
    let mut tree = first_tree(alloc, &mut numbers)?;
    let mut steps = Vec::new(alloc);
    push_step(alloc, &mut steps, &tree, 0)?;
    for round in 0..rounds {
        edit_round(&mut tree, &mut numbers, round + 1)?;
        push_step(alloc, &mut steps, &tree, round + 1)?;
    }
    Ok(steps)
}
