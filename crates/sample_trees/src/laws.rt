//! Laws of the trees, each the contract of a function that does nothing.
ghost use Rattle.std.specs.Prelude.{◌≤◌, ◌+◌, ◌*◌};
ghost use Rattle.sample_trees.specs.Kept.{AllShown, SameWhereTimesAgree};
ghost use Rattle.sample_trees.specs.Rounds.{dirs_after};
ghost use Rattle.sample_trees.specs.Sizes.{IsSmall};

/// After any number of rounds each directory shows its names.
pub fn no_directory_is_hidden(seed: u64, rounds: u8)
    ensures { AllShown (dirs_after seed rounds) }
{}

/// A directory that has the same time after two numbers of rounds is the same: each edit of a round gives it a time later
/// than all times before that round.
pub fn same_where_times_agree(seed: u64, earlier: u8, later: u8)
    requires { earlier ≤ later }
    ensures { SameWhereTimesAgree (dirs_after seed earlier) (dirs_after seed later) }
{}

/// The directories stay few, and each has few names: a round adds ten at most.
pub fn samples_are_small(seed: u64, rounds: u8)
    ensures { IsSmall (15 + 10 * rounds) (dirs_after seed rounds) }
{}
