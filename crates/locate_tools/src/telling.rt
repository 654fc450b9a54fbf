//! What is told of the databases of a run. After a write to the error stream has failed, nothing more is written there.
ghost use Rattle.std.specs.Prelude.{◌≡◌, ◌≤◌, ◌++◌, [], codes, if◌then◌else◌, true, false};
ghost use Rattle.std.specs.Io.KnownBytes.{Appends};
ghost use Rattle.loc_outside.specs.Causes.{Rose};
ghost use Rattle.loc_outside.specs.Outside.{AppendsPart};
ghost use Rattle.locate_tools.specs.Messages.{cause_message, outcome_message};
ghost use Rattle.locate_tools.specs.Told.{TellsAs};

use crate::answer::Cause;
use crate::messages::{tell_cause, tell_outcome};
use loc_outside::Sink;
use locate_engine::Outcome;

/// Tells how a database ended. Answers whether a write has failed.
fn tell_next<E: Sink>(err: &mut E, name: &str, outcome: Outcome) -> bool
    ensures told { TellsAs result (E.faults err.old) (E.faults err.new) (E.taken err.old) (E.taken err.new) (outcome_message (codes "locate") name.now outcome) }
    ensures later { E.faults err.old ≤ E.faults err.new }
    ensures kept { E.kept err.old err.new }
{
    match tell_outcome(err, "locate", name.as_bytes(), outcome) {
        Ok(()) => false,
        Err(_) => true,
    }
}

/// Tells how a database ended, unless that is not asked for, or a write has failed before. Answers whether one has.
pub fn tell_after<E: Sink>(
    err: &mut E,
    quiet: bool,
    failed: bool,
    name: &str,
    outcome: Outcome,
) -> bool
    ensures told { failed ≡ false → TellsAs result (E.faults err.old) (E.faults err.new) (E.taken err.old) (E.taken err.new) (if quiet then [] else outcome_message (codes "locate") name.now outcome) }
    ensures silent { failed ≡ true → (result ≡ true) × (err.new ≡ err.old) }
    ensures later { E.faults err.old ≤ E.faults err.new }
    ensures kept { E.kept err.old err.new }
{
    if failed {
        return true;
    }
    if quiet {
        return false;
    }
    tell_next(err, name, outcome)
}

/// Tells why a run ended, with the name that the cause speaks of, unless a write has failed before.
pub fn tell_end<E: Sink>(err: &mut E, failed: bool, tool: &str, subject: &[u8], cause: Cause)
    ensures told { failed ≡ false → (Rose (E.faults err.old) (E.faults err.new) → ⊥) → Appends (E.taken err.old) (E.taken err.new) (cause_message tool.now subject.now cause) }
    ensures part { failed ≡ false → AppendsPart (E.taken err.old) (E.taken err.new) (cause_message tool.now subject.now cause) }
    ensures silent { failed ≡ true → err.new ≡ err.old }
    ensures later { E.faults err.old ≤ E.faults err.new }
    ensures kept { E.kept err.old err.new }
{
    if failed {
        return;
    }
    let _ = tell_cause(err, tool, subject, cause);
}
