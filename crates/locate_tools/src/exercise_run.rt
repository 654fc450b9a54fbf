//! The run of `exercise`.
ghost use Rattle.std.specs.Prelude.{◌≡◌, OnOk, OnErr};
ghost use Rattle.std.specs.Io.KnownBytes.{Appends};
ghost use Rattle.loc_outside.specs.Causes.{HasCause};
ghost use Rattle.loc_outside.specs.Outside.{AppendsPart};
ghost use Rattle.tool_words.specs.ExerciseSeen.{seen};
ghost use Rattle.locate_tools.specs.ExerciseRun.{ExerciseRun, lines_of, text_of};

use crate::answer::Cause;
use crate::lines::put_pieces;
use itoa::Buffer;
use loc_outside::{BufferedSink, Failed, Sink};
use std::alloc::Global;
use tool_words::ExerciseSettings;
use update_runs::{Exercised, exercise as exercised};

/// Writes four lines, each with a number, given by its digits.
#[tactic(auto, unfolding(crate::specs::ExerciseRun::lines_of))]
fn put_lines<P: Sink>(
    out: &mut P,
    rounds: &[u8],
    directories: &[u8],
    opened: &[u8],
    bytes: &[u8],
) -> Result<(), Failed>
    ensures ok { OnOk result (Appends (P.taken out.old) (P.taken out.new) (lines_of rounds.now directories.now opened.now bytes.now)) }
    ensures part { OnErr result (AppendsPart (P.taken out.old) (P.taken out.new) (lines_of rounds.now directories.now opened.now bytes.now)) }
    ensures cause { HasCause (P.faults out.old) (P.faults out.new) result }
    ensures kept { P.kept out.old out.new }
{
    put_pieces(
        out,
        &[
            b"rounds ",
            rounds,
            b"\ndirectories ",
            directories,
            b"\nopened ",
            opened,
            b"\nbytes ",
            bytes,
            b"\n",
        ],
    )
}

/// Writes what an exercise comes to.
fn put_exercised<P: Sink>(out: &mut P, shown: &Exercised) -> Result<(), Failed>
    ensures ok { OnOk result (Appends (P.taken out.old) (P.taken out.new) (text_of shown.now)) }
    ensures part { OnErr result (AppendsPart (P.taken out.old) (P.taken out.new) (text_of shown.now)) }
    ensures cause { HasCause (P.faults out.old) (P.faults out.new) result }
    ensures kept { P.kept out.old out.new }
{
    let mut rounds = Buffer::new();
    let mut directories = Buffer::new();
    let mut opened = Buffer::new();
    let mut bytes = Buffer::new();
    put_lines(
        out,
        rounds.format(shown.rounds).as_bytes(),
        directories.format(shown.directories).as_bytes(),
        opened.format(shown.opened).as_bytes(),
        bytes.format(shown.bytes).as_bytes(),
    )
}

/// Makes the exercise and writes what it comes to: what is written, and when each cause comes, is one record, `ExerciseRun`.
pub fn exercise<P: BufferedSink>(alloc: Global, asked: &ExerciseSettings, out: &mut P) -> Cause
    ensures run { ExerciseRun (seen asked.now)
        (record { taken = P.taken out.old; held_back = P.held_back out.old; failed = P.faults out.old })
        (record { taken = P.taken out.new; held_back = P.held_back out.new; failed = P.faults out.new })
        result }
    ensures unwritten { result ≡ Cause.OutOfMemory → out.new ≡ out.old }
    ensures kept { P.kept out.old out.new }
{
    let Ok(shown) = exercised(alloc, asked.number, asked.rounds) else {
        return Cause::OutOfMemory;
    };
    let Ok(()) = put_exercised(out, &shown) else {
        return Cause::WriteFault;
    };
    match out.flush() {
        Ok(()) => Cause::Done,
        Err(_) => Cause::WriteFault,
    }
}
