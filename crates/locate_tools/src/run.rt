//! The run of a call.
ghost use Rattle.std.specs.Prelude.{◌≡◌, ◌≢◌, ◌≤◌, ◌++◌, [], IsSome, Some};
ghost use Rattle.std.specs.Io.KnownBytes.{Appends};
ghost use Rattle.loc_outside.specs.Causes.{Rose};
ghost use Rattle.loc_outside.specs.Outside.{AppendsPart};
ghost use Rattle.tool_words.specs.ConvertSeen.{seen as convert_seen};
ghost use Rattle.tool_words.specs.ExerciseSeen.{seen as exercise_seen};
ghost use Rattle.tool_words.specs.LocateSeen.{seen as locate_seen};
ghost use Rattle.tool_words.specs.UpdatedbSeen.{seen as updatedb_seen};
ghost use Rattle.tool_words.specs.Tools.{speaker as speaker_of_tool};
ghost use Rattle.locate_tools.specs.Calls.{request_of, update_subject as subject_of_update};
ghost use Rattle.locate_tools.specs.ConvertRun.{ConvertRun};
ghost use Rattle.locate_tools.specs.Does.{Does, Leaves};
ghost use Rattle.locate_tools.specs.ExerciseRun.{ExerciseRun};
ghost use Rattle.locate_tools.specs.LocateExact.{databases_of};
ghost use Rattle.locate_tools.specs.Messages.{cause_message};
ghost use Rattle.locate_tools.specs.LocateRun.{LocateDoes};
ghost use Rattle.locate_tools.specs.RegexesAsked.{refusal_of};
ghost use Rattle.locate_tools.specs.Statuses.{status_of};
ghost use Rattle.locate_tools.specs.Told.{messages};
ghost use Rattle.locate_tools.specs.UpdatedbRun.{UpdatedbRun};

use crate::answer::{Cause, Ending, Outcomes};
use crate::call::Call;
use crate::convert_run::convert;
use crate::exercise_run::exercise;
use crate::locate_run::locate;
use crate::messages::update_subject;
use crate::telling::tell_end;
use crate::updatedb_run::updatedb;
use loc_outside::{BufferedSink, Gate, Output, Reader, Sink, Tree};
use path_order::Stamp;
use std::alloc::Global;
use std::marker::Brand;
use std::sync::ledger::Blank;
use tool_words::{
    ConvertSettings, ExerciseSettings, LocateSettings, Request, Tool, UpdatedbSettings, WordsFault,
    speaker,
};

/// The ending of a run without databases, of which nothing was told yet. Its cause is told.
fn ended<E: Sink>(
    alloc: Global,
    err: &mut E,
    tool: Option<Tool>,
    subject: &[u8],
    cause: Cause,
) -> Ending
    ensures status { result.status ≡ status_of tool cause }
    ensures cause { result.cause ≡ cause }
    ensures outcomes { result.outcomes ≡ [] }
    ensures told { (Rose (E.faults err.old) (E.faults err.new) → ⊥) → Appends (E.taken err.old) (E.taken err.new) (cause_message (speaker_of_tool tool) subject.now cause) }
    ensures told_part { AppendsPart (E.taken err.old) (E.taken err.new) (cause_message (speaker_of_tool tool) subject.now cause) }
    ensures err_later { E.faults err.old ≤ E.faults err.new }
    ensures err_kept { E.kept err.old err.new }
{
    tell_end(err, false, speaker(tool), subject, cause);
    Ending {
        status: cause.status(tool),
        cause,
        outcomes: Outcomes::new(Vec::new(alloc)),
    }
}

/// The run of `locate`.
fn run_locate<R: Reader, G: Gate, P: BufferedSink, E: Sink>(
    alloc: Global,
    asked: &LocateSettings<'_>,
    reader: &mut R,
    gate: &mut G,
    out: &mut P,
    err: &mut E,
) -> Ending
    ensures status { result.status ≡ status_of (Some Tool.Locate) result.cause }
    ensures usage { result.cause ≡ Cause.Usage → ⊥ }
    ensures none { databases_of (locate_seen asked.now) ≡ [] → (reader.new ≡ reader.old) × (gate.new ≡ gate.old) }
    ensures unopened { result.cause ≡ Cause.OutOfMemory → (reader.new ≡ reader.old) × (gate.new ≡ gate.old) × (out.new ≡ out.old) }
    ensures refused { IsSome (refusal_of (locate_seen asked.now)) → (reader.new ≡ reader.old) × (gate.new ≡ gate.old) × (out.new ≡ out.old) }
    ensures run { LocateDoes (locate_seen asked.now)
        (record {
          files = R.files reader.old;
          given = R.given reader.old;
          reads_failed = R.faults reader.old;
          tests = G.tests gate.old;
          asks = G.asks gate.old;
          gate_failed = G.faults gate.old;
          taken = P.taken out.old;
          held_back = P.held_back out.old;
          writes_failed = P.faults out.old;
          matched = 0;
        })
        (record {
          files = R.files reader.new;
          given = R.given reader.new;
          reads_failed = R.faults reader.new;
          tests = G.tests gate.new;
          asks = G.asks gate.new;
          gate_failed = G.faults gate.new;
          taken = P.taken out.new;
          held_back = P.held_back out.new;
          writes_failed = P.faults out.new;
          matched = 0;
        })
        result.outcomes result.cause }
    ensures told { (Rose (E.faults err.old) (E.faults err.new) → ⊥) → Appends (E.taken err.old) (E.taken err.new) (messages asked.now.quiet (databases_of (locate_seen asked.now)) result.outcomes ++ cause_message (speaker_of_tool (Some Tool.Locate)) [] result.cause) }
    ensures told_part { AppendsPart (E.taken err.old) (E.taken err.new) (messages asked.now.quiet (databases_of (locate_seen asked.now)) result.outcomes ++ cause_message (speaker_of_tool (Some Tool.Locate)) [] result.cause) }
    ensures files { R.files reader.new ≡ R.files reader.old }
    ensures tests { G.tests gate.new ≡ G.tests gate.old }
    ensures gate_kept { G.kept gate.old gate.new }
    ensures out_kept { P.kept out.old out.new }
    ensures err_kept { E.kept err.old err.new }
    ensures err_later { E.faults err.old ≤ E.faults err.new }
{
    let found = locate::<R, G, P, E, Brand>(alloc, asked, reader, gate, out, err, Blank::new(1));
    tell_end(
        err,
        found.silent,
        speaker(Some(Tool::Locate)),
        b"",
        found.cause,
    );
    Ending {
        status: found.cause.status(Some(Tool::Locate)),
        cause: found.cause,
        outcomes: found.outcomes,
    }
}

/// The run of `updatedb`.
fn run_updatedb<R: Reader, T: Tree, O: Output, P: BufferedSink, E: Sink>(
    alloc: Global,
    asked: &UpdatedbSettings<'_>,
    now: Stamp,
    reader: &mut R,
    tree: &mut T,
    output: &mut O,
    out: &mut P,
    err: &mut E,
) -> Ending
    ensures status { result.status ≡ status_of (Some Tool.Updatedb) result.cause }
    ensures usage { result.cause ≡ Cause.Usage → ⊥ }
    ensures outcomes { result.outcomes ≡ [] }
    ensures run { UpdatedbRun (updatedb_seen asked.now) now
        (record { files = R.files reader.old; given = R.given reader.old; reads_failed = R.faults reader.old; dirs = T.dirs tree.old; openings = T.openings tree.old; stats = T.stats tree.old; priced = T.priced tree.old; tree_failed = T.faults tree.old; held = O.held output.old; begins = O.begins output.old; output_failed = O.faults output.old; taken = P.taken out.old; held_back = P.held_back out.old; writes_failed = P.faults out.old })
        (record { files = R.files reader.new; given = R.given reader.new; reads_failed = R.faults reader.new; dirs = T.dirs tree.new; openings = T.openings tree.new; stats = T.stats tree.new; priced = T.priced tree.new; tree_failed = T.faults tree.new; held = O.held output.new; begins = O.begins output.new; output_failed = O.faults output.new; taken = P.taken out.new; held_back = P.held_back out.new; writes_failed = P.faults out.new })
        result.cause }
    ensures told { (Rose (E.faults err.old) (E.faults err.new) → ⊥) → Appends (E.taken err.old) (E.taken err.new) (cause_message (speaker_of_tool (Some Tool.Updatedb)) (subject_of_update asked.now.root.now result.cause) result.cause) }
    ensures told_part { AppendsPart (E.taken err.old) (E.taken err.new) (cause_message (speaker_of_tool (Some Tool.Updatedb)) (subject_of_update asked.now.root.now result.cause) result.cause) }
    ensures files { R.files reader.new ≡ R.files reader.old }
    ensures tree_kept { T.kept tree.old tree.new }
    ensures out_kept { P.kept out.old out.new }
    ensures err_kept { E.kept err.old err.new }
    ensures err_later { E.faults err.old ≤ E.faults err.new }
{
    let cause = updatedb(alloc, asked, now, reader, tree, output, out);
    ended(
        alloc,
        err,
        Some(Tool::Updatedb),
        update_subject(asked.root.as_bytes(), cause),
        cause,
    )
}

/// The run of `convert`.
fn run_convert<R: Reader, O: Output, E: Sink>(
    alloc: Global,
    asked: &ConvertSettings<'_>,
    reader: &mut R,
    output: &mut O,
    err: &mut E,
) -> Ending
    ensures status { result.status ≡ status_of (Some Tool.Convert) result.cause }
    ensures usage { result.cause ≡ Cause.Usage → ⊥ }
    ensures outcomes { result.outcomes ≡ [] }
    ensures run { ConvertRun (convert_seen asked.now)
        (record { files = R.files reader.old; given = R.given reader.old; reads_failed = R.faults reader.old; held = O.held output.old; begins = O.begins output.old; output_failed = O.faults output.old })
        (record { files = R.files reader.new; given = R.given reader.new; reads_failed = R.faults reader.new; held = O.held output.new; begins = O.begins output.new; output_failed = O.faults output.new })
        result.cause }
    ensures unwritten { result.cause ≢ Cause.Done → result.cause ≢ Cause.WriteFault → output.new ≡ output.old }
    ensures told { (Rose (E.faults err.old) (E.faults err.new) → ⊥) → Appends (E.taken err.old) (E.taken err.new) (cause_message (speaker_of_tool (Some Tool.Convert)) asked.now.input.now result.cause) }
    ensures told_part { AppendsPart (E.taken err.old) (E.taken err.new) (cause_message (speaker_of_tool (Some Tool.Convert)) asked.now.input.now result.cause) }
    ensures files { R.files reader.new ≡ R.files reader.old }
    ensures err_kept { E.kept err.old err.new }
    ensures err_later { E.faults err.old ≤ E.faults err.new }
{
    let cause = convert(alloc, asked, reader, output);
    ended(
        alloc,
        err,
        Some(Tool::Convert),
        asked.input.as_bytes(),
        cause,
    )
}

/// The run of `exercise`.
fn run_exercise<P: BufferedSink, E: Sink>(
    alloc: Global,
    asked: &ExerciseSettings,
    out: &mut P,
    err: &mut E,
) -> Ending
    ensures status { result.status ≡ status_of (Some Tool.Exercise) result.cause }
    ensures outcomes { result.outcomes ≡ [] }
    ensures run { ExerciseRun (exercise_seen asked.now)
        (record { taken = P.taken out.old; held_back = P.held_back out.old; failed = P.faults out.old })
        (record { taken = P.taken out.new; held_back = P.held_back out.new; failed = P.faults out.new })
        result.cause }
    ensures unwritten { result.cause ≡ Cause.OutOfMemory → out.new ≡ out.old }
    ensures told { (Rose (E.faults err.old) (E.faults err.new) → ⊥) → Appends (E.taken err.old) (E.taken err.new) (cause_message (speaker_of_tool (Some Tool.Exercise)) [] result.cause) }
    ensures told_part { AppendsPart (E.taken err.old) (E.taken err.new) (cause_message (speaker_of_tool (Some Tool.Exercise)) [] result.cause) }
    ensures out_kept { P.kept out.old out.new }
    ensures err_kept { E.kept err.old err.new }
    ensures err_later { E.faults err.old ≤ E.faults err.new }
{
    let cause = exercise(alloc, asked, out);
    ended(alloc, err, Some(Tool::Exercise), b"", cause)
}

/// Does what the words ask for. `updatedb` stores a complete scan of a tree under the name of its output. `locate` prints the
/// matching paths of its databases, or writes their statistics, and, unless it is told to be quiet, reports on `err` each
/// database that is missing, not a database, damaged or too large, or that could not be read or checked; all its memory is
/// taken before the first is opened. `convert` stores the paths of its input, in the format asked for, under the name of its
/// output, which may be the input. `exercise` updates a sample of trees in memory, and prints four totals. On any cause other
/// than `Done`, `updatedb` and `convert` leave the stored files as they were. What was written to `out` is passed on after
/// each database. A cause other than `Done` and `NoMatch` is reported on `err`; if a write there fails, a first part of the
/// messages was taken, and no more are written.
pub fn run<R: Reader, T: Tree, G: Gate, O: Output, P: BufferedSink, E: Sink>(
    alloc: Global,
    call: &Call,
    reader: &mut R,
    tree: &mut T,
    gate: &mut G,
    output: &mut O,
    out: &mut P,
    err: &mut E,
) -> Ending
    ensures does { Does call.now
        (record {
          files = R.files reader.old;
          given = R.given reader.old;
          reads_failed = R.faults reader.old;
          dirs = T.dirs tree.old;
          openings = T.openings tree.old;
          stats = T.stats tree.old;
          priced = T.priced tree.old;
          tree_failed = T.faults tree.old;
          tests = G.tests gate.old;
          asks = G.asks gate.old;
          gate_failed = G.faults gate.old;
          held = O.held output.old;
          begins = O.begins output.old;
          output_failed = O.faults output.old;
          taken = P.taken out.old;
          held_back = P.held_back out.old;
          writes_failed = P.faults out.old;
          err_taken = E.taken err.old;
          err_failed = E.faults err.old;
        })
        result
        (record {
          files = R.files reader.new;
          given = R.given reader.new;
          reads_failed = R.faults reader.new;
          dirs = T.dirs tree.new;
          openings = T.openings tree.new;
          stats = T.stats tree.new;
          priced = T.priced tree.new;
          tree_failed = T.faults tree.new;
          tests = G.tests gate.new;
          asks = G.asks gate.new;
          gate_failed = G.faults gate.new;
          held = O.held output.new;
          begins = O.begins output.new;
          output_failed = O.faults output.new;
          taken = P.taken out.new;
          held_back = P.held_back out.new;
          writes_failed = P.faults out.new;
          err_taken = E.taken err.new;
          err_failed = E.faults err.new;
        }) }
    ensures leaves { Leaves (request_of call.now) result.cause (reader.new ≡ reader.old) (tree.new ≡ tree.old) (gate.new ≡ gate.old) (output.new ≡ output.old) (out.new ≡ out.old) }
    ensures tree_kept { T.kept tree.old tree.new }
    ensures gate_kept { G.kept gate.old gate.new }
    ensures out_kept { P.kept out.old out.new }
    ensures err_kept { E.kept err.old err.new }
{
    let request = match call.request(alloc) {
        Ok(request) => request,
        Err(WordsFault::Usage) => return ended(alloc, err, call.tool(), b"", Cause::Usage),
        Err(WordsFault::OutOfMemory) => {
            return ended(alloc, err, call.tool(), b"", Cause::OutOfMemory);
        }
    };
    match request {
        Request::Locate(asked) => run_locate(alloc, &asked, reader, gate, out, err),
        Request::Updatedb(asked) => run_updatedb(
            alloc,
            &asked,
            call.moment(),
            reader,
            tree,
            output,
            out,
            err,
        ),
        Request::Convert(asked) => run_convert(alloc, &asked, reader, output, err),
        Request::Exercise(asked) => run_exercise(alloc, &asked, out, err),
    }
}
