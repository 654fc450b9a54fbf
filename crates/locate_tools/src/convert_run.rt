//! The run of `convert`.
ghost use Rattle.std.specs.Prelude.{◌≡◌, ◌≢◌, option_map};
ghost use Rattle.tool_words.specs.ConvertSeen.{seen};
ghost use Rattle.locate_tools.specs.ConvertRun.{ConvertRun, cause_of as cause_of_fault, format_of as format_by_word};

use crate::answer::{Cause, NeededFile};
use db_convert::{ConvertFault, Format, convert as convert_file};
use loc_outside::{Output, Reader};
use std::alloc::Global;
use tool_words::{ConvertSettings, Format as FormatAsked};

/// The format that a word names.
fn format_of(format: FormatAsked) -> Format
    ensures { result ≡ format_by_word format }
{
    match format {
        FormatAsked::Mlocate => Format::Mlocate,
        FormatAsked::Locate02 => Format::Locate02,
        FormatAsked::Bigram => Format::Bigram,
        FormatAsked::List => Format::List,
        FormatAsked::List0 => Format::List0,
    }
}

/// The format of the input, where one is named.
fn named_format(format: Option<FormatAsked>) -> Option<Format>
    ensures { result ≡ option_map format_by_word format }
{
    match format {
        Some(format) => Some(format_of(format)),
        None => None,
    }
}

/// Why a run ends whose conversion was refused.
fn cause_of(fault: ConvertFault) -> Cause
    ensures { result ≡ cause_of_fault fault }
{
    match fault {
        ConvertFault::Missing => Cause::Missing,
        ConvertFault::NotADatabase => Cause::NotADatabase,
        ConvertFault::Damage(damage) => Cause::Damage(damage),
        ConvertFault::ReadFault => Cause::ReadFault(NeededFile::Input),
        ConvertFault::TooLarge => Cause::TooLarge,
        ConvertFault::NotAdmitted { index, cause } => Cause::NotAdmitted {
            index,
            fault: cause,
        },
        ConvertFault::WriteFault => Cause::WriteFault,
        ConvertFault::OutOfMemory => Cause::OutOfMemory,
    }
}

/// Converts the input: what is stored, what each fault leaves, and when each cause comes, is one record, `ConvertRun`.
pub fn convert<R: Reader, O: Output>(
    alloc: Global,
    asked: &ConvertSettings<'_>,
    reader: &mut R,
    output: &mut O,
) -> Cause
    ensures run { ConvertRun (seen asked.now)
        (record { files = R.files reader.old; given = R.given reader.old; reads_failed = R.faults reader.old; held = O.held output.old; begins = O.begins output.old; output_failed = O.faults output.old })
        (record { files = R.files reader.new; given = R.given reader.new; reads_failed = R.faults reader.new; held = O.held output.new; begins = O.begins output.new; output_failed = O.faults output.new })
        result }
    ensures unwritten { result ≢ Cause.Done → result ≢ Cause.WriteFault → output.new ≡ output.old }
    ensures files { R.files reader.new ≡ R.files reader.old }
{
    let from = named_format(asked.from);
    let to = format_of(asked.to);
    match convert_file(alloc, from, to, asked.input, asked.output, reader, output) {
        Ok(_) => Cause::Done,
        Err(fault) => cause_of(fault),
    }
}
