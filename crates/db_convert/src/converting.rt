//! The conversion of a file.
ghost use Rattle.std.specs.Prelude.{◌≡◌, ◌≢◌, ℕ, List, [], ◌≤◌, ◌+◌, ◌^◌, ◌⊎◌, All, None, Some, Err, Ok, IfOk, IfErr, IsTrue, OnOk, OnErr, option_map};
ghost use Rattle.std.specs.FinMap.{get};
ghost use Rattle.loc_outside.specs.Causes.{HasCause, Rose, raised};
ghost use Rattle.loc_outside.specs.Files.{Files};
ghost use Rattle.byte_feed.specs.Paths.{IsPath};
ghost use Rattle.db_convert.specs.Admission.{first_refused as refused_first};
ghost use Rattle.db_convert.specs.Conversion.{encode};
ghost use Rattle.db_convert.specs.Converts.{ConvertDoes, PendsPart, admitted_to, is_of_reading, read_found, size_of, stored_in, with_file};
ghost use Rattle.db_convert.specs.Plans.{IsMade, format_of};

use crate::admission::first_refused;
use crate::entries::Entries;
use crate::fault::{ConvertFault, fault_of_list};
use crate::format::Format;
use crate::gathers::Gathers;
use crate::paths::Paths;
use crate::reading::read_into;
use crate::writing::{Target, put_paths, target_for};
use loc_outside::{Failed, Opened, Output, Reader, put_all};
use std::alloc::Global;

/// Opens the input, reads it whole, and takes in its paths.
fn read_input<R: Reader, C: Gathers>(
    into: &mut C,
    from: Option<Format>,
    input: &str,
    reader: &mut R,
) -> Result<(), ConvertFault>
    requires empty { C.holds into.old [] }
    ensures read { OnOk result ((paths : List (List ℕ)) × C.holds into.new paths × All IsPath paths × ((files : Files) → R.files reader.old ≡ Some files → read_found from (get files input.now) ≡ Ok paths)) }
    ensures fault { IfErr result (λ fault. IsTrue (is_of_reading fault)) }
    ensures refused { IfErr result (λ fault. fault ≢ ConvertFault.OutOfMemory → fault ≢ ConvertFault.ReadFault → (files : Files) → R.files reader.old ≡ Some files → read_found from (get files input.now) ≡ Err fault) }
    ensures read_fault { IfErr result (λ fault. fault ≡ ConvertFault.ReadFault → Rose (R.faults reader.old) (R.faults reader.new)) }
    ensures given { R.given reader.new ≤ R.given reader.old + 2 ^ 40 }
    ensures once { (files : Files) → R.files reader.old ≡ Some files → R.given reader.new ≤ R.given reader.old + size_of (get files input.now) }
    ensures later { R.faults reader.old ≤ R.faults reader.new }
    ensures files { R.files reader.new ≡ R.files reader.old }
{
    match reader.open_file(input) {
        Ok(Opened::Found) => {}
        Ok(Opened::Missing) => return Err(ConvertFault::Missing),
        Err(_) => return Err(ConvertFault::ReadFault),
    }
    match read_into(into, from, reader) {
        Ok(()) => Ok(()),
        Err(fault) => Err(fault_of_list(fault)),
    }
}

/// Tests whether the format can hold all paths, and takes the memory that it takes to write them.
fn admit(alloc: Global, to: Format, paths: &Paths) -> Result<Target, ConvertFault>
    ensures admitted { OnOk result (refused_first to paths.now ≡ None) }
    ensures format { IfOk result (λ target. format_of target ≡ to) }
    ensures made { IfOk result (λ target. IsMade paths.now target) }
    ensures refused { IfErr result (λ fault. (fault ≡ ConvertFault.OutOfMemory) ⊎ (admitted_to to paths.now ≡ Err fault)) }
{
    if let Some((index, cause)) = first_refused(to, paths) {
        return Err(ConvertFault::NotAdmitted {
            index: index as u64,
            cause,
        });
    }
    match target_for(alloc, to, paths) {
        Ok(target) => Ok(target),
        Err(_) => Err(ConvertFault::OutOfMemory),
    }
}

/// Begins a file of this name, writes the paths to it and commits.
fn store<O: Output>(name: &str, target: Target, paths: &Paths, output: &mut O) -> Result<(), Failed>
    requires made { IsMade paths.now target }
    requires readable { All IsPath paths.now }
    requires admitted { refused_first (format_of target) paths.now ≡ None }
    ensures stored { OnOk result (O.held output.new ≡ option_map (with_file name.now (encode (format_of target) paths.now)) (O.held output.old)) }
    ensures begun { OnOk result (O.begins output.new ≡ raised (O.begins output.old) 1) }
    ensures unstored { OnErr result (stored_in (O.held output.new) ≡ stored_in (O.held output.old)) }
    ensures left { OnErr result ((O.held output.new ≡ O.held output.old) ⊎ PendsPart name.now (encode (format_of target) paths.now) (O.held output.old) (O.held output.new)) }
    ensures begins { OnErr result ((O.begins output.new ≡ O.begins output.old) ⊎ (O.begins output.new ≡ raised (O.begins output.old) 1)) }
    ensures cause { HasCause (O.faults output.old) (O.faults output.new) result }
{
    output.begin(name)?;
    put_paths(output, target, paths)?;
    output.commit()
}

/// Begins a file of this name, writes a text to it and commits.
fn store_text<O: Output>(name: &str, text: &[u8], output: &mut O) -> Result<(), Failed>
    ensures stored { OnOk result (O.held output.new ≡ option_map (with_file name.now text.now) (O.held output.old)) }
    ensures begun { OnOk result (O.begins output.new ≡ raised (O.begins output.old) 1) }
    ensures unstored { OnErr result (stored_in (O.held output.new) ≡ stored_in (O.held output.old)) }
    ensures left { OnErr result ((O.held output.new ≡ O.held output.old) ⊎ PendsPart name.now text.now (O.held output.old) (O.held output.new)) }
    ensures begins { OnErr result ((O.begins output.new ≡ O.begins output.old) ⊎ (O.begins output.new ≡ raised (O.begins output.old) 1)) }
    ensures cause { HasCause (O.faults output.old) (O.faults output.new) result }
{
    output.begin(name)?;
    put_all(output, text)?;
    output.commit()
}

/// Opens the input by its name and reads it whole, tests in order whether the target's format can hold each path, and then
/// begins the target, writes it and stores it under its name. With no format the input is a database, whose first bytes
/// tell which. The target may have the name of the input.
/// Answers the number of paths that were read. After an `Err` nothing is stored, and the first step that failed or was
/// refused is told. All memory is taken before the target is begun.
pub fn convert<R: Reader, O: Output>(
    alloc: Global,
    from: Option<Format>,
    to: Format,
    input: &str,
    target: &str,
    reader: &mut R,
    output: &mut O,
) -> Result<u64, ConvertFault>
    ensures does { ConvertDoes
        (record { from = from; to = to; input = input.now; target = target.now })
        (record { files = R.files reader.old; given = R.given reader.old; reads_failed = R.faults reader.old; held = O.held output.old; begins = O.begins output.old; output_failed = O.faults output.old })
        (record { files = R.files reader.new; given = R.given reader.new; reads_failed = R.faults reader.new; held = O.held output.new; begins = O.begins output.new; output_failed = O.faults output.new })
        (output.new ≡ output.old)
        result }
    ensures files { R.files reader.new ≡ R.files reader.old }
{
    match to {
        Format::Locate02 => convert_to_locate02(alloc, from, input, target, reader, output),
        to => convert_by_list(alloc, from, to, input, target, reader, output),
    }
}

/// The same to a LOCATE02 database. Any path can be in one, and it is written in the order of the list, so its bytes are
/// made as the paths come.
fn convert_to_locate02<R: Reader, O: Output>(
    alloc: Global,
    from: Option<Format>,
    input: &str,
    target: &str,
    reader: &mut R,
    output: &mut O,
) -> Result<u64, ConvertFault>
    ensures does { ConvertDoes
        (record { from = from; to = Format.Locate02; input = input.now; target = target.now })
        (record { files = R.files reader.old; given = R.given reader.old; reads_failed = R.faults reader.old; held = O.held output.old; begins = O.begins output.old; output_failed = O.faults output.old })
        (record { files = R.files reader.new; given = R.given reader.new; reads_failed = R.faults reader.new; held = O.held output.new; begins = O.begins output.new; output_failed = O.faults output.new })
        (output.new ≡ output.old)
        result }
    ensures files { R.files reader.new ≡ R.files reader.old }
{
    let Ok(mut entries) = Entries::new(alloc) else {
        return Err(ConvertFault::OutOfMemory);
    };
    match read_input(&mut entries, from, input, reader) {
        Ok(()) => {}
        Err(fault) => return Err(fault),
    }
    let Ok(()) = store_text(target, entries.bytes(), output) else {
        return Err(ConvertFault::WriteFault);
    };
    Ok(entries.count())
}

/// The same to any format: the paths are kept as a list.
fn convert_by_list<R: Reader, O: Output>(
    alloc: Global,
    from: Option<Format>,
    to: Format,
    input: &str,
    target: &str,
    reader: &mut R,
    output: &mut O,
) -> Result<u64, ConvertFault>
    ensures does { ConvertDoes
        (record { from = from; to = to; input = input.now; target = target.now })
        (record { files = R.files reader.old; given = R.given reader.old; reads_failed = R.faults reader.old; held = O.held output.old; begins = O.begins output.old; output_failed = O.faults output.old })
        (record { files = R.files reader.new; given = R.given reader.new; reads_failed = R.faults reader.new; held = O.held output.new; begins = O.begins output.new; output_failed = O.faults output.new })
        (output.new ≡ output.old)
        result }
    ensures files { R.files reader.new ≡ R.files reader.old }
{
    let mut paths = Paths::new(alloc);
    match read_input(&mut paths, from, input, reader) {
        Ok(()) => {}
        Err(fault) => return Err(fault),
    }
    let ready = match admit(alloc, to, &paths) {
        Ok(ready) => ready,
        Err(fault) => return Err(fault),
    };
    let Ok(()) = store(target, ready, &paths, output) else {
        return Err(ConvertFault::WriteFault);
    };
    Ok(paths.len() as u64)
}
