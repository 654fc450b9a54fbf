//! What a scan writes.
ghost use Rattle.std.specs.Prelude.{◌≡◌, ◌<◌, ◌≤◌, ◌^◌, ◌⊎◌, map, ◌∷◌, [], ◌++◌, length, false, IsTrue, OnOk, OnErr, All, flat_map, if◌then◌else◌};
ghost use Rattle.std.specs.Io.KnownBytes.{Appends};
ghost use Rattle.path_order.specs.Path.{is_normal};
ghost use Rattle.loc_outside.specs.Causes.{HasCause, Rose};
ghost use Rattle.loc_outside.specs.Outside.{AppendsPart};
ghost use Rattle.tree_scan.specs.Admitted.{fits_in};
ghost use Rattle.tree_scan.specs.Blocks.{block_pieces, block_text, entry_text, head_text, header, line, lines_of};
ghost use Rattle.tree_scan.specs.Plans.{plan_of};
ghost use Rattle.tree_scan.specs.Stops.{LinesFollow, taken};

use crate::Rules;
use loc_outside::{Failed, Sink, put_all};
use mlocate_db::{put_directory, put_end, put_entry, put_header};
use path_order::{Kind, NameList, PathBuf, Stamp, join};

/// Echoes the path of a name: the path and a newline.
fn put_line<P: Sink>(
    echo: &mut P,
    path: &mut PathBuf,
    name: &[u8],
    kind: Kind,
) -> Result<(), Failed>
    requires normal { IsTrue (is_normal path.old) }
    requires fits { IsTrue (fits_in path.old name.now) }
    ensures ok { OnOk result (Appends (P.taken echo.old) (P.taken echo.new) (line path.old (name.now, kind))) }
    ensures err { OnErr result (AppendsPart (P.taken echo.old) (P.taken echo.new) (line path.old (name.now, kind))) }
    ensures path { OnOk result (path.new ≡ path.old) }
    ensures cause { HasCause (P.faults echo.old) (P.faults echo.new) result }
    ensures kept { P.kept echo.old echo.new }
{
    let len = path.bytes().len();
    let _ = join(path, name);
    put_all(echo, path.bytes())?;
    path.cut(len);
    put_all(echo, &[b'\n'])
}

/// Writes an entry, and then its line where paths are echoed.
#[tactic(auto, using(crate::proofs::Texts::name_text))]
fn put_name<D: Sink, P: Sink>(
    sink: &mut D,
    echo: &mut P,
    verbose: bool,
    path: &mut PathBuf,
    name: &[u8],
    kind: Kind,
) -> Result<(), Failed>
    requires normal { IsTrue (is_normal path.old) }
    requires fits { IsTrue (fits_in path.old name.now) }
    ensures ok { OnOk result (Appends (D.taken sink.old) (D.taken sink.new) (entry_text (name.now, kind))) }
    ensures err { OnErr result (AppendsPart (D.taken sink.old) (D.taken sink.new) (entry_text (name.now, kind))) }
    ensures echoed { OnOk result (Appends (P.taken echo.old) (P.taken echo.new) (if verbose then line path.old (name.now, kind) else [])) }
    ensures echo_err { OnErr result (AppendsPart (P.taken echo.old) (P.taken echo.new) (if verbose then line path.old (name.now, kind) else [])) }
    ensures follows { OnErr result (LinesFollow ((entry_text (name.now, kind), if verbose then line path.old (name.now, kind) else []) ∷ []) (taken (D.taken sink.old) (P.taken echo.old)) (taken (D.taken sink.new) (P.taken echo.new))) }
    ensures path { OnOk result (path.new ≡ path.old) }
    ensures quiet { verbose ≡ false → echo.new ≡ echo.old }
    ensures later { D.faults sink.old ≤ D.faults sink.new }
    ensures echo_later { P.faults echo.old ≤ P.faults echo.new }
    ensures failed { OnErr result (Rose (D.faults sink.old) (D.faults sink.new) ⊎ IsTrue verbose × Rose (P.faults echo.old) (P.faults echo.new)) }
    ensures kept { D.kept sink.old sink.new }
    ensures echo_kept { P.kept echo.old echo.new }
{
    put_entry(sink, kind, name)?;
    if !verbose {
        return Ok(());
    }
    put_line(echo, path, name, kind)?;
    Ok(())
}

/// Writes the entries of names, with their lines where paths are echoed.
fn put_entries<D: Sink, P: Sink>(
    sink: &mut D,
    echo: &mut P,
    verbose: bool,
    path: &mut PathBuf,
    names: &NameList,
) -> Result<(), Failed>
    requires normal { IsTrue (is_normal path.old) }
    requires fit { All (λ e. IsTrue (fits_in path.old e.0)) names.now }
    ensures ok { OnOk result (Appends (D.taken sink.old) (D.taken sink.new) (flat_map entry_text names.now)) }
    ensures err { OnErr result (AppendsPart (D.taken sink.old) (D.taken sink.new) (flat_map entry_text names.now)) }
    ensures echoed { OnOk result (Appends (P.taken echo.old) (P.taken echo.new) (lines_of verbose path.old names.now)) }
    ensures echo_err { OnErr result (AppendsPart (P.taken echo.old) (P.taken echo.new) (lines_of verbose path.old names.now)) }
    ensures follows { OnErr result (LinesFollow (map (λ e. (entry_text e, if verbose then line path.old e else [])) names.now) (taken (D.taken sink.old) (P.taken echo.old)) (taken (D.taken sink.new) (P.taken echo.new))) }
    ensures path { OnOk result (path.new ≡ path.old) }
    ensures quiet { verbose ≡ false → echo.new ≡ echo.old }
    ensures later { D.faults sink.old ≤ D.faults sink.new }
    ensures echo_later { P.faults echo.old ≤ P.faults echo.new }
    ensures failed { OnErr result (Rose (D.faults sink.old) (D.faults sink.new) ⊎ IsTrue verbose × Rose (P.faults echo.old) (P.faults echo.new)) }
    ensures kept { D.kept sink.old sink.new }
    ensures echo_kept { P.kept echo.old echo.new }
{
    for at in 0..names.len() {
        put_name(sink, echo, verbose, path, names.name(at), names.kind(at))?;
    }
    Ok(())
}

/// Writes the head of a block.
#[tactic(auto, using(crate::proofs::Texts::normal_text), unfolding(crate::specs::Blocks::head_text))]
fn put_head<D: Sink>(sink: &mut D, stamp: Stamp, device: u32, path: &[u8]) -> Result<(), Failed>
    requires { IsTrue (is_normal path.now) }
    ensures ok { OnOk result (Appends (D.taken sink.old) (D.taken sink.new) (head_text stamp device path.now)) }
    ensures err { OnErr result (AppendsPart (D.taken sink.old) (D.taken sink.new) (head_text stamp device path.now)) }
    ensures cause { HasCause (D.faults sink.old) (D.faults sink.new) result }
    ensures kept { D.kept sink.old sink.new }
{
    put_directory(sink, stamp, device, path)
}

/// Writes a block, with the lines of its names where paths are echoed. After `Failed` a first part of it was taken, and
/// a first part of the lines was echoed.
pub(crate) fn put_block<D: Sink, P: Sink>(
    sink: &mut D,
    echo: &mut P,
    verbose: bool,
    stamp: Stamp,
    device: u32,
    path: &mut PathBuf,
    names: &NameList,
) -> Result<(), Failed>
    requires normal { IsTrue (is_normal path.old) }
    requires fit { All (λ e. IsTrue (fits_in path.old e.0)) names.now }
    ensures ok { OnOk result (Appends (D.taken sink.old) (D.taken sink.new) (block_text stamp device path.old names.now)) }
    ensures err { OnErr result (AppendsPart (D.taken sink.old) (D.taken sink.new) (block_text stamp device path.old names.now)) }
    ensures echoed { OnOk result (Appends (P.taken echo.old) (P.taken echo.new) (lines_of verbose path.old names.now)) }
    ensures echo_err { OnErr result (AppendsPart (P.taken echo.old) (P.taken echo.new) (lines_of verbose path.old names.now)) }
    ensures follows { OnErr result (LinesFollow (block_pieces verbose stamp device path.old names.now) (taken (D.taken sink.old) (P.taken echo.old)) (taken (D.taken sink.new) (P.taken echo.new))) }
    ensures quiet { verbose ≡ false → echo.new ≡ echo.old }
    ensures later { D.faults sink.old ≤ D.faults sink.new }
    ensures echo_later { P.faults echo.old ≤ P.faults echo.new }
    ensures failed { OnErr result (Rose (D.faults sink.old) (D.faults sink.new) ⊎ IsTrue verbose × Rose (P.faults echo.old) (P.faults echo.new)) }
    ensures kept { D.kept sink.old sink.new }
    ensures echo_kept { P.kept echo.old echo.new }
{
    put_head(sink, stamp, device, path.bytes())?;
    put_entries(sink, echo, verbose, path, names)?;
    put_end(sink)?;
    Ok(())
}

/// Writes the header.
#[tactic(auto, using(crate::proofs::Texts::normal_text), unfolding(crate::specs::Blocks::header))]
pub(crate) fn put_front<D: Sink>(sink: &mut D, rules: &Rules, block: &[u8]) -> Result<(), Failed>
    requires root { IsTrue (is_normal rules.now.root) }
    requires version { rules.now.version < 2 }
    requires size { length block.now < 2 ^ 32 }
    requires block { block.now ≡ (plan_of rules.now).block }
    ensures ok { OnOk result (Appends (D.taken sink.old) (D.taken sink.new) (header (plan_of rules.now))) }
    ensures err { OnErr result (AppendsPart (D.taken sink.old) (D.taken sink.new) (header (plan_of rules.now))) }
    ensures cause { HasCause (D.faults sink.old) (D.faults sink.new) result }
    ensures kept { D.kept sink.old sink.new }
{
    put_header(sink, rules.version, rules.flag, rules.root.bytes(), block)
}
