//! What `locate` writes besides paths: a number of paths, and the statistics of a database.
ghost use Rattle.std.specs.Prelude.{◌≡◌, ◌≤◌, ◌∷◌, [], ◌++◌, OnOk, OnErr, decimal};
ghost use Rattle.std.specs.Io.KnownBytes.{Appends};
ghost use Rattle.loc_outside.specs.Causes.{HasCause};
ghost use Rattle.loc_outside.specs.Outside.{AppendsPart};
ghost use Rattle.locate_tools.specs.Messages.{counts_text, statistics_text};

use crate::lines::put_pieces;
use itoa::Buffer;
use loc_outside::{Failed, Sink, put_all};
use locate_engine::Stats;

/// Writes the statistics of a database, whose counts are given by their digits.
#[tactic(auto, unfolding(crate::specs::Messages::counts_text))]
fn put_counts<P: Sink>(
    out: &mut P,
    name: &str,
    directories: &[u8],
    files: &[u8],
    name_bytes: &[u8],
    stored: &[u8],
) -> Result<(), Failed>
    ensures ok { OnOk result (Appends (P.taken out.old) (P.taken out.new) (counts_text name.now directories.now files.now name_bytes.now stored.now)) }
    ensures part { OnErr result (AppendsPart (P.taken out.old) (P.taken out.new) (counts_text name.now directories.now files.now name_bytes.now stored.now)) }
    ensures cause { HasCause (P.faults out.old) (P.faults out.new) result }
    ensures kept { P.kept out.old out.new }
{
    put_pieces(
        out,
        &[
            b"Database ",
            name.as_bytes(),
            b":\n\t",
            directories,
            b" directories\n\t",
            files,
            b" files\n\t",
            name_bytes,
            b" bytes in file names\n\t",
            stored,
            b" bytes used to store database\n",
        ],
    )
}

/// Writes the statistics of the database of this name. After `Failed` a first part of the text was taken.
pub fn put_statistics<P: Sink>(out: &mut P, name: &str, stats: &Stats) -> Result<(), Failed>
    ensures ok { OnOk result (Appends (P.taken out.old) (P.taken out.new) (statistics_text name.now stats.now)) }
    ensures part { OnErr result (AppendsPart (P.taken out.old) (P.taken out.new) (statistics_text name.now stats.now)) }
    ensures cause { HasCause (P.faults out.old) (P.faults out.new) result }
    ensures kept { P.kept out.old out.new }
{
    let mut directories = Buffer::new();
    let mut files = Buffer::new();
    let mut name_bytes = Buffer::new();
    let mut stored = Buffer::new();
    put_counts(
        out,
        name,
        directories.format(stats.directories).as_bytes(),
        files.format(stats.files).as_bytes(),
        name_bytes.format(stats.name_bytes).as_bytes(),
        stored.format(stats.stored).as_bytes(),
    )
}

/// Writes a number and a newline. After `Failed` a first part of it was taken.
pub fn put_number<P: Sink>(out: &mut P, number: u64) -> Result<(), Failed>
    ensures ok { OnOk result (Appends (P.taken out.old) (P.taken out.new) (decimal number ++ 10 ∷ [])) }
    ensures part { OnErr result (AppendsPart (P.taken out.old) (P.taken out.new) (decimal number ++ 10 ∷ [])) }
    ensures cause { HasCause (P.faults out.old) (P.faults out.new) result }
    ensures kept { P.kept out.old out.new }
{
    let mut digits = Buffer::new();
    put_line(out, digits.format(number).as_bytes())
}

fn put_line<P: Sink>(out: &mut P, text: &[u8]) -> Result<(), Failed>
    ensures ok { OnOk result (Appends (P.taken out.old) (P.taken out.new) (text.now ++ 10 ∷ [])) }
    ensures part { OnErr result (AppendsPart (P.taken out.old) (P.taken out.new) (text.now ++ 10 ∷ [])) }
    ensures cause { HasCause (P.faults out.old) (P.faults out.new) result }
    ensures kept { P.kept out.old out.new }
{
    put_all(out, text)?;
    put_all(out, b"\n")
}
