//! Lines that are written without memory.
ghost use Rattle.std.specs.Prelude.{◌≡◌, ◌≤◌, OnOk, OnErr, decimal};
ghost use Rattle.std.specs.List.{flat_map};
ghost use Rattle.std.specs.Io.KnownBytes.{Appends};
ghost use Rattle.loc_outside.specs.Causes.{HasCause};
ghost use Rattle.loc_outside.specs.Outside.{AppendsPart};
ghost use Rattle.locate_tools.specs.Messages.{damage_line, line, line_about, numbered_line, path_line, regex_line, text_of};

use byte_feed::{Damage, DamageCause};
use itoa::Buffer;
use loc_outside::{Failed, Sink, put_all};

/// Writes the pieces one after another. After `Failed` a first part of them was taken.
pub(crate) fn put_pieces<K: Sink>(sink: &mut K, pieces: &[&[u8]]) -> Result<(), Failed>
    ensures ok { OnOk result (Appends (K.taken sink.old) (K.taken sink.new) (flat_map (λ p. p.now) pieces.now)) }
    ensures err { OnErr result (AppendsPart (K.taken sink.old) (K.taken sink.new) (flat_map (λ p. p.now) pieces.now)) }
    ensures cause { HasCause (K.faults sink.old) (K.faults sink.new) result }
    ensures kept { K.kept sink.old sink.new }
{
    for piece in pieces {
        put_all(sink, piece)?;
    }
    Ok(())
}

/// Why an item of a database is not whole.
fn damage_text(cause: DamageCause) -> &'static [u8]
    ensures { result.now ≡ text_of cause }
{
    match cause {
        DamageCause::Cut => b"cut short",
        DamageCause::BadVersion => b"unknown version",
        DamageCause::BadFlag => b"bad visibility flag",
        DamageCause::LongPath => b"path too long",
        DamageCause::EmptyPath => b"empty path",
        DamageCause::BadNanos => b"bad nanoseconds",
        DamageCause::BadKind => b"unknown entry type",
        DamageCause::EmptyName => b"empty name",
        DamageCause::BadCount => b"bad prefix count",
        DamageCause::NoCount => b"prefix count missing",
        DamageCause::EmptyPair => b"unused pair",
        DamageCause::BadWord => b"bad count word",
        DamageCause::ZeroChar => b"zero byte in path",
    }
}

/// Writes a line about the run.
#[tactic(auto, unfolding(crate::specs::Messages::line))]
pub(crate) fn tell<E: Sink>(err: &mut E, tool: &str, text: &[u8]) -> Result<(), Failed>
    ensures ok { OnOk result (Appends (E.taken err.old) (E.taken err.new) (line tool.now text.now)) }
    ensures part { OnErr result (AppendsPart (E.taken err.old) (E.taken err.new) (line tool.now text.now)) }
    ensures cause { HasCause (E.faults err.old) (E.faults err.new) result }
    ensures kept { E.kept err.old err.new }
{
    put_pieces(err, &[tool.as_bytes(), b": ", text, b"\n"])
}

/// Writes a line about a database.
#[tactic(auto, unfolding(crate::specs::Messages::line_about))]
pub(crate) fn tell_about<E: Sink>(
    err: &mut E,
    tool: &str,
    name: &[u8],
    text: &[u8],
) -> Result<(), Failed>
    ensures ok { OnOk result (Appends (E.taken err.old) (E.taken err.new) (line_about tool.now name.now text.now)) }
    ensures part { OnErr result (AppendsPart (E.taken err.old) (E.taken err.new) (line_about tool.now name.now text.now)) }
    ensures cause { HasCause (E.faults err.old) (E.faults err.new) result }
    ensures kept { E.kept err.old err.new }
{
    put_pieces(err, &[tool.as_bytes(), b": ", name, b": ", text, b"\n"])
}

/// Writes a line about damage.
pub(crate) fn tell_damage<E: Sink>(
    err: &mut E,
    tool: &str,
    name: &[u8],
    damage: Damage,
) -> Result<(), Failed>
    ensures ok { OnOk result (Appends (E.taken err.old) (E.taken err.new) (damage_line tool.now name.now (decimal damage.place) (text_of damage.cause))) }
    ensures part { OnErr result (AppendsPart (E.taken err.old) (E.taken err.new) (damage_line tool.now name.now (decimal damage.place) (text_of damage.cause))) }
    ensures cause { HasCause (E.faults err.old) (E.faults err.new) result }
    ensures kept { E.kept err.old err.new }
{
    let mut digits = Buffer::new();
    let place = digits.format(damage.place).as_bytes();
    tell_damaged(err, tool, name, place, damage_text(damage.cause))
}

/// Writes a line about damage at a place that is given by its digits.
#[tactic(auto, unfolding(crate::specs::Messages::damage_line))]
fn tell_damaged<E: Sink>(
    err: &mut E,
    tool: &str,
    name: &[u8],
    place: &[u8],
    text: &[u8],
) -> Result<(), Failed>
    ensures ok { OnOk result (Appends (E.taken err.old) (E.taken err.new) (damage_line tool.now name.now place.now text.now)) }
    ensures part { OnErr result (AppendsPart (E.taken err.old) (E.taken err.new) (damage_line tool.now name.now place.now text.now)) }
    ensures cause { HasCause (E.faults err.old) (E.faults err.new) result }
    ensures kept { E.kept err.old err.new }
{
    put_pieces(
        err,
        &[
            tool.as_bytes(),
            b": ",
            name,
            b": damaged at byte ",
            place,
            b": ",
            text,
            b"\n",
        ],
    )
}

/// Writes a line about a line of a file.
pub(crate) fn tell_numbered<E: Sink>(
    err: &mut E,
    tool: &str,
    name: &[u8],
    number: u64,
    text: &[u8],
) -> Result<(), Failed>
    ensures ok { OnOk result (Appends (E.taken err.old) (E.taken err.new) (numbered_line tool.now name.now (decimal number) text.now)) }
    ensures part { OnErr result (AppendsPart (E.taken err.old) (E.taken err.new) (numbered_line tool.now name.now (decimal number) text.now)) }
    ensures cause { HasCause (E.faults err.old) (E.faults err.new) result }
    ensures kept { E.kept err.old err.new }
{
    let mut digits = Buffer::new();
    let number = digits.format(number).as_bytes();
    tell_with_digits(err, tool, name, number, text)
}

/// Writes a line about a line of a file that is given by its digits.
#[tactic(auto, unfolding(crate::specs::Messages::numbered_line))]
fn tell_with_digits<E: Sink>(
    err: &mut E,
    tool: &str,
    name: &[u8],
    number: &[u8],
    text: &[u8],
) -> Result<(), Failed>
    ensures ok { OnOk result (Appends (E.taken err.old) (E.taken err.new) (numbered_line tool.now name.now number.now text.now)) }
    ensures part { OnErr result (AppendsPart (E.taken err.old) (E.taken err.new) (numbered_line tool.now name.now number.now text.now)) }
    ensures cause { HasCause (E.faults err.old) (E.faults err.new) result }
    ensures kept { E.kept err.old err.new }
{
    put_pieces(
        err,
        &[
            tool.as_bytes(),
            b": ",
            name,
            b":",
            number,
            b": ",
            text,
            b"\n",
        ],
    )
}

/// Writes a line about a byte of a regular expression.
pub(crate) fn tell_regex<E: Sink>(
    err: &mut E,
    tool: &str,
    text: &[u8],
    place: u64,
) -> Result<(), Failed>
    ensures ok { OnOk result (Appends (E.taken err.old) (E.taken err.new) (regex_line tool.now text.now (decimal place))) }
    ensures part { OnErr result (AppendsPart (E.taken err.old) (E.taken err.new) (regex_line tool.now text.now (decimal place))) }
    ensures cause { HasCause (E.faults err.old) (E.faults err.new) result }
    ensures kept { E.kept err.old err.new }
{
    let mut digits = Buffer::new();
    let place = digits.format(place).as_bytes();
    tell_at_byte(err, tool, text, place)
}

/// Writes a line about a byte of a regular expression whose place is given by its digits.
#[tactic(auto, unfolding(crate::specs::Messages::regex_line))]
fn tell_at_byte<E: Sink>(err: &mut E, tool: &str, text: &[u8], place: &[u8]) -> Result<(), Failed>
    ensures ok { OnOk result (Appends (E.taken err.old) (E.taken err.new) (regex_line tool.now text.now place.now)) }
    ensures part { OnErr result (AppendsPart (E.taken err.old) (E.taken err.new) (regex_line tool.now text.now place.now)) }
    ensures cause { HasCause (E.faults err.old) (E.faults err.new) result }
    ensures kept { E.kept err.old err.new }
{
    put_pieces(
        err,
        &[
            tool.as_bytes(),
            b": bad regular expression: ",
            text,
            b" at byte ",
            place,
            b"\n",
        ],
    )
}

/// Writes a line about the path of this number.
pub(crate) fn tell_path<E: Sink>(
    err: &mut E,
    tool: &str,
    number: u64,
    text: &[u8],
) -> Result<(), Failed>
    ensures ok { OnOk result (Appends (E.taken err.old) (E.taken err.new) (path_line tool.now (decimal number) text.now)) }
    ensures part { OnErr result (AppendsPart (E.taken err.old) (E.taken err.new) (path_line tool.now (decimal number) text.now)) }
    ensures cause { HasCause (E.faults err.old) (E.faults err.new) result }
    ensures kept { E.kept err.old err.new }
{
    let mut digits = Buffer::new();
    let number = digits.format(number).as_bytes();
    tell_numbered_path(err, tool, number, text)
}

/// Writes a line about a path whose number is given by its digits.
#[tactic(auto, unfolding(crate::specs::Messages::path_line))]
fn tell_numbered_path<E: Sink>(
    err: &mut E,
    tool: &str,
    number: &[u8],
    text: &[u8],
) -> Result<(), Failed>
    ensures ok { OnOk result (Appends (E.taken err.old) (E.taken err.new) (path_line tool.now number.now text.now)) }
    ensures part { OnErr result (AppendsPart (E.taken err.old) (E.taken err.new) (path_line tool.now number.now text.now)) }
    ensures cause { HasCause (E.faults err.old) (E.faults err.new) result }
    ensures kept { E.kept err.old err.new }
{
    put_pieces(
        err,
        &[tool.as_bytes(), b": path ", number, b": ", text, b"\n"],
    )
}
