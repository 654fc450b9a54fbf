//! The configuration block of an mlocate database.
ghost use Rattle.std.specs.Prelude.{◌≡◌, ◌+◌, ◌≤◌, ◌++◌, ◌∷◌, [], length, decimal, IfOk, OnOk};
ghost use Rattle.updatedb_conf.specs.Block.{block, flag_text, margin_variable, variable, zero_ended};
ghost use Rattle.updatedb_conf.specs.Settings.{settings_room};
ghost use Rattle.updatedb_conf.specs.Words.{members};

use crate::conf::Conf;
use crate::word_set::WordSet;
use byte_feed::Bytes;
use std::alloc::{AllocError, Global};

/// Writes a text and its zero byte.
fn put_ended(into: &mut Vec<u8>, text: &[u8]) -> Result<(), AllocError>
    ensures { OnOk result (into.new.items ≡ into.old.items ++ zero_ended text.now) }
{
    into.extend_from_slice(text)?;
    into.push(0)?;
    Ok(())
}

/// Writes a variable that has one value.
fn put_value(into: &mut Vec<u8>, name: &[u8], value: &[u8]) -> Result<(), AllocError>
    ensures { OnOk result (into.new.items ≡ into.old.items ++ variable name.now (value.now ∷ [])) }
{
    put_ended(into, name)?;
    put_ended(into, value)?;
    into.push(0)?;
    Ok(())
}

/// Writes a variable whose values are the words of a set.
fn put_set(into: &mut Vec<u8>, name: &[u8], set: &WordSet) -> Result<(), AllocError>
    ensures { OnOk result (into.new.items ≡ into.old.items ++ variable name.now (members set.now)) }
{
    put_ended(into, name)?;
    set.put_words(into)?;
    into.push(0)?;
    Ok(())
}

/// Writes the margin, where it is not 3.
fn put_margin(alloc: Global, into: &mut Vec<u8>, margin: u16) -> Result<(), AllocError>
    ensures { OnOk result (into.new.items ≡ into.old.items ++ margin_variable margin) }
{
    if margin == 3 {
        return Ok(());
    }
    let digits = format!(in alloc; "{margin}")?;
    put_value(into, b"recent_margin", digits.as_bytes())
}

/// The digit of a flag.
fn flag_digit(flag: bool) -> &'static [u8]
    ensures { result.now ≡ flag_text flag }
{
    if flag { b"1" } else { b"0" }
}

/// The configuration block that stands in the header of an mlocate database, by mlocate.db(5): the variables
/// `prune_bind_mounts`, `prunefs`, `prunenames` and `prunepaths`, and this project's own `recent_margin` exactly where the
/// margin is not 3.
/// Words stand in byte order, each once.
pub fn conf_block(alloc: Global, conf: &Conf) -> Result<Bytes, AllocError>
    ensures ok { IfOk result (λ bytes. bytes ≡ block conf.now) }
    ensures len { IfOk result (λ bytes. length bytes ≤ 75 + settings_room conf.now) }
{
    let mut bytes = Vec::new(alloc);
    put_value(&mut bytes, b"prune_bind_mounts", flag_digit(conf.bind()))?;
    put_set(&mut bytes, b"prunefs", conf.fs())?;
    put_set(&mut bytes, b"prunenames", conf.names())?;
    put_set(&mut bytes, b"prunepaths", conf.paths())?;
    put_margin(alloc, &mut bytes, conf.margin())?;
    Ok(Bytes::from_vec(bytes))
}
