//! A database of mlocate is written.
ghost use Rattle.std.specs.Prelude.{◌≡◌, ◌≤◌, ◌<◌, length, slice_index_or, None, OnOk, OnErr, IfOk, All};
ghost use Rattle.std.specs.Io.KnownBytes.{Appends};
ghost use Rattle.loc_outside.specs.Causes.{HasCause};
ghost use Rattle.loc_outside.specs.Outside.{AppendsShort};
ghost use Rattle.byte_feed.specs.Field.{IsText, max_path};
ghost use Rattle.byte_feed.specs.Front.{spelling};
ghost use Rattle.byte_feed.specs.Paths.{IsPath};
ghost use Rattle.mlocate_db.specs.Items.{mlocate, spell};
ghost use Rattle.updatedb_conf.specs.Block.{block};
ghost use Rattle.updatedb_conf.specs.Settings.{default_settings};
ghost use Rattle.path_order.specs.Path.{parent_of};
ghost use Rattle.db_convert.specs.declared.format.Format.TheVariants.{Mlocate};
ghost use Rattle.db_convert.specs.Admission.{first_refused};
ghost use Rattle.db_convert.specs.Blocks.{encode_mlocate, entries_of, header_item};
ghost use Rattle.db_convert.specs.Orders.{IsOrder, entry_at};
ghost use Rattle.db_convert.specs.Turns.{closing, head_item, items_from, open_at, opening, turn};
ghost use Rattle.db_convert.specs.Plans.{IsPlan};

use crate::entry::{parent, split};
use crate::order::order_of;
use crate::paths::Paths;
use crate::seek::{kind_at, seek};
use byte_feed::Bytes;
use loc_outside::{Failed, Sink};
use mlocate_db::{put_directory, put_end, put_entry, put_header};
use path_order::Stamp;
use std::alloc::{AllocError, Global};
use updatedb_conf::{Conf, conf_block};

/// What a database of mlocate takes in memory besides the paths: the places of the paths in order, and the block of the
/// default configuration.
#[derive(Drop)]
pub(crate) struct Plan {
    pub(crate) places: Vec<usize>,
    pub(crate) block: Bytes,
}

/// Plans the database of these paths.
pub(crate) fn plan_of(alloc: Global, paths: &Paths) -> Result<Plan, AllocError>
    ensures { IfOk result (λ plan. IsPlan paths.now plan) }
{
    let places = order_of(alloc, paths)?;
    let block = conf_block(alloc, &Conf::defaults(alloc))?;
    Ok(Plan { places, block })
}

/// Writes the header.
fn put_front<K: Sink>(sink: &mut K, conf: &[u8]) -> Result<(), Failed>
    requires { conf.now ≡ block default_settings }
    ensures ok { OnOk result (Appends (K.taken sink.old) (K.taken sink.new) (spell header_item)) }
    ensures err { OnErr result (AppendsShort (K.taken sink.old) (K.taken sink.new) (spell header_item)) }
    ensures cause { HasCause (K.faults sink.old) (K.faults sink.new) result }
    ensures kept { K.kept sink.old sink.new }
{
    put_header(sink, 0, false, b"/", conf)
}

/// Writes the head of a directory.
fn put_head<K: Sink>(sink: &mut K, dir: &[u8]) -> Result<(), Failed>
    requires { IsText max_path dir.now }
    ensures ok { OnOk result (Appends (K.taken sink.old) (K.taken sink.new) (spell (head_item dir.now))) }
    ensures err { OnErr result (AppendsShort (K.taken sink.old) (K.taken sink.new) (spell (head_item dir.now))) }
    ensures cause { HasCause (K.faults sink.old) (K.faults sink.new) result }
    ensures kept { K.kept sink.old sink.new }
{
    put_directory(sink, Stamp::zero(), 0, dir)
}

/// Writes what stands before the path at this place of the order, which is in this directory.
fn put_opening<K: Sink>(
    sink: &mut K,
    paths: &Paths,
    places: &[usize],
    at: usize,
    dir: &[u8],
) -> Result<(), Failed>
    requires there { at ≤ length places.now }
    requires text { IsText max_path dir.now }
    ensures ok { OnOk result (Appends (K.taken sink.old) (K.taken sink.new) (spelling mlocate (opening (open_at paths.now places.now at) dir.now))) }
    ensures err { OnErr result (AppendsShort (K.taken sink.old) (K.taken sink.new) (spelling mlocate (opening (open_at paths.now places.now at) dir.now))) }
    ensures cause { HasCause (K.faults sink.old) (K.faults sink.new) result }
    ensures kept { K.kept sink.old sink.new }
{
    if at == 0 {
        return put_head(sink, dir);
    }
    if parent(paths.get(places[at - 1])) == dir {
        return Ok(());
    }
    put_end(sink)?;
    put_head(sink, dir)
}

/// Writes the path at this place of the order, and what stands before it. Answers where its own entries would stand.
fn put_turn<K: Sink>(
    sink: &mut K,
    paths: &Paths,
    places: &[usize],
    at: usize,
    near: usize,
) -> Result<usize, Failed>
    requires order { IsOrder paths.now places.now }
    requires readable { All IsPath paths.now }
    requires admitted { first_refused Mlocate paths.now ≡ None }
    requires there { at < length places.now }
    ensures ok { OnOk result (Appends (K.taken sink.old) (K.taken sink.new) (spelling mlocate (turn paths.now (open_at paths.now places.now at) (entry_at paths.now (slice_index_or places.now at 0))))) }
    ensures err { OnErr result (AppendsShort (K.taken sink.old) (K.taken sink.new) (spelling mlocate (turn paths.now (open_at paths.now places.now at) (entry_at paths.now (slice_index_or places.now at 0))))) }
    ensures cause { HasCause (K.faults sink.old) (K.faults sink.new) result }
    ensures kept { K.kept sink.old sink.new }
{
    let path = paths.get(places[at]);
    let (dir, name) = split(path);
    put_opening(sink, paths, places, at, dir)?;
    let place = seek(paths, places, path, near);
    put_entry(sink, kind_at(paths, places, path, place), name)?;
    Ok(place)
}

/// Writes the end of the last directory, if there is one.
fn put_closing<K: Sink>(sink: &mut K, paths: &Paths, places: &[usize]) -> Result<(), Failed>
    ensures ok { OnOk result (Appends (K.taken sink.old) (K.taken sink.new) (spelling mlocate (closing (open_at paths.now places.now (length places.now))))) }
    ensures err { OnErr result (AppendsShort (K.taken sink.old) (K.taken sink.new) (spelling mlocate (closing (open_at paths.now places.now (length places.now))))) }
    ensures cause { HasCause (K.faults sink.old) (K.faults sink.new) result }
    ensures kept { K.kept sink.old sink.new }
{
    if places.is_empty() {
        return Ok(());
    }
    put_end(sink)
}

/// Writes the blocks of all directories.
fn put_blocks<K: Sink>(sink: &mut K, paths: &Paths, places: &[usize]) -> Result<(), Failed>
    requires order { IsOrder paths.now places.now }
    requires readable { All IsPath paths.now }
    requires admitted { first_refused Mlocate paths.now ≡ None }
    ensures ok { OnOk result (Appends (K.taken sink.old) (K.taken sink.new) (spelling mlocate (items_from paths.now None (entries_of paths.now)))) }
    ensures err { OnErr result (AppendsShort (K.taken sink.old) (K.taken sink.new) (spelling mlocate (items_from paths.now None (entries_of paths.now)))) }
    ensures cause { HasCause (K.faults sink.old) (K.faults sink.new) result }
    ensures kept { K.kept sink.old sink.new }
{
    let mut near = 0;
    'turns: for at in 0..places.len() {
        near = put_turn(sink, paths, places, at, near)?;
    }
    put_closing(sink, paths, places)
}

/// Writes a database of mlocate of these paths. After `Failed` a first part of it was taken, and not all.
pub(crate) fn put_mlocate<K: Sink>(sink: &mut K, plan: &Plan, paths: &Paths) -> Result<(), Failed>
    requires plan { IsPlan paths.now plan.now }
    requires readable { All IsPath paths.now }
    requires admitted { first_refused Mlocate paths.now ≡ None }
    ensures ok { OnOk result (Appends (K.taken sink.old) (K.taken sink.new) (encode_mlocate paths.now)) }
    ensures err { OnErr result (AppendsShort (K.taken sink.old) (K.taken sink.new) (encode_mlocate paths.now)) }
    ensures cause { HasCause (K.faults sink.old) (K.faults sink.new) result }
    ensures kept { K.kept sink.old sink.new }
{
    put_front(sink, plan.block.as_slice())?;
    put_blocks(sink, paths, &plan.places)
}
