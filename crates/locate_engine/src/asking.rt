//! What becomes of a wanted path: whether the gate lets it pass, and its line.
ghost use Rattle.std.specs.Prelude.{◌≡◌, ◌+◌, ◌<◌, ◌≤◌, ◌^◌, ◌||◌, ◌∷◌, ◌++◌, ℕ, Bool, List, [], Some, true, length, OnOk, OnErr, IfSome, IsTrue};
ghost use Rattle.std.specs.Io.KnownBytes.{Appends};
ghost use Rattle.loc_outside.specs.Causes.{HasCause, Rose};
ghost use Rattle.loc_outside.specs.Gates.{Tests};
ghost use Rattle.loc_outside.specs.Outside.{AppendsShort};
ghost use Rattle.locate_engine.specs.Passing.{rule_of, is_guarded, line_by};
ghost use Rattle.locate_engine.specs.Searched.{stand};
ghost use Rattle.locate_engine.specs.Asked.{is_last, Tells, Remembers, AsksBlock, Asks, Takes};

use crate::paths::Tally;
use crate::query::Query;
use byte_feed::PathStream;
use loc_outside::{Failed, Gate, Sink, put_all};

/// The block for whose directory the gate was asked last, by the number that the stream gives it, and whether that
/// directory is shown.
#[derive(Clone, Copy)]
pub(crate) struct Block {
    pub number: Option<u64>,
    pub shown: bool,
}

/// What became of a wanted path.
#[derive(Clone, Copy, PartialEq, Eq)]
pub(crate) enum Step {
    /// The search goes on.
    On,
    /// The path was counted, as the last one.
    LimitReached,
    /// The gate failed.
    GateFault,
    /// The path's line could not be written.
    WriteFault,
}

fn is_last(block: &Block, number: u64) -> bool
    ensures { result ≡ is_last block.now.number number }
{
    match block.number {
        Some(last) => number == last,
        None => false,
    }
}

/// Whether the path may be shown only where its directory may be.
#[inline(always)]
fn is_guarded<P: PathStream>(stream: &P) -> bool
    ensures { result ≡ is_guarded (P.is_gated stream.now) (P.found stream.now) }
{
    stream.asks_gate() && stream.dir_len() != 0
}

/// Whether the directory of the path's block may be shown. The gate is asked unless it was asked for this block last.
fn shows_block<P: PathStream, G: Gate>(
    stream: &P,
    gate: &mut G,
    block: &mut Block,
) -> Result<bool, Failed>
    requires dir { (P.found stream.now).dir_len ≤ length (P.found stream.now).text }
    requires heads { (P.found stream.now).heads ≡ P.heads_read stream.now }
    ensures asks { (told : Tests) → Tells (P.is_gated stream.now) (G.tests gate.old) told → Remembers (P.is_gated stream.now) told block.old (P.found stream.now) →
        AsksBlock (P.is_gated stream.now) told block.old block.new (P.found stream.now) (G.asks gate.old) (G.asks gate.new) result }
    ensures cause { HasCause (G.faults gate.old) (G.faults gate.new) result }
    ensures asks_rise { G.asks gate.old ≤ G.asks gate.new }
    ensures kept { G.kept gate.old gate.new }
{
    if !is_guarded(stream) {
        return Ok(true);
    }
    let number = stream.heads();
    if is_last(block, number) {
        return Ok(block.shown);
    }
    let shown = gate.shows(&stream.path()[..stream.dir_len()])?;
    *block = Block {
        number: Some(number),
        shown,
    };
    Ok(shown)
}

/// Whether the path may be shown and is there, where one of them is asked.
fn ask_gate<P: PathStream, G: Gate>(
    stream: &P,
    query: &Query,
    gate: &mut G,
    block: &mut Block,
) -> Result<bool, Failed>
    requires dir { (P.found stream.now).dir_len ≤ length (P.found stream.now).text }
    requires heads { (P.found stream.now).heads ≡ P.heads_read stream.now }
    ensures asks { (told : Tests) → Tells (P.is_gated stream.now || query.now.existing) (G.tests gate.old) told → Remembers (P.is_gated stream.now) told block.old (P.found stream.now) →
        Asks (rule_of (λ path. true) query.now (P.is_gated stream.now) told) block.old block.new (P.found stream.now) (G.asks gate.old) (G.asks gate.new) result }
    ensures cause { HasCause (G.faults gate.old) (G.faults gate.new) result }
    ensures asks_rise { G.asks gate.old ≤ G.asks gate.new }
    ensures kept { G.kept gate.old gate.new }
{
    let shown = shows_block(stream, gate, block)?;
    if !shown {
        return Ok(false);
    }
    if !query.existing {
        return Ok(true);
    }
    gate.exists(stream.path(), query.follow)
}

/// Whether the path may be shown and is there.
#[inline(always)]
fn passes_gate<P: PathStream, G: Gate>(
    stream: &P,
    query: &Query,
    gate: &mut G,
    block: &mut Block,
) -> Result<bool, Failed>
    requires dir { (P.found stream.now).dir_len ≤ length (P.found stream.now).text }
    requires heads { (P.found stream.now).heads ≡ P.heads_read stream.now }
    ensures asks { (told : Tests) → Tells (P.is_gated stream.now || query.now.existing) (G.tests gate.old) told → Remembers (P.is_gated stream.now) told block.old (P.found stream.now) →
        Asks (rule_of (λ path. true) query.now (P.is_gated stream.now) told) block.old block.new (P.found stream.now) (G.asks gate.old) (G.asks gate.new) result }
    ensures cause { HasCause (G.faults gate.old) (G.faults gate.new) result }
    ensures asks_rise { G.asks gate.old ≤ G.asks gate.new }
    ensures kept { G.kept gate.old gate.new }
{
    if !stream.asks_gate() && !query.existing {
        return Ok(true);
    }
    ask_gate(stream, query, gate, block)
}

/// Writes the path and the separator, unless paths are only counted.
#[inline(always)]
fn put_line<K: Sink>(sink: &mut K, path: &[u8], query: &Query) -> Result<(), Failed>
    ensures ok { OnOk result (Appends (K.taken sink.old) (K.taken sink.new) (line_by query.now.count_only query.now.separator path.now)) }
    ensures err { OnErr result (AppendsShort (K.taken sink.old) (K.taken sink.new) (line_by query.now.count_only query.now.separator path.now)) }
    ensures only_counted { IsTrue query.now.count_only → sink.new ≡ sink.old }
    ensures cause { HasCause (K.faults sink.old) (K.faults sink.new) result }
    ensures kept { K.kept sink.old sink.new }
{
    if query.count_only {
        return Ok(());
    }
    put_all(sink, path)?;
    put_all(sink, &[query.separator])
}

/// Prints and counts the path in hand where the gate lets it pass.
#[inline(always)]
pub(crate) fn take_path<P: PathStream, G: Gate, K: Sink>(
    stream: &P,
    query: &Query,
    gate: &mut G,
    block: &mut Block,
    out: &mut K,
    tally: &mut Tally,
) -> Step
    requires dir { (P.found stream.now).dir_len ≤ length (P.found stream.now).text }
    requires heads { (P.found stream.now).heads ≡ P.heads_read stream.now }
    requires room { tally.old.matched < 2 ^ 63 }
    requires below { IfSome query.now.limit (λ limit. tally.old.matched < limit) }
    ensures takes { (wanted : List ℕ → Bool) (told : Tests) → Tells (P.is_gated stream.now || query.now.existing) (G.tests gate.old) told → Remembers (P.is_gated stream.now) told block.old (P.found stream.now) →
        Takes (rule_of wanted query.now (P.is_gated stream.now) told) block.old block.new (P.found stream.now) (stand (K.taken out.old) tally.old.matched (G.asks gate.old)) (stand (K.taken out.new) tally.new.matched (G.asks gate.new)) result }
    ensures limit { result ≡ Step.LimitReached → query.now.limit ≡ Some tally.new.matched }
    ensures below { (result ≡ Step.LimitReached → ⊥) → IfSome query.now.limit (λ limit. tally.new.matched < limit) }
    ensures rises { tally.old.matched ≤ tally.new.matched }
    ensures within { tally.new.matched ≤ tally.old.matched + 1 }
    ensures only_counted { IsTrue query.now.count_only → out.new ≡ out.old }
    ensures gate_fault { result ≡ Step.GateFault → Rose (G.faults gate.old) (G.faults gate.new) }
    ensures write_fault { result ≡ Step.WriteFault → Rose (K.faults out.old) (K.faults out.new) }
    ensures gate_later { G.faults gate.old ≤ G.faults gate.new }
    ensures out_later { K.faults out.old ≤ K.faults out.new }
    ensures asks_rise { G.asks gate.old ≤ G.asks gate.new }
    ensures gate_kept { G.kept gate.old gate.new }
    ensures out_kept { K.kept out.old out.new }
{
    match passes_gate(stream, query, gate, block) {
        Ok(true) => {}
        Ok(false) => return Step::On,
        Err(_) => return Step::GateFault,
    }
    let Ok(()) = put_line(out, stream.path(), query) else {
        return Step::WriteFault;
    };
    tally.matched += 1;
    if query.limit == Some(tally.matched) {
        return Step::LimitReached;
    }
    Step::On
}
