//! Regular expressions.
ghost use Rattle.std.specs.Prelude.{◌≡◌, ◌⊎◌, ◌↔◌, ◌+◌, ◌*◌, ◌≤◌, ℕ, List, Err, length, IfOk, IsOkAnd, IsTrue, MatchResult};
ghost use Rattle.posix_regex.specs.Expression.{Expression, Found, size};
ghost use Rattle.posix_regex.specs.Finds.{finds};
ghost use Rattle.posix_regex.specs.First.{AreFirst, LacksAll};
ghost use Rattle.posix_regex.specs.Pattern.{expression_at};
ghost use Rattle.posix_regex.specs.Literal.{IsLiteral, Occurs, literal_of};
ghost use Rattle.posix_regex.specs.Program.{items_of};
ghost use Rattle.posix_regex.specs.Reader.{no_memory};

use crate::fault::{RegexCause, RegexFault};
use crate::first::{first_bytes, lacks_all};
use crate::fragment::MAX_SIZE;
use crate::literal::literal;
use crate::pattern::read_pattern;
use crate::row::Row;
use crate::search::search;
use crate::state_set::StateSet;
use crate::states::States;
use crate::table::{search_by, table_of};
use byte_class::{ByteSet, Steps};
use memchr::memmem::Finder;
use std::alloc::{AllocError, Global};
use std::marker::Model;
use std::sync::ledger::Ledger;

/// A regular expression over bytes, after POSIX (Base Definitions, "Regular Expressions"), with what a search of a text
/// fills and, where it is small, a table of its sets of states. It has no back-references, collating symbols or
/// equivalence classes, and no escapes of letters or digits.
#[derive(Drop)]
pub struct Regex {
    states: States,
    finder: Option<Finder<'static>>,
    first: Option<ByteSet>,
    table: Option<Vec<Row>>,
    reached: StateSet,
    following: StateSet,
}

impl Model for Regex {
    ghost use Rattle.std.specs.Prelude.{◌≡◌, ◌+◌, IfSome, length};
    ghost use Rattle.posix_regex.specs.First.{AreFirst, bytes_of};
    ghost use Rattle.posix_regex.specs.Literal.{AreNeeded, Compiled, literal_of};
    ghost use Rattle.posix_regex.specs.Table.{IsTable};

    ghost Value = { Compiled };

    ghost view = { λ r. record { items = r.states; literal = literal_of r.finder; first = bytes_of r.first } };

    ghost invariant = { λ r. (r.reached.width ≡ length r.states + 1) × (r.following.width ≡ length r.states + 1)
        × AreNeeded r.states (literal_of r.finder) × AreFirst r.states (bytes_of r.first)
        × IfSome r.table (λ rows. IsTable r.states rows.items) };
}

/// What finds the bytes, if there are any.
fn finder_of(alloc: Global, bytes: &[u8]) -> Result<Option<Finder<'static>>, AllocError>
    ensures { IfOk result (λ finder. literal_of finder ≡ bytes.now) }
{
    if bytes.is_empty() {
        return Ok(None);
    }
    let finder = Finder::new(bytes).into_owned(alloc)?;
    Ok(Some(finder))
}

/// The expression of some states, with empty sets.
fn with_sets(alloc: Global, states: States) -> Result<Regex, AllocError>
    ensures items { IfOk result (λ regex. regex.items ≡ states) }
    ensures literal { IfOk result (λ regex. IsLiteral regex.items regex.literal) }
    ensures first { IfOk result (λ regex. AreFirst regex.items regex.first) }
{
    let width = states.len() + 1;
    let mut reached = StateSet::new(alloc, width)?;
    let mut following = StateSet::new(alloc, width)?;
    let first = first_bytes(&states, &mut reached, &mut following);
    let table = table_of(alloc, &states, &mut reached, &mut following)?;
    let bytes = literal(alloc, &states)?;
    let finder = finder_of(alloc, &bytes)?;
    Ok(Regex {
        states,
        finder,
        first,
        table,
        reached,
        following,
    })
}

impl Regex {
    /// Reads a pattern in extended or in basic syntax. Where `fold`, ASCII letters match in either case.
    /// A fault is the first from left to right; that the expression is too big is found last.
    pub fn read(
        alloc: Global,
        pattern: &[u8],
        extended: bool,
        fold: bool,
    ) -> Result<Regex, RegexFault>
        ensures value { MatchResult result
            (λ regex. IsOkAnd (expression_at extended fold pattern.now) (λ e. regex.items ≡ items_of e))
            (λ fault. (fault ≡ no_memory) ⊎ (expression_at extended fold pattern.now ≡ Err fault)) }
        ensures bound { IfOk result (λ regex. IfOk (expression_at extended fold pattern.now) (λ e. length regex.items ≤ 2 * size e)) }
        ensures literal { IfOk result (λ regex. IsLiteral regex.items regex.literal) }
        ensures first { IfOk result (λ regex. AreFirst regex.items regex.first) }
    {
        let whole = match read_pattern(alloc, pattern, extended, fold) {
            Ok(whole) => whole,
            Err(fault) => return Err(fault),
        };
        if whole.size > MAX_SIZE {
            return Err(RegexFault {
                place: 0,
                cause: RegexCause::TooBig,
            });
        }
        match with_sets(alloc, whole.states) {
            Ok(regex) => Ok(regex),
            Err(_) => Err(RegexFault {
                place: 0,
                cause: RegexCause::OutOfMemory,
            }),
        }
    }

    /// Whether the expression spans some part of the text. It takes no memory, and goes through the text once, with no
    /// step where the literal does not occur, or none of the bytes with which the expression can begin.
    pub fn matches<L: Ledger>(&mut self, text: &[u8], steps: &mut Steps<L>) -> bool
        ensures value { (e : Expression) → self.old.items ≡ items_of e → (IsTrue result ↔ Found e text.now) }
        ensures decided { (e : Expression) → self.old.items ≡ items_of e → result ≡ finds e text.now }
        ensures same { self.new ≡ self.old }
        ensures rising { steps.old ≤ steps.new }
        ensures bound { steps.new ≤ steps.old + (length self.old.items + 1) * (length text.now + 1) }
        ensures without { (Occurs text.now self.old.literal → ⊥) → steps.new ≡ steps.old }
        ensures idle { LacksAll text.now self.old.first → steps.new ≡ steps.old }
    {
        if lacks(&self.finder, text) {
            return false;
        }
        if lacks_all(&self.first, text) {
            return false;
        }
        if let Some(rows) = &self.table {
            return search_by(&self.states, rows, text, steps);
        }
        search(
            &self.states,
            &self.first,
            text,
            &mut self.reached,
            &mut self.following,
            steps,
        )
    }

    /// How many items the expression has.
    pub fn item_count(&self) -> usize
        ensures { result ≡ length self.now.items }
    {
        self.states.len()
    }

    /// Bytes that every text holds in which the expression is found, none where none are known.
    pub fn literal(&self) -> &[u8]
        ensures value { result.now ≡ self.now.literal }
        ensures needed { (e : Expression) → self.now.items ≡ items_of e → (text : List ℕ) → Found e text → Occurs text result.now }
    {
        match &self.finder {
            Some(finder) => finder.needle(),
            None => &[],
        }
    }
}

/// Whether the text lacks the bytes of the finder.
#[inline(always)]
fn lacks(finder: &Option<Finder<'static>>, text: &[u8]) -> bool
    ensures { IsTrue result ↔ (Occurs text.now (literal_of finder.now) → ⊥) }
{
    match finder {
        Some(finder) => finder.find(text).is_none(),
        None => false,
    }
}
