//! Patterns of the shell.
ghost use Rattle.std.specs.Prelude.{◌≡◌, ℕ, ◌+◌, ◌*◌, ◌≤◌, ◌↔◌, List, length, take, drop, IsTrue, IsSome, IfOk};
ghost use Rattle.std.specs.Option.{option_copied};
ghost use Rattle.glob_match.specs.Pattern.{wanted, items_of, plain_of, InGlob};
ghost use Rattle.glob_match.specs.Spot.{Known};

use crate::items::Items;
use crate::matching::matches_items;
use crate::needle::Needle;
use crate::reading::{is_plain, read_items, read_plain};
use crate::spot::Spot;
use byte_class::Steps;
use memchr::memmem::Finder;
use std::alloc::{AllocError, Global};
use std::marker::Model;
use std::sync::ledger::Ledger;

/// A pattern of the shell, as the pathname patterns of POSIX (Shell Command Language, "Pattern
/// Matching Notation", in the POSIX locale), but that it matches any bytes, `/` and a first `.` too,
/// that `[.` and `[=` mean nothing in a bracket, and that one without any of `*`, `?`, `[`, `\` and
/// `]` asks only that its bytes occur. Of what POSIX leaves open: `^` complements as `!` does, a `\`
/// at the end stands for itself, an unknown class has no byte, a range that falls is empty, and a `-`
/// before a class is a member.
#[derive(Drop)]
pub struct Glob {
    items: Items,
    finder: Option<Finder<'static>>,
    needle: Option<Needle>,
}

impl Model for Glob {
    ghost use Rattle.std.specs.Prelude.{◌≡◌, [], IfSome};
    ghost use Rattle.glob_match.specs.Pattern.{Wanted, wanted_of};
    ghost use Rattle.glob_match.specs.Needle.{plain_wanted};

    ghost Value = { Wanted };

    ghost view = { λ g. wanted_of g.finder g.items };

    ghost invariant = { λ g.
        IfSome g.finder (λ _. g.items ≡ [])
        × IfSome g.needle (λ n. plain_wanted n.0 n.1 ≡ wanted_of g.finder g.items) };
}

impl Glob {
    /// Reads a pattern, of any bytes. Where `fold`, ASCII letters match in either case. It fails only
    /// when out of memory.
    #[tactic(auto, unfolding(crate::specs::Pattern::wanted))]
    pub fn read(alloc: Global, pattern: &[u8], fold: bool) -> Result<Glob, AllocError>
        ensures { IfOk result (λ glob. glob ≡ wanted pattern.now fold) }
    {
        if !is_plain(pattern) {
            let items = read_items(alloc, pattern, fold)?;
            return Ok(Glob {
                items,
                finder: None,
                needle: None,
            });
        }
        let needle = Needle::new(alloc, pattern, fold)?;
        if fold {
            let items = read_plain(alloc, pattern)?;
            return Ok(Glob {
                items,
                finder: None,
                needle: Some(needle),
            });
        }
        let finder = Finder::new(pattern).into_owned(alloc)?;
        Ok(Glob {
            items: Items::new(alloc),
            finder: Some(finder),
            needle: Some(needle),
        })
    }

    /// Whether the whole text matches or, where the pattern is plain and case is not folded, whether
    /// the pattern occurs in it. It takes no memory.
    pub fn matches<L: Ledger>(&self, text: &[u8], steps: &mut Steps<L>) -> bool
        ensures value { IsTrue result ↔ InGlob self.now text.now }
        ensures rising { steps.old ≤ steps.new }
        ensures bound { steps.new ≤ steps.old + 2 * (length (items_of self.now) + 1) * (length text.now + 1) }
        ensures plain { IsSome (plain_of self.now) → steps.new ≡ steps.old }
    {
        match &self.finder {
            Some(finder) => finder.find(text).is_some(),
            None => match &self.needle {
                Some(needle) => needle.occurs_in(text),
                None => matches_items(&self.items, text, steps),
            },
        }
    }

    /// Whether what the text has from a place on matches, as `matches` tells. Of a plain pattern the whole text is looked at
    /// where that is faster. It takes no memory.
    #[inline(always)]
    pub fn matches_from<L: Ledger>(&self, text: &[u8], from: usize, steps: &mut Steps<L>) -> bool
        requires { from ≤ length text.now }
        ensures value { IsTrue result ↔ InGlob self.now (drop from text.now) }
        ensures rising { steps.old ≤ steps.new }
        ensures bound { steps.new ≤ steps.old + 2 * (length (items_of self.now) + 1) * (length (drop from text.now) + 1) }
        ensures plain { IsSome (plain_of self.now) → steps.new ≡ steps.old }
    {
        match &self.needle {
            Some(needle) => needle.occurs_from(text, from),
            None => self.matches(&text[from..], steps),
        }
    }

    /// Whether the whole text matches, as `matches` tells, where its first `shared` bytes are those of the
    /// text of which `spot` tells. Afterwards `spot` tells of this text. Of a plain pattern only what follows
    /// the shared bytes is searched, and before it as much as the pattern may reach back. It takes no memory.
    #[inline(always)]
    pub fn matches_next<L: Ledger>(
        &self,
        text: &[u8],
        shared: usize,
        spot: &mut Spot,
        steps: &mut Steps<L>,
    ) -> bool
        ensures value { (before : List ℕ) → Known spot.old self.now before → take shared before ≡ take shared text.now → (IsTrue result ↔ InGlob self.now text.now) }
        ensures known { (before : List ℕ) → Known spot.old self.now before → take shared before ≡ take shared text.now → Known spot.new self.now text.now }
        ensures rising { steps.old ≤ steps.new }
        ensures bound { steps.new ≤ steps.old + 2 * (length (items_of self.now) + 1) * (length text.now + 1) }
        ensures plain { IsSome (plain_of self.now) → steps.new ≡ steps.old }
    {
        match &self.needle {
            Some(needle) => needle.judge(text, shared, spot),
            None => {
                *spot = Spot::Unjudged;
                self.matches(text, steps)
            }
        }
    }

    /// How many items the pattern has, none where it is plain and case is not folded.
    pub fn item_count(&self) -> usize
        ensures { result ≡ length (items_of self.now) }
    {
        self.items.len()
    }

    /// The items of the pattern, none where it is plain and case is not folded.
    pub fn items(&self) -> &Items
        ensures { result.now ≡ items_of self.now }
    {
        &self.items
    }

    /// The pattern, where it is plain and case is not folded.
    pub fn plain(&self) -> Option<&[u8]>
        ensures { option_copied result ≡ plain_of self.now }
    {
        match &self.finder {
            Some(finder) => Some(finder.needle()),
            None => None,
        }
    }
}
