//! Puts the tokens of a pattern together.
ghost use Rattle.std.specs.Prelude.{◌≡◌, ◌⊎◌, ℕ, Err, List, Option, length, IfOk, IsOkAnd, MatchResult};
ghost use Rattle.posix_regex.specs.declared.fault.RegexCause.TheVariants.{OutOfMemory};
ghost use Rattle.posix_regex.specs.Expression.{Expression, Empty};
ghost use Rattle.posix_regex.specs.Fragment.{Stands, StandsIfSome};
ghost use Rattle.posix_regex.specs.Token.{Atom, Suffix, Bar, Open, Close, token_of};
ghost use Rattle.posix_regex.specs.Pattern.{Group, Reading, group_at, with_piece, with_branch, expression_of, add_atom, add_bar, with_last, repeat_piece, add_token, nothing_read, finish};

use crate::fault::{RegexCause, RegexFault};
use crate::fragment::Fragment;
use crate::token::Kept;
use std::alloc::{AllocError, Global};
use std::collections::LinkedList;

/// What was read of one group, or of the pattern outside all groups.
#[derive(Drop)]
pub(crate) struct Frame {
    pub(crate) mark: usize,
    pub(crate) branches: Option<Fragment>,
    pub(crate) branch: Fragment,
    pub(crate) piece: Option<Fragment>,
}

/// What was read of a pattern: the innermost open group, and those around it, the innermost first.
#[derive(Drop)]
pub(crate) struct Reader {
    pub(crate) inner: Frame,
    pub(crate) outer: LinkedList<Frame>,
}

/// A branch and the piece that ends it, if there is one.
fn with_piece(branch: Fragment, piece: Option<Fragment>) -> Result<Fragment, AllocError>
    ensures { (e : Expression) → (p : Option Expression) → Stands branch e → StandsIfSome piece p → IfOk result (λ f. Stands f (with_piece e p)) }
{
    match piece {
        None => Ok(branch),
        Some(piece) => branch.then(piece),
    }
}

/// The branches before, if there are any, or this one.
fn with_branch(
    alloc: Global,
    branches: Option<Fragment>,
    branch: Fragment,
) -> Result<Fragment, AllocError>
    ensures { (b : Option Expression) → (e : Expression) → StandsIfSome branches b → Stands branch e → IfOk result (λ f. Stands f (with_branch b e)) }
{
    match branches {
        None => Ok(branch),
        Some(branches) => branches.or(alloc, branch),
    }
}

impl Frame {
    ghost use Rattle.posix_regex.specs.Reader.{StandsFor};

    /// A group whose mark is at the place `mark`, with nothing in it.
    fn at(alloc: Global, mark: usize) -> Frame
        ensures { StandsFor result (group_at mark) }
    {
        Frame {
            mark,
            branches: None,
            branch: Fragment::empty(alloc),
            piece: None,
        }
    }

    /// The expression of the group.
    fn whole(self, alloc: Global) -> Result<Fragment, AllocError>
        ensures { (g : Group) → StandsFor self g → IfOk result (λ f. Stands f (expression_of g)) }
    {
        let branch = with_piece(self.branch, self.piece)?;
        with_branch(alloc, self.branches, branch)
    }

    /// Adds an atom.
    fn add_atom(self, atom: Fragment) -> Result<Frame, AllocError>
        ensures { (e : Expression) → (g : Group) → Stands atom e → StandsFor self g → IfOk result (λ f. StandsFor f (add_atom e g)) }
    {
        let branch = with_piece(self.branch, self.piece)?;
        Ok(Frame {
            mark: self.mark,
            branches: self.branches,
            branch,
            piece: Some(atom),
        })
    }

    /// Ends a branch.
    fn add_bar(self, alloc: Global) -> Result<Frame, AllocError>
        ensures { (g : Group) → StandsFor self g → IfOk result (λ f. StandsFor f (add_bar g)) }
    {
        let mark = self.mark;
        let whole = self.whole(alloc)?;
        Ok(Frame {
            mark,
            branches: Some(whole),
            branch: Fragment::empty(alloc),
            piece: None,
        })
    }

    /// Repeats the last piece.
    fn add_suffix(
        self,
        alloc: Global,
        least: usize,
        more: Option<usize>,
    ) -> Result<Frame, RegexCause>
        ensures { (g : Group) → StandsFor self g → MatchResult result
            (λ f. IsOkAnd (repeat_piece least more g.piece) (λ e. StandsFor f (with_last e g)))
            (λ cause. (cause ≡ OutOfMemory) ⊎ (repeat_piece least more g.piece ≡ Err cause)) }
    {
        match repeat_piece(alloc, least, more, self.piece) {
            Ok(piece) => Ok(Frame {
                mark: self.mark,
                branches: self.branches,
                branch: self.branch,
                piece: Some(piece),
            }),
            Err(cause) => Err(cause),
        }
    }
}

/// The piece repeated; without a piece, a bad repetition.
fn repeat_piece(
    alloc: Global,
    least: usize,
    more: Option<usize>,
    piece: Option<Fragment>,
) -> Result<Fragment, RegexCause>
    ensures { (p : Option Expression) → StandsIfSome piece p → MatchResult result
        (λ f. IsOkAnd (repeat_piece least more p) (λ e. Stands f e))
        (λ cause. (cause ≡ OutOfMemory) ⊎ (repeat_piece least more p ≡ Err cause)) }
{
    match piece {
        None => Err(RegexCause::BadRepeat),
        Some(piece) => match piece.repeated(alloc, least, more) {
            Ok(fragment) => Ok(fragment),
            Err(_) => Err(RegexCause::OutOfMemory),
        },
    }
}

/// The most groups that may be open at once.
const MAX_GROUPS: usize = 64;

impl Reader {
    ghost use Rattle.posix_regex.specs.Reader.{StandsForAll, Adds, no_memory};

    /// Nothing was read.
    pub(crate) fn new(alloc: Global) -> Reader
        ensures { StandsForAll result nothing_read }
    {
        Reader {
            inner: Frame::at(alloc, 0),
            outer: LinkedList::new(alloc),
        }
    }

    /// Adds an atom, if there was memory for it.
    fn add_atom(self, atom: Result<Fragment, AllocError>) -> Result<Reader, RegexCause>
        ensures { (e : Expression) → (place : ℕ) → (read : Reading) → IfOk atom (λ f. Stands f e) → StandsForAll self read → Adds result (add_token place (Atom e) read) }
    {
        let Ok(atom) = atom else {
            return Err(RegexCause::OutOfMemory);
        };
        match self.inner.add_atom(atom) {
            Ok(inner) => Ok(Reader {
                inner,
                outer: self.outer,
            }),
            Err(_) => Err(RegexCause::OutOfMemory),
        }
    }

    /// Repeats the last piece.
    fn add_suffix(
        self,
        alloc: Global,
        least: usize,
        more: Option<usize>,
    ) -> Result<Reader, RegexCause>
        ensures { (place : ℕ) → (read : Reading) → StandsForAll self read → Adds result (add_token place (Suffix least more) read) }
    {
        match self.inner.add_suffix(alloc, least, more) {
            Ok(inner) => Ok(Reader {
                inner,
                outer: self.outer,
            }),
            Err(cause) => Err(cause),
        }
    }

    /// Ends a branch.
    fn add_bar(self, alloc: Global) -> Result<Reader, RegexCause>
        ensures { (place : ℕ) → (read : Reading) → StandsForAll self read → Adds result (add_token place Bar read) }
    {
        match self.inner.add_bar(alloc) {
            Ok(inner) => Ok(Reader {
                inner,
                outer: self.outer,
            }),
            Err(_) => Err(RegexCause::OutOfMemory),
        }
    }

    /// Opens a group whose mark is at the place.
    fn open(self, alloc: Global, place: usize) -> Result<Reader, RegexCause>
        ensures { (read : Reading) → StandsForAll self read → Adds result (add_token place Open read) }
    {
        if self.outer.len() == MAX_GROUPS {
            return Err(RegexCause::TooDeep);
        }
        let mut outer = self.outer;
        match outer.push_front(self.inner) {
            Ok(()) => Ok(Reader {
                inner: Frame::at(alloc, place),
                outer,
            }),
            Err(_) => Err(RegexCause::OutOfMemory),
        }
    }

    /// Closes the innermost group.
    fn close(self, alloc: Global) -> Result<Reader, RegexCause>
        ensures { (place : ℕ) → (read : Reading) → StandsForAll self read → Adds result (add_token place Close read) }
    {
        let mut outer = self.outer;
        let Some(around) = outer.pop_front() else {
            return Err(RegexCause::BadGroup);
        };
        let Ok(group) = self.inner.whole(alloc) else {
            return Err(RegexCause::OutOfMemory);
        };
        match around.add_atom(group) {
            Ok(inner) => Ok(Reader { inner, outer }),
            Err(_) => Err(RegexCause::OutOfMemory),
        }
    }

    /// Adds the token at a place.
    pub(crate) fn add_token(
        self,
        alloc: Global,
        place: usize,
        token: Kept,
    ) -> Result<Reader, RegexCause>
        ensures { (read : Reading) → StandsForAll self read → Adds result (add_token place (token_of token) read) }
    {
        match token {
            Kept::Set(set) => self.add_atom(Fragment::one_of(alloc, set)),
            Kept::Start => self.add_atom(Fragment::start(alloc)),
            Kept::End => self.add_atom(Fragment::end(alloc)),
            Kept::Suffix(least, more) => self.add_suffix(alloc, least, more),
            Kept::Bar => self.add_bar(alloc),
            Kept::Open => self.open(alloc, place),
            Kept::Close => self.close(alloc),
        }
    }

    /// The whole pattern; an open group is a fault.
    pub(crate) fn finish(self, alloc: Global) -> Result<Fragment, RegexFault>
        ensures { (read : Reading) → StandsForAll self read → MatchResult result
            (λ f. IsOkAnd (finish read.inner read.outer) (λ e. Stands f e))
            (λ fault. (fault ≡ no_memory) ⊎ (finish read.inner read.outer ≡ Err fault)) }
    {
        if !self.outer.is_empty() {
            return Err(RegexFault {
                place: self.inner.mark as u64,
                cause: RegexCause::BadGroup,
            });
        }
        match self.inner.whole(alloc) {
            Ok(whole) => Ok(whole),
            Err(_) => Err(RegexFault {
                place: 0,
                cause: RegexCause::OutOfMemory,
            }),
        }
    }
}
