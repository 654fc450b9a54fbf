//! Lists of names.
ghost use Rattle.std.specs.Prelude.{◌≡◌, ◌<◌, ◌≤◌, [], ◌∷◌, ◌++◌, length, OnOk, OnErr, IsSomeAnd, slice_get, IsPermutation};
ghost use Rattle.std.specs.List.{dedup};
ghost use Rattle.std.specs.List.Sorted.{IsSortedByKey};
ghost use Rattle.std.specs.Str.{bytes_eq};
ghost use Rattle.path_order.specs.NameList.{SortsTo, entry_cmp};
ghost use Rattle.path_order.specs.Spans.{text_at, entry_at};

use crate::Kind;
use std::alloc::{AllocError, Global};
use std::cmp::Ordering;
use std::marker::Model;

/// Where a name lies among the bytes of all, and its kind.
#[derive(Clone, Copy)]
struct Span {
    start: usize,
    end: usize,
    kind: Kind,
}

/// The bytes of a name.
#[inline(always)]
fn name_in<'a>(bytes: &'a [u8], span: &Span) -> &'a [u8]
    ensures { result.now ≡ text_at bytes.now span.now }
{
    let end = span.end.min(bytes.len());
    &bytes[span.start.min(end)..end]
}

/// Compares two names by their bytes, and by their kinds where they are equal.
#[inline(always)]
fn compare_entries(bytes: &[u8], a: &Span, b: &Span) -> Ordering
    ensures { result ≡ entry_cmp (entry_at bytes.now a.now) (entry_at bytes.now b.now) }
{
    name_in(bytes, a)
        .cmp(&name_in(bytes, b))
        .then(a.kind.cmp(&b.kind))
}

/// Puts names in order, where equal ones stay side by side.
fn sort_spans(bytes: &[u8], spans: &mut Vec<Span>) -> Result<(), AllocError>
    ensures same { IsPermutation spans.old.items spans.new.items }
    ensures sorted { OnOk result (IsSortedByKey (entry_at bytes.now) entry_cmp spans.new.items) }
    ensures err { OnErr result (spans.new.items ≡ spans.old.items) }
{
    spans.sort_by(|a, b| compare_entries(bytes, a, b))?;
    Ok(())
}

/// Keeps the first of the equal names that stand side by side.
fn drop_repeats(bytes: &[u8], spans: &mut Vec<Span>)
    ensures { spans.new.items ≡ dedup (λ next kept. bytes_eq (text_at bytes.now next) (text_at bytes.now kept)) spans.old.items }
{
    let same = |next: &mut Span, kept: &mut Span| -> bool
        ensures { (result ≡ bytes_eq (text_at bytes.entry.now next.entry.now) (text_at bytes.entry.now kept.entry.now)) × ((next.exit.now ≡ next.entry.now) × (kept.exit.now ≡ kept.entry.now)) }
    { name_in(bytes, next) == name_in(bytes, kept) };
    spans.dedup_by(same);
}

/// Names with their kinds. The bytes of all lie in one buffer, so a name more takes memory only where that has to grow.
/// A contract sees the list of names with their kinds.
#[derive(Drop)]
pub struct NameList {
    bytes: Vec<u8>,
    spans: Vec<Span>,
}

impl Model for NameList {
    ghost use Rattle.path_order.specs.NameList.{Listed};
    ghost use Rattle.path_order.specs.Spans.{entries_in, AllWithin};

    ghost Value = { Listed };

    ghost view = { λ list. entries_in list.bytes.items list.spans.items };

    ghost invariant = { λ list. AllWithin list.bytes.items list.spans.items };
}

impl NameList {
    /// The list of no names.
    pub fn new(alloc: Global) -> NameList
        ensures { result ≡ [] }
    {
        NameList {
            bytes: Vec::new(alloc),
            spans: Vec::new(alloc),
        }
    }

    /// Appends a name.
    pub fn push(&mut self, name: &[u8], kind: Kind) -> Result<(), AllocError>
        ensures ok { OnOk result (self.new ≡ self.old ++ (name.now, kind) ∷ []) }
        ensures err { OnErr result (self.new ≡ self.old) }
    {
        let start = self.bytes.len();
        self.bytes.extend_from_slice(name)?;
        let end = self.bytes.len();
        self.spans.push(Span { start, end, kind })?;
        Ok(())
    }

    /// Puts the names in the order of their bytes. Of equal names one stays: a `File` where there is one, else a `Directory`.
    pub fn sort(&mut self) -> Result<(), AllocError>
        ensures ok { OnOk result (SortsTo self.old self.new) }
        ensures fewer { length self.new ≤ length self.old }
        ensures err { OnErr result (self.new ≡ self.old) }
    {
        sort_spans(&self.bytes, &mut self.spans)?;
        drop_repeats(&self.bytes, &mut self.spans);
        Ok(())
    }

    /// Empties the list. Its memory stays with it.
    pub fn clear(&mut self)
        ensures { self.new ≡ [] }
    {
        self.spans.clear();
        self.bytes.clear();
    }

    /// The number of names.
    pub fn len(&self) -> usize
        ensures { result ≡ length self.now }
    {
        self.spans.len()
    }

    /// The name at this place.
    pub fn name(&self, at: usize) -> &[u8]
        requires { at < length self.now }
        ensures { IsSomeAnd (slice_get self.now at) (λ entry. result.now ≡ entry.0) }
    {
        name_in(&self.bytes, &self.spans[at])
    }

    /// The kind of the name at this place.
    pub fn kind(&self, at: usize) -> Kind
        requires { at < length self.now }
        ensures { IsSomeAnd (slice_get self.now at) (λ entry. result ≡ entry.1) }
    {
        self.spans[at].kind
    }
}

#[cfg(test)]
mod tests {
    use super::*;
    use std::test::Fail;

    const TAKEN: [(&[u8], Kind); 7] = [
        (b"b", Kind::Directory),
        (b"a.b", Kind::File),
        (b"b", Kind::File),
        (b"", Kind::Directory),
        (b"a", Kind::Directory),
        (b"b", Kind::Directory),
        (b"a", Kind::Directory),
    ];

    const SORTED: [(&[u8], Kind); 4] = [
        (b"", Kind::Directory),
        (b"a", Kind::Directory),
        (b"a.b", Kind::File),
        (b"b", Kind::File),
    ];

    fn has(list: &NameList, at: usize, name: &[u8], kind: Kind) -> bool {
        at < list.len() && list.name(at) == name && list.kind(at) == kind
    }

    #[test]
    fn names_are_sorted_once(rt: HostRuntime) -> Result<(), Fail> {
        let mut list = NameList::new(rt.alloc());
        for (name, kind) in TAKEN {
            list.push(name, kind)?;
        }
        assert_eq!(rt; list.len(), 7);
        assert!(rt; has(&list, 5, b"b", Kind::Directory));
        list.sort()?;
        assert_eq!(rt; list.len(), 4);
        for (at, (name, kind)) in SORTED.iter().enumerate() {
            assert!(rt; has(&list, at, name, *kind));
        }
        list.clear();
        assert_eq!(rt; list.len(), 0);
        list.push(b"x", Kind::File)?;
        assert!(rt; has(&list, 0, b"x", Kind::File));
        Ok(())
    }
}
