//! A list whose items contracts see, and not its capacity.

ghost use Rattle.std.specs.Prelude.{◌≡◌, ◌+◌, ◌++◌, ◌^◌, ◌<◌, IfOk, OnOk, OnErr, length};
ghost use Rattle.std.specs.Cmp.Lexicographic.{pointwise, lists_per, lists_equiv, lists_po, slice_partial_cmp, slice_cmp, lists_total, lists_agrees, lists_ties};
ghost use Rattle.hl_tree.specs.Contents.{resized, written};

use crate::bytes;
use std::alloc::{AllocError, Global};
use std::cmp::Ordering;
use std::marker::Model;

/// Items in their order. Contracts see it as the list of them.
#[derive(Drop)]
pub struct List<T> {
    vec: Vec<T>,
}

impl<T> Model for List<T> {
    ghost use Rattle.std.specs.Prelude.{List as Items};

    ghost Value = { Items T };

    ghost view = { λ l. l.vec.items };
}

impl<T> List<T> {
    /// The items of a vector, which isn't copied.
    pub fn of(vec: Vec<T>) -> List<T>
        ensures { result ≡ vec.items }
    {
        List { vec }
    }

    /// The items, lent.
    pub fn items(&self) -> &[T]
        ensures { result.now ≡ self.now }
    {
        self.vec.as_slice()
    }

    /// The items in a vector again.
    pub fn into_vec(self) -> Vec<T>
        ensures { result.items ≡ self }
    {
        self.vec
    }
}

impl List<u8> {
    /// Cuts the bytes to a size, or puts zeros at their end.
    pub(crate) fn resize(&mut self, size: usize) -> Result<(), AllocError>
        ensures ok { OnOk result (self.new ≡ resized self.old size) }
        ensures err { OnErr result (self.new ≡ self.old) }
    {
        bytes::resize(&mut self.vec, size)
    }

    /// Puts other bytes in the place of those from `at` on, with zeros in a gap before them.
    pub(crate) fn write(&mut self, at: usize, part: &[u8]) -> Result<(), AllocError>
        requires { at + length part.now < 2 ^ 64 }
        ensures ok { OnOk result (self.new ≡ written self.old at part.now) }
        ensures err { OnErr result (self.new ≡ self.old) }
    {
        bytes::write(&mut self.vec, at, part)
    }
}

impl<T: PartialEq> PartialEq for List<T> {
    ghost eq = { pointwise T.eq };

    ghost laws = { lists_per T.laws };

    fn eq(&self, other: &List<T>) -> bool {
        self.items() == other.items()
    }
}

impl<T: Eq> Eq for List<T> {
    ghost laws = { lists_equiv T.Eq.laws };
}

impl<T: PartialOrd> PartialOrd for List<T> {
    ghost partial_cmp = { slice_partial_cmp T.partial_cmp };

    ghost laws = { lists_po T.PartialOrd.laws };

    fn partial_cmp(&self, other: &List<T>) -> Option<Ordering> {
        self.items().partial_cmp(&other.items())
    }
}

impl<T: Ord> Ord for List<T> {
    ghost cmp = { slice_cmp T.cmp };

    ghost total = { lists_total T.total };

    ghost matches_partial_cmp = { lists_agrees T.matches_partial_cmp };

    ghost matches_eq = { lists_ties T.cmp T.matches_eq };

    fn cmp(&self, other: &List<T>) -> Ordering {
        self.items().cmp(&other.items())
    }
}

/// What can be made again with an allocator.
pub trait Copied: Sized + Drop {
    /// A value equal to `self`.
    fn copy(&self, alloc: Global) -> Result<Self, AllocError>
        ensures { IfOk result (λ copy. copy ≡ self.now) };

    /// Values equal to these, in their order.
    fn copies(alloc: Global, items: &[Self]) -> Result<Vec<Self>, AllocError>
        ensures { IfOk result (λ copies. copies.items ≡ items.now) }
    {
        let mut copies = Vec::with_capacity(alloc, items.len())?;
        for item in items {
            copies.push(item.copy(alloc)?)?;
        }
        Ok(copies)
    }
}

impl Copied for u8 {
    fn copy(&self, _alloc: Global) -> Result<u8, AllocError> {
        Ok(*self)
    }

    fn copies(alloc: Global, items: &[u8]) -> Result<Vec<u8>, AllocError> {
        Vec::from_slice(alloc, items)
    }
}

impl<T: Copied> Copied for List<T> {
    fn copy(&self, alloc: Global) -> Result<List<T>, AllocError> {
        Ok(List {
            vec: T::copies(alloc, self.items())?,
        })
    }
}

/// Appends copies of items.
pub(crate) fn append_copies<T: Copied>(
    alloc: Global,
    copies: &mut Vec<T>,
    items: &[T],
) -> Result<(), AllocError>
    ensures { OnOk result (copies.new.items ≡ copies.old.items ++ items.now) }
{
    for item in items {
        copies.push(item.copy(alloc)?)?;
    }
    Ok(())
}
