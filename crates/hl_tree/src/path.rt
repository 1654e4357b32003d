//! Paths.

ghost use Rattle.std.specs.Prelude.{◌≡◌, [], ◌++◌, ◌↔◌, IsTrue, IsSome, IfSome, IfOk, List as Items, nat_eq};
ghost use Rattle.std.specs.Cmp.Lexicographic.{pointwise, lists_per, lists_equiv, nat_list_eq_equiv};
ghost use Rattle.std.specs.Option.{option_copied};
ghost use Rattle.std.specs.Cmp.{partial_equiv_from_equiv};
ghost use Rattle.hl_tree.specs.Names.{AreNames, IsName, is_too_long as is_too_long_path, below as rest_below, only_name};

use crate::List;
use crate::list::{Copied, append_copies};
use std::alloc::{AllocError, Global};
use std::marker::Model;

/// A path: the names from the root on, none of them empty or with the byte 0 or 47. The root has none.
#[derive(Drop)]
pub struct Path {
    names: List<List<u8>>,
}

impl Model for Path {
    ghost use Rattle.std.specs.Prelude.{List as Items, ℕ};
    ghost use Rattle.hl_tree.specs.Names.{AreNames};

    ghost Value = { Items (Items ℕ) };

    ghost view = { λ p. p.names };

    ghost invariant = { λ p. AreNames p.names };
}

impl Path {
    /// The path of these names, or None where a name is empty or has the byte 0 or 47.
    pub fn new(names: Vec<List<u8>>) -> Option<Path>
        ensures valid { IsSome result ↔ AreNames names.items }
        ensures names { IfSome result (λ path. path ≡ names.items) }
    {
        if are_names(names.as_slice()) {
            Some(Path {
                names: List::of(names),
            })
        } else {
            None
        }
    }

    /// The root.
    pub fn root(alloc: Global) -> Path
        ensures { result ≡ [] }
    {
        Path {
            names: List::of(Vec::new(alloc)),
        }
    }

    /// The path with further names behind its own.
    pub(crate) fn joined(&self, alloc: Global, rest: &[List<u8>]) -> Result<Path, AllocError>
        requires { AreNames rest.now }
        ensures { IfOk result (λ path. path ≡ self.now ++ rest.now) }
    {
        let names = self.names();
        let mut all = Vec::with_capacity(alloc, names.len().saturating_add(rest.len()))?;
        append_copies(alloc, &mut all, names)?;
        append_copies(alloc, &mut all, rest)?;
        Ok(Path {
            names: List::of(all),
        })
    }

    /// The names from the root on.
    pub fn names(&self) -> &[List<u8>]
        ensures is { result.now ≡ self.now }
        ensures valid { AreNames self.now }
    {
        self.names.items()
    }
}

/// What is left of `other` below `path`.
#[tactic(auto, using(crate::proofs::NamesBelow::below_same, crate::proofs::NamesBelow::below_other, crate::proofs::NamesBelow::below_short, crate::proofs::NamesBelow::below_end))]
pub fn below<'a>(path: &[List<u8>], other: &'a [List<u8>]) -> Option<&'a [List<u8>]>
    ensures { option_copied result ≡ rest_below path.now other.now }
{
    for i in 0..path.len() {
        if i >= other.len() {
            return None;
        }
        if !path[i].cmp(&other[i]).is_eq() {
            return None;
        }
    }
    Some(&other[path.len()..])
}

/// The name of a child of `path`.
pub fn child_name<'a>(path: &[List<u8>], other: &'a [List<u8>]) -> Option<&'a List<u8>>
    ensures { option_copied result ≡ only_name (rest_below path.now other.now) }
{
    match below(path, other) {
        Some([name]) => Some(name),
        _ => None,
    }
}

/// Whether a name or all of them together are longer than a path may be.
pub fn is_too_long(names: &[List<u8>]) -> bool
    ensures { result ≡ is_too_long_path names.now }
{
    let mut total: usize = 0;
    for name in names {
        let length = name.items().len();
        if length > 255 {
            return true;
        }
        total += 1 + length;
        if total > 1023 {
            return true;
        }
    }
    false
}

fn are_names(names: &[List<u8>]) -> bool
    ensures { IsTrue result ↔ AreNames names.now }
{
    names.iter().all(|name| is_name(name.items()))
}

fn is_name(name: &[u8]) -> bool
    ensures { IsTrue result ↔ IsName name.now }
{
    !name.is_empty() && name.iter().all(|b| *b != 0 && *b != 47)
}

impl Copied for Path {
    fn copy(&self, alloc: Global) -> Result<Path, AllocError> {
        Ok(Path {
            names: self.names.copy(alloc)?,
        })
    }
}

impl PartialEq for Path {
    ghost eq = { pointwise (pointwise nat_eq) };

    ghost laws = { lists_per (partial_equiv_from_equiv nat_list_eq_equiv) };

    fn eq(&self, other: &Path) -> bool {
        self.names() == other.names()
    }
}

impl Eq for Path {
    ghost laws = { lists_equiv nat_list_eq_equiv };
}
