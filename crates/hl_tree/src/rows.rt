//! The rows of a tree, in the order of their paths.

ghost use Rattle.std.specs.Prelude.{◌≡◌, ◌+◌, ◌^◌, ◌<◌, ◌≤◌, not, is_some, is_none, map as map_list, OnOk, OnErr, IfOk, length};
ghost use Rattle.std.specs.Option.{option_copied};
ghost use Rattle.std.specs.FinMap.Entries.{find, put, where_key};
ghost use Rattle.std.specs.Ordering.{eq_by_cmp};
ghost use Rattle.hl_tree.specs.Contents.{resized, written};
ghost use Rattle.hl_tree.specs.Moved.{changed_rows};
ghost use Rattle.hl_tree.specs.Names.{path_cmp, children, below as rest_below};
ghost use Rattle.hl_tree.specs.Places.{InOrder, IsAround, Places};

use crate::list::Copied;
use crate::path::child_name;
use crate::{List, Node, Path};
use std::alloc::{AllocError, Global};

/// A path, and what stands there.
pub type Row = (Path, Node<List<u8>>);

/// The index of the row of a path, or that of the row before which it would stand.
pub fn place_of(rows: &[Row], path: &[List<u8>]) -> Result<usize, usize>
    requires { InOrder rows.now }
    ensures { Places rows.now path.now result }
{
    rows.binary_search_by(|row| row.0.names().cmp(&path))
}

/// How many rows come before a path.
pub fn start_of(rows: &[Row], path: &[List<u8>]) -> usize
    requires { InOrder rows.now }
    ensures { IsAround rows.now path.now result }
{
    match place_of(rows, path) {
        Ok(i) => i,
        Err(i) => i,
    }
}

/// What stands at a path.
pub fn row_at<'a>(rows: &'a [Row], path: &[List<u8>]) -> Option<&'a Node<List<u8>>>
    requires { InOrder rows.now }
    ensures { option_copied result ≡ find path_cmp path.now rows.now }
{
    match place_of(rows, path) {
        Ok(i) => Some(&rows[i].1),
        Err(_) => None,
    }
}

/// Puts a node at a path, in the place of the one that stands there.
pub fn put_row(rows: &mut Vec<Row>, path: Path, node: Node<List<u8>>) -> Result<(), AllocError>
    requires { InOrder rows.old.items }
    ensures ok { OnOk result (rows.new.items ≡ put path_cmp path node rows.old.items) }
    ensures err { OnErr result (rows.new.items ≡ rows.old.items) }
{
    match place_of(rows.as_slice(), path.names()) {
        Ok(i) => {
            rows[i].1 = node;
            Ok(())
        }
        Err(i) => {
            rows.insert(i, (path, node))?;
            Ok(())
        }
    }
}

/// Takes the row of a path away.
pub fn remove_row(rows: &mut Vec<Row>, path: &[List<u8>])
    requires { InOrder rows.old.items }
    ensures { rows.new.items ≡ where_key path_cmp (λ key. not (eq_by_cmp path_cmp path.now key)) rows.old.items }
{
    match place_of(rows.as_slice(), path) {
        Ok(i) => {
            rows.remove(i);
        }
        Err(_) => {}
    }
}

/// Cuts the file at a path to a size, or puts zeros at its end.
pub fn resize_row(rows: &mut Vec<Row>, path: &[List<u8>], size: usize) -> Result<(), AllocError>
    requires { InOrder rows.old.items }
    ensures ok { OnOk result (rows.new.items ≡ changed_rows path.now (λ old. resized old size) rows.old.items) }
    ensures err { OnErr result (rows.new.items ≡ rows.old.items) }
{
    match place_of(rows.as_slice(), path) {
        Ok(i) => rows[i].1.resize(size),
        Err(_) => Ok(()),
    }
}

/// Puts other bytes in the place of those of the file at a path from `at` on.
pub fn write_row(
    rows: &mut Vec<Row>,
    path: &[List<u8>],
    at: usize,
    bytes: &[u8],
) -> Result<(), AllocError>
    requires order { InOrder rows.old.items }
    requires fits { at + length bytes.now < 2 ^ 64 }
    ensures ok { OnOk result (rows.new.items ≡ changed_rows path.now (λ old. written old at bytes.now) rows.old.items) }
    ensures err { OnErr result (rows.new.items ≡ rows.old.items) }
{
    match place_of(rows.as_slice(), path) {
        Ok(i) => rows[i].1.write(at, bytes),
        Err(_) => Ok(()),
    }
}

/// Equal rows, in their order.
pub fn copy_rows(alloc: Global, rows: &[Row]) -> Result<Vec<Row>, AllocError>
    ensures { IfOk result (λ copies. copies.items ≡ rows.now) }
{
    let mut copies = Vec::with_capacity(alloc, rows.len())?;
    for row in rows {
        copies.push((row.0.copy(alloc)?, row.1.copy(alloc)?))?;
    }
    Ok(copies)
}

/// The names of the children of a path, in order of bytes.
#[tactic(auto, using(crate::proofs::Children::children_more, crate::proofs::Children::children_same))]
pub fn children_of(
    alloc: Global,
    rows: &[Row],
    path: &[List<u8>],
) -> Result<Vec<List<u8>>, AllocError>
    ensures { IfOk result (λ names. names.items ≡ children path.now (map_list (λ e. e.0) rows.now)) }
{
    let mut names = Vec::new(alloc);
    for row in rows {
        if let Some(name) = child_name(path, row.0.names()) {
            names.push(name.copy(alloc)?)?;
        }
    }
    Ok(names)
}

/// How many children a path has.
#[tactic(auto, using(crate::proofs::Children::children_more, crate::proofs::Children::children_same))]
pub fn count_children(rows: &[Row], path: &[List<u8>]) -> usize
    ensures count { result ≡ length (children path.now (map_list (λ e. e.0) rows.now)) }
    ensures bound { result ≤ length rows.now }
{
    let mut count: usize = 0;
    for row in rows {
        if child_name(path, row.0.names()).is_some() {
            count += 1;
        }
    }
    count
}
