//! Rows that move: those at and below a path come to lie at and below another.

ghost use Rattle.std.specs.Prelude.{◌≡◌, ◌+◌, ◌≤◌, ◌++◌, IfOk, IfSome, OnOk, OnErr, take, drop, length, vec_len};
ghost use Rattle.std.specs.Option.{option_copied};
ghost use Rattle.hl_tree.specs.Moved.{moved_rows_of, moving_rows, kept_rows, moved_keys, with_keys, moving_rest as rest_that_moves};
ghost use Rattle.hl_tree.specs.Names.{AreNames};
ghost use Rattle.hl_tree.specs.Places.{InOrder};

use crate::path::below;
use crate::rows::{Row, start_of};
use crate::{List, Path};
use std::alloc::{AllocError, Global};

/// Moves the rows at and below `from` to `to`. What stood at `to` and below it goes.
/// Memory is taken for the new paths alone, before anything changes.
pub fn move_rows(
    rows: &mut Vec<Row>,
    alloc: Global,
    from: &Path,
    to: &Path,
) -> Result<(), AllocError>
    requires { InOrder rows.old.items }
    ensures ok { OnOk result (rows.new.items ≡ moved_rows_of from.now to.now rows.old.items) }
    ensures err { OnErr result (rows.new.items ≡ rows.old.items) }
{
    let paths = moved_paths(alloc, rows.as_slice(), from, to)?;
    take_to(rows, from.names(), to.names(), paths);
    Ok(())
}

/// The new paths of the rows that move, in their order.
#[tactic(auto, using(crate::proofs::MovedPaths::paths_more, crate::proofs::MovedPaths::paths_same))]
fn moved_paths(alloc: Global, rows: &[Row], from: &Path, to: &Path) -> Result<Vec<Path>, AllocError>
    ensures { IfOk result (λ paths. paths.items ≡ moved_keys from.now to.now (moving_rows from.now (kept_rows to.now rows.now))) }
{
    let mut paths = Vec::new(alloc);
    for row in rows {
        if let Some(rest) = moving_rest(from.names(), to.names(), &row.0) {
            paths.push(to.joined(alloc, rest)?)?;
        }
    }
    Ok(paths)
}

/// What is left below `from` of the path of a row that moves.
fn moving_rest<'a>(from: &[List<u8>], to: &[List<u8>], path: &'a Path) -> Option<&'a [List<u8>]>
    ensures rest { option_copied result ≡ rest_that_moves from.now to.now path.now }
    ensures names { IfSome result (λ rest. AreNames rest.now) }
{
    match below(to, path.names()) {
        Some(_) => None,
        None => below(from, path.names()),
    }
}

/// Brings the rows at and below `from` onto these paths, and to their places among the others.
fn take_to(rows: &mut Vec<Row>, from: &[List<u8>], to: &[List<u8>], paths: Vec<Path>)
    requires order { InOrder rows.old.items }
    requires paths { paths.items ≡ moved_keys from.now to.now (moving_rows from.now (kept_rows to.now rows.old.items)) }
    ensures { rows.new.items ≡ moved_rows_of from.now to.now rows.old.items }
{
    drop_rows(rows, to);
    let others = gather_rows(rows, from, paths.as_slice().len());
    let target = start_of(&rows[..others], to);
    rename_rows(rows, others, paths);
    turn_rows(rows, target, others - target);
}

/// Takes the rows at and below a path away.
fn drop_rows(rows: &mut Vec<Row>, path: &[List<u8>])
    ensures rows { rows.new.items ≡ kept_rows path.now rows.old.items }
    ensures order { InOrder rows.old.items → InOrder rows.new.items }
{
    rows.retain(|row| below(path, row.0.names()).is_none());
}

/// Brings the rows at and below a path, of which there are `count`, behind the others, and tells how many others there are.
fn gather_rows(rows: &mut Vec<Row>, path: &[List<u8>], count: usize) -> usize
    requires order { InOrder rows.old.items }
    requires counted { count ≡ length (moving_rows path.now rows.old.items) }
    ensures rows { rows.new.items ≡ kept_rows path.now rows.old.items ++ moving_rows path.now rows.old.items }
    ensures others { result ≡ length (kept_rows path.now rows.old.items) }
{
    let start = start_of(rows.as_slice(), path);
    turn_rows(rows, start, count);
    rows.as_slice().len() - count
}

/// Brings the first `count` of the rows from an index on behind the rest of them.
fn turn_rows(rows: &mut Vec<Row>, start: usize, count: usize)
    requires { start + count ≤ length rows.old.items }
    ensures { rows.new.items ≡ take start rows.old.items ++ (drop count (drop start rows.old.items) ++ take count (drop start rows.old.items)) }
{
    rows[start..].rotate_left(count);
}

/// Gives the rows from an index on these paths, one after the other.
fn rename_rows(rows: &mut Vec<Row>, start: usize, mut paths: Vec<Path>)
    requires { start + length paths.items ≤ length rows.old.items }
    ensures { rows.new.items ≡ take start rows.old.items ++ with_keys paths.items (drop start rows.old.items) }
{
    'paths: while let Some(path) = paths.pop() {
        rows[start + paths.as_slice().len()].0 = path;
    }
}
