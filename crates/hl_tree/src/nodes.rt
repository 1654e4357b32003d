//! The nodes of a tree, in order of their paths, seen as a finite map.

ghost use Rattle.std.specs.Prelude.{◌≡◌, ◌+◌, ◌^◌, ◌<◌, ◌≤◌, OnOk, OnErr, IfOk, MatchResult, length};
ghost use Rattle.std.specs.Option.{option_copied};
ghost use Rattle.std.specs.FinMap as map;
ghost use Rattle.hl_tree.specs.Contents.{resized, written};
ghost use Rattle.hl_tree.specs.OtherContents.{changed_at};
ghost use Rattle.hl_tree.specs.Tree.{root_alone, walk_to_parent, walk, content_at, names_in, moved};

use crate::moving::move_rows;
use crate::path::is_too_long;
use crate::rows::{
    Row, children_of, copy_rows, count_children, put_row, remove_row, resize_row, row_at, write_row,
};
use crate::{List, Node, Path, Refusal};
use std::alloc::{AllocError, Global};
use std::marker::Model;

/// The nodes of a tree: a row for each, in the order of their paths.
#[derive(Drop)]
pub struct Nodes {
    rows: Vec<Row>,
}

impl Model for Nodes {
    ghost use Rattle.std.specs.Prelude.{List as Items, ℕ, T};
    ghost use Rattle.std.specs.FinMap as map;
    ghost use Rattle.std.specs.FinMap.Entries.{is_sorted};
    ghost use Rattle.hl_tree.specs.Names.{path_cmp};
    ghost use Rattle.std.specs.Coded.{coded_list, coded_ℕ};
    ghost use Rattle.hl_tree.specs.Tree.{Tree, tree_code};

    ghost Value = { Tree (Items ℕ) };

    ghost coded = { tree_code (coded_list coded_ℕ) };

    ghost view = { λ a. map.from_sorted a.rows.items };

    ghost invariant = { λ a. T (is_sorted path_cmp a.rows.items) };
}

impl Nodes {
    /// The root alone.
    pub fn new(alloc: Global) -> Result<Nodes, AllocError>
        ensures { IfOk result (λ nodes. nodes ≡ root_alone) }
    {
        let mut rows = Vec::new(alloc);
        rows.push((Path::root(alloc), Node::Dir))?;
        Ok(Nodes { rows })
    }

    /// The rows, in the order of their paths.
    pub fn rows(&self) -> &[Row]
        ensures { result.now ≡ map.entries self.now }
    {
        self.rows.as_slice()
    }

    /// Equal nodes.
    pub fn copy(&self, alloc: Global) -> Result<Nodes, AllocError>
        ensures { IfOk result (λ copy. copy ≡ self.now) }
    {
        let rows = copy_rows(alloc, self.rows.as_slice())?;
        Ok(Nodes { rows })
    }

    pub fn get(&self, path: &[List<u8>]) -> Option<&Node<List<u8>>>
        ensures { option_copied result ≡ map.get self.now path.now }
    {
        row_at(self.rows.as_slice(), path)
    }

    pub fn len(&self) -> usize
        ensures { result ≡ map.len self.now }
    {
        self.rows.as_slice().len()
    }

    /// The walk to the parent of a path.
    #[tactic(auto, using(crate::proofs::Ways::way_missing, crate::proofs::Ways::way_file, crate::proofs::Ways::way_directory, crate::proofs::Ways::way_end), unfolding(crate::specs::Tree::walk_to_parent))]
    pub fn walk_to_parent(&self, path: &[List<u8>]) -> Result<(), Refusal>
        ensures { result ≡ walk_to_parent self.now path.now }
    {
        for i in 0..path.len() {
            match self.get(&path[..i]) {
                None => return Err(Refusal::Enoent),
                Some(Node::File(_)) => return Err(Refusal::Enotdir),
                Some(Node::Dir) => {}
            }
        }
        Ok(())
    }

    /// The walk to a path.
    #[tactic(auto, unfolding(crate::specs::Tree::walk))]
    pub fn walk(&self, path: &[List<u8>]) -> Result<&Node<List<u8>>, Refusal>
        ensures { MatchResult result (λ node. walk self.now path.now ≡ Ok node.now) (λ why. walk self.now path.now ≡ Err why) }
    {
        if let Err(why) = self.walk_to_parent(path) {
            return Err(why);
        }
        match self.get(path) {
            None => Err(Refusal::Enoent),
            Some(node) => Ok(node),
        }
    }

    /// The names in a directory, in order of bytes.
    pub fn names_in(&self, alloc: Global, path: &[List<u8>]) -> Result<Vec<List<u8>>, AllocError>
        ensures { IfOk result (λ names. names.items ≡ names_in self.now path.now) }
    {
        let names = children_of(alloc, self.rows.as_slice(), path)?;
        Ok(names)
    }

    /// How many names are in a directory.
    pub fn count_names(&self, path: &[List<u8>]) -> usize
        ensures count { result ≡ length (names_in self.now path.now) }
        ensures bound { result ≤ map.len self.now }
    {
        count_children(self.rows.as_slice(), path)
    }

    pub fn remove(&mut self, path: &[List<u8>])
        ensures { self.new ≡ map.remove self.old path.now }
    {
        remove_row(&mut self.rows, path);
    }

    /// Moves the node at `from` and all below it to `to`, in the place of what stands there.
    pub fn move_node(&mut self, alloc: Global, from: &Path, to: &Path) -> Result<(), AllocError>
        ensures ok { OnOk result (self.new ≡ moved self.old from.now to.now) }
        ensures err { OnErr result (self.new ≡ self.old) }
    {
        move_rows(&mut self.rows, alloc, from, to)?;
        Ok(())
    }

    /// Cuts the file at a path to a size, or puts zeros at its end.
    pub fn resize(&mut self, path: &[List<u8>], size: usize) -> Result<(), AllocError>
        ensures ok { OnOk result (self.new ≡ changed_at self.old path.now (λ old. resized old size)) }
        ensures err { OnErr result (self.new ≡ self.old) }
    {
        resize_row(&mut self.rows, path, size)?;
        Ok(())
    }

    /// Puts other bytes in the place of those of the file at a path from `at` on.
    pub fn write(&mut self, path: &[List<u8>], at: usize, bytes: &[u8]) -> Result<(), AllocError>
        requires { at + length bytes.now < 2 ^ 64 }
        ensures ok { OnOk result (self.new ≡ changed_at self.old path.now (λ old. written old at bytes.now)) }
        ensures err { OnErr result (self.new ≡ self.old) }
    {
        write_row(&mut self.rows, path, at, bytes)?;
        Ok(())
    }

    /// The content of the file at a path.
    #[tactic(auto, unfolding(crate::specs::Tree::content_at, crate::specs::Tree::walk))]
    pub fn content_at(&self, path: &[List<u8>]) -> Result<&List<u8>, Refusal>
        ensures { MatchResult result (λ bytes. content_at self.now path.now ≡ Ok bytes.now) (λ why. content_at self.now path.now ≡ Err why) }
    {
        if is_too_long(path) {
            return Err(Refusal::Enametoolong);
        }
        if let Err(why) = self.walk_to_parent(path) {
            return Err(why);
        }
        match self.get(path) {
            None => Err(Refusal::Enoent),
            Some(Node::Dir) => Err(Refusal::Eisdir),
            Some(Node::File(bytes)) => Ok(bytes),
        }
    }

    pub fn insert(&mut self, path: Path, node: Node<List<u8>>) -> Result<(), AllocError>
        ensures ok { OnOk result (self.new ≡ map.insert self.old path node) }
        ensures err { OnErr result (self.new ≡ self.old) }
    {
        put_row(&mut self.rows, path, node)?;
        Ok(())
    }
}
