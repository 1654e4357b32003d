//! The plain program of the file rules: a tree in memory, kept as plainly as can be.

ghost use Rattle.std.specs.Prelude.{◌≡◌, ◌≢◌, IfOk, OnOk, OnErr, ◌<◌, ◌≤◌, ◌&&◌, ℕ, Ok, Err, is_some};
ghost use Rattle.std.specs.Option.{option_copied};
ghost use Rattle.std.specs.FinMap as map;
ghost use Rattle.hl_tree.specs.declared.call.Reply.TheVariants as replies;
ghost use Rattle.hl_tree.specs.declared.node.Node.TheVariants.{File};
ghost use Rattle.hl_tree.specs.Rules as rules_of;
ghost use Rattle.hl_tree.specs.Rules.{reply, after};
ghost use Rattle.hl_tree.specs.Tree.{root_alone};
ghost use Rattle.hl_tree.specs.Names.{below as rest_below};
ghost use Rattle.hl_tree.specs.Plain.{Does};

use crate::list::Copied;
use crate::nodes::Nodes;
use crate::path::{below, is_too_long};
use crate::{Call, Limits, List, Node, Path, Refusal, Reply, bytes};
use std::alloc::{AllocError, Global};
use std::marker::Model;

/// Why a step has no reply of its own.
#[derive(Drop)]
pub enum Fail {
    Refused(Refusal),
    Memory,
}

/// The plain program of the file rules: a tree in memory, whose calls follow `specs/Rules.antt` rule by rule.
/// A call looks its path up by binary search; List, Stat of a directory, Rmdir and Rename also go over all nodes.
#[derive(Drop)]
pub struct PlainTree {
    limits: Limits,
    nodes: Nodes,
}

impl Model for PlainTree {
    ghost use Rattle.std.specs.Prelude.{◌≤◌};
    ghost use Rattle.std.specs.FinMap as map;
    ghost use Rattle.std.specs.Coded.{coded_list, coded_ℕ};
    ghost use Rattle.hl_tree.specs.Tree.{tree_code};
    ghost use Rattle.hl_tree.specs.PlainValue.{Plain, plain_code};

    ghost Value = { Plain };

    ghost coded = { plain_code };

    ghost view = { λ a. record { limits = a.limits; tree = a.nodes } };

    ghost invariant = { λ a. map.len a.nodes ≤ a.limits.nodes };
}

impl PlainTree {
    /// The root alone, empty. The limits count nodes, the root among them, and the bytes of one file.
    pub fn new(alloc: Global, limits: Limits) -> Result<PlainTree, AllocError>
        requires { 1 ≤ limits.nodes }
        ensures { IfOk result (λ tree. tree ≡ record { limits = limits; tree = root_alone }) }
    {
        let nodes = Nodes::new(alloc)?;
        Ok(PlainTree { limits, nodes })
    }

    /// What stands at each path, in the order of paths, which are compared name by name; the root comes first.
    pub fn rows(&self) -> &[(Path, Node<List<u8>>)]
        ensures { result.now ≡ map.entries self.now.tree }
    {
        self.nodes.rows()
    }

    /// What stands at a path.
    pub fn get(&self, path: &[List<u8>]) -> Option<&Node<List<u8>>>
        ensures { option_copied result ≡ map.get self.now.tree path.now }
    {
        self.nodes.get(path)
    }

    /// Puts a node at a path, whatever stands there and whatever the file rules say: for one who makes a tree of what
    /// was kept of it. Behind the last path it moves no other row. An `Err` changes nothing.
    pub fn put(
        &mut self,
        _alloc: Global,
        path: Path,
        node: Node<List<u8>>,
    ) -> Result<(), AllocError>
        requires { map.len self.old.tree < self.old.limits.nodes }
        ensures ok { OnOk result (self.new ≡ record self.old { tree = map.insert self.old.tree path node }) }
        ensures err { OnErr result (self.new ≡ self.old) }
    {
        self.nodes.insert(path, node)
    }

    /// An equal tree: every byte of its files is copied.
    pub fn copy(&self, alloc: Global) -> Result<PlainTree, AllocError>
        ensures { IfOk result (λ copy. copy ≡ self.now) }
    {
        let nodes = self.nodes.copy(alloc)?;
        Ok(PlainTree {
            limits: self.limits,
            nodes,
        })
    }

    /// Makes a call: its reply, and the tree after it, by the file rules. A refused call leaves the tree.
    /// Where memory is wanting the reply is `Memory`, and the tree stays.
    pub fn call(&mut self, alloc: Global, call: &Call) -> Reply
        ensures told { result ≢ Reply.Memory → (result ≡ reply self.old.limits self.old.tree call.now) × (self.new ≡ record self.old { tree = after self.old.limits self.old.tree call.now }) }
        ensures memory { result ≡ Reply.Memory → self.new ≡ self.old }
    {
        match step(&mut self.nodes, alloc, self.limits, call) {
            Ok(reply) => reply,
            Err(Fail::Refused(why)) => Reply::Refused(why),
            Err(Fail::Memory) => Reply::Memory,
        }
    }
}

fn step(nodes: &mut Nodes, alloc: Global, limits: Limits, call: &Call) -> Result<Reply, Fail>
    requires { map.len nodes.old ≤ limits.nodes }
    ensures { Does (rules_of.outcome limits nodes.old call.now) nodes.old result nodes.new }
{
    match call {
        Call::Mkdir { path } => make(nodes, alloc, limits, path, Node::Dir),
        Call::Create { path } => make(
            nodes,
            alloc,
            limits,
            path,
            Node::File(List::of(Vec::new(alloc))),
        ),
        Call::Write { path, at, bytes } => write(nodes, limits, path, *at, bytes.items()),
        Call::Cut { path, size } => cut(nodes, limits, path, *size),
        Call::Read { path, at, len } => read(nodes, alloc, limits, path, *at, *len),
        Call::Stat { path } => stat(nodes, limits, path),
        Call::List { path } => list(nodes, alloc, limits, path),
        Call::Unlink { path } => unlink(nodes, limits, path),
        Call::Rmdir { path } => rmdir(nodes, limits, path),
        Call::Rename { from, to } => rename(nodes, alloc, limits, from, to),
        Call::Sync => Ok(Reply::Ok),
    }
}

#[tactic(auto, unfolding(crate::specs::Rules::make))]
fn make(
    nodes: &mut Nodes,
    alloc: Global,
    limits: Limits,
    path: &Path,
    node: Node<List<u8>>,
) -> Result<Reply, Fail>
    ensures { Does (rules_of.make limits nodes.old node path.now) nodes.old result nodes.new }
{
    let names = path.names();
    if is_too_long(names) {
        return Err(Fail::Refused(Refusal::Enametoolong));
    }
    if names.is_empty() {
        return Err(Fail::Refused(Refusal::Eexist));
    }
    if let Err(why) = nodes.walk_to_parent(names) {
        return Err(Fail::Refused(why));
    }
    if nodes.get(names).is_some() {
        return Err(Fail::Refused(Refusal::Eexist));
    }
    if nodes.len() >= limits.nodes as usize {
        return Err(Fail::Refused(Refusal::Einodes));
    }
    match path.copy(alloc) {
        Ok(copy) => match nodes.insert(copy, node) {
            Ok(()) => Ok(Reply::Ok),
            Err(_) => Err(Fail::Memory),
        },
        Err(_) => Err(Fail::Memory),
    }
}

#[tactic(auto, unfolding(crate::specs::Rules::write))]
fn write(
    nodes: &mut Nodes,
    limits: Limits,
    path: &Path,
    at: u64,
    bytes: &[u8],
) -> Result<Reply, Fail>
    ensures { Does (rules_of.write limits nodes.old path.now at bytes.now) nodes.old result nodes.new }
{
    let names = path.names();
    if let Err(why) = nodes.content_at(names) {
        return Err(Fail::Refused(why));
    }
    if bytes.len() > 65536 {
        return Err(Fail::Refused(Refusal::Einval));
    }
    if bytes.is_empty() {
        return Ok(Reply::Ok);
    }
    if at > limits.bytes || bytes.len() as u64 > limits.bytes - at {
        return Err(Fail::Refused(Refusal::Efbig));
    }
    match nodes.write(names, at as usize, bytes) {
        Ok(()) => Ok(Reply::Ok),
        Err(_) => Err(Fail::Memory),
    }
}

#[tactic(auto, unfolding(crate::specs::Rules::read))]
fn read(
    nodes: &Nodes,
    alloc: Global,
    limits: Limits,
    path: &Path,
    at: u64,
    len: u64,
) -> Result<Reply, Fail>
    ensures { Does (rules_of.read limits nodes.now path.now at len) nodes.now result nodes.now }
{
    match nodes.content_at(path.names()) {
        Ok(bytes) => match bytes::read_at(alloc, bytes.items(), at, len) {
            Ok(part) => Ok(Reply::Data(List::of(part))),
            Err(_) => Err(Fail::Memory),
        },
        Err(why) => Err(Fail::Refused(why)),
    }
}

#[tactic(auto, unfolding(crate::specs::Rules::cut))]
fn cut(nodes: &mut Nodes, limits: Limits, path: &Path, size: u64) -> Result<Reply, Fail>
    ensures { Does (rules_of.cut limits nodes.old path.now size) nodes.old result nodes.new }
{
    let names = path.names();
    if let Err(why) = nodes.content_at(names) {
        return Err(Fail::Refused(why));
    }
    if limits.bytes < size {
        return Err(Fail::Refused(Refusal::Efbig));
    }
    match nodes.resize(names, size as usize) {
        Ok(()) => Ok(Reply::Ok),
        Err(_) => Err(Fail::Memory),
    }
}

#[tactic(auto, unfolding(crate::specs::Rules::stat))]
fn stat(nodes: &Nodes, limits: Limits, path: &Path) -> Result<Reply, Fail>
    requires { map.len nodes.now ≤ limits.nodes }
    ensures { Does (rules_of.stat limits nodes.now path.now) nodes.now result nodes.now }
{
    let names = path.names();
    if is_too_long(names) {
        return Err(Fail::Refused(Refusal::Enametoolong));
    }
    match nodes.walk(names) {
        Ok(Node::Dir) => Ok(Reply::Dir(nodes.count_names(names) as u32)),
        Ok(Node::File(bytes)) => Ok(Reply::File(bytes.items().len() as u64)),
        Err(why) => Err(Fail::Refused(why)),
    }
}

#[tactic(auto, unfolding(crate::specs::Rules::list))]
fn list(nodes: &Nodes, alloc: Global, limits: Limits, path: &Path) -> Result<Reply, Fail>
    ensures { Does (rules_of.list limits nodes.now path.now) nodes.now result nodes.now }
{
    let names = path.names();
    if is_too_long(names) {
        return Err(Fail::Refused(Refusal::Enametoolong));
    }
    match nodes.walk(names) {
        Ok(Node::Dir) => match nodes.names_in(alloc, names) {
            Ok(found) => Ok(Reply::Names(List::of(found))),
            Err(_) => Err(Fail::Memory),
        },
        Ok(Node::File(_)) => Err(Fail::Refused(Refusal::Enotdir)),
        Err(why) => Err(Fail::Refused(why)),
    }
}

#[tactic(auto, unfolding(crate::specs::Rules::unlink))]
fn unlink(nodes: &mut Nodes, limits: Limits, path: &Path) -> Result<Reply, Fail>
    ensures { Does (rules_of.unlink limits nodes.old path.now) nodes.old result nodes.new }
{
    let names = path.names();
    if is_too_long(names) {
        return Err(Fail::Refused(Refusal::Enametoolong));
    }
    if names.is_empty() {
        return Err(Fail::Refused(Refusal::Eisdir));
    }
    match nodes.walk(names) {
        Ok(Node::Dir) => return Err(Fail::Refused(Refusal::Eisdir)),
        Ok(Node::File(_)) => {}
        Err(why) => return Err(Fail::Refused(why)),
    }
    nodes.remove(names);
    Ok(Reply::Ok)
}

#[tactic(auto, unfolding(crate::specs::Rules::rmdir))]
fn rmdir(nodes: &mut Nodes, limits: Limits, path: &Path) -> Result<Reply, Fail>
    ensures { Does (rules_of.rmdir limits nodes.old path.now) nodes.old result nodes.new }
{
    let names = path.names();
    if is_too_long(names) {
        return Err(Fail::Refused(Refusal::Enametoolong));
    }
    if names.is_empty() {
        return Err(Fail::Refused(Refusal::Einval));
    }
    match nodes.walk(names) {
        Ok(Node::Dir) => {}
        Ok(Node::File(_)) => return Err(Fail::Refused(Refusal::Enotdir)),
        Err(why) => return Err(Fail::Refused(why)),
    }
    if nodes.count_names(names) != 0 {
        return Err(Fail::Refused(Refusal::Enotempty));
    }
    nodes.remove(names);
    Ok(Reply::Ok)
}

/// Whether what stands at `to` may be replaced.
fn replaced(
    nodes: &Nodes,
    limits: Limits,
    moving: &Node<List<u8>>,
    to: &[List<u8>],
) -> Result<(), Refusal>
    ensures { result ≡ rules_of.replaced limits nodes.now moving.now to.now (map.get nodes.now to.now) }
{
    match (moving, nodes.get(to)) {
        (_, None) => Ok(()),
        (Node::File(_), Some(Node::Dir)) => Err(Refusal::Eisdir),
        (Node::Dir, Some(Node::Dir)) => {
            if nodes.count_names(to) != 0 {
                Err(Refusal::Enotempty)
            } else {
                Ok(())
            }
        }
        (Node::File(_), Some(Node::File(_))) => Ok(()),
        (Node::Dir, Some(Node::File(_))) => Err(Refusal::Enotdir),
    }
}

/// Whether a directory would move below itself.
fn is_below_itself(
    limits: Limits,
    nodes: &Nodes,
    moving: &Node<List<u8>>,
    from: &[List<u8>],
    to: &[List<u8>],
) -> bool
    ensures { result ≡ (rules_of.is_directory limits nodes.now moving.now && is_some (rest_below from.now to.now)) }
{
    match moving {
        Node::Dir => below(from, to).is_some(),
        Node::File(_) => false,
    }
}

#[tactic(auto, unfolding(crate::specs::Rules::rename))]
fn rename(
    nodes: &mut Nodes,
    alloc: Global,
    limits: Limits,
    from: &Path,
    to: &Path,
) -> Result<Reply, Fail>
    ensures { Does (rules_of.rename limits nodes.old from.now to.now) nodes.old result nodes.new }
{
    let source = from.names();
    let target = to.names();
    if is_too_long(source) {
        return Err(Fail::Refused(Refusal::Enametoolong));
    }
    if is_too_long(target) {
        return Err(Fail::Refused(Refusal::Enametoolong));
    }
    if source.is_empty() {
        return Err(Fail::Refused(Refusal::Einval));
    }
    let moving = match nodes.walk(source) {
        Ok(moving) => moving,
        Err(why) => return Err(Fail::Refused(why)),
    };
    if source.cmp(&target).is_eq() {
        return Ok(Reply::Ok);
    }
    if is_below_itself(limits, nodes, moving, source, target) {
        return Err(Fail::Refused(Refusal::Einval));
    }
    if let Err(why) = nodes.walk_to_parent(target) {
        return Err(Fail::Refused(why));
    }
    if let Err(why) = replaced(nodes, limits, moving, target) {
        return Err(Fail::Refused(why));
    }
    match nodes.move_node(alloc, from, to) {
        Ok(()) => Ok(Reply::Ok),
        Err(_) => Err(Fail::Memory),
    }
}
