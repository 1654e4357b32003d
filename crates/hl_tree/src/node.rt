//! What stands at a path.

ghost use Rattle.std.specs.Prelude.{◌≡◌, ◌+◌, ◌^◌, ◌<◌, OnOk, OnErr, length};
ghost use Rattle.hl_tree.specs.Contents.{resized, written};
ghost use Rattle.hl_tree.specs.OtherContents.{node_map};

use crate::List;
use crate::list::Copied;
use std::alloc::{AllocError, Global};

/// What stands at a path: a directory, or a file with its content.
#[derive(Drop)]
pub enum Node<B> {
    Dir,
    File(B),
}

impl Node<List<u8>> {
    /// Cuts a file to a size, or puts zeros at its end.
    pub(crate) fn resize(&mut self, size: usize) -> Result<(), AllocError>
        ensures ok { OnOk result (self.new ≡ node_map (λ old. resized old size) self.old) }
        ensures err { OnErr result (self.new ≡ self.old) }
    {
        match self {
            Node::Dir => Ok(()),
            Node::File(content) => content.resize(size),
        }
    }

    /// Puts other bytes in the place of a file's from `at` on.
    pub(crate) fn write(&mut self, at: usize, part: &[u8]) -> Result<(), AllocError>
        requires { at + length part.now < 2 ^ 64 }
        ensures ok { OnOk result (self.new ≡ node_map (λ old. written old at part.now) self.old) }
        ensures err { OnErr result (self.new ≡ self.old) }
    {
        match self {
            Node::Dir => Ok(()),
            Node::File(content) => content.write(at, part),
        }
    }
}

impl<B: Copied> Copied for Node<B> {
    fn copy(&self, alloc: Global) -> Result<Node<B>, AllocError> {
        match self {
            Node::Dir => Ok(Node::Dir),
            Node::File(content) => Ok(Node::File(content.copy(alloc)?)),
        }
    }
}
