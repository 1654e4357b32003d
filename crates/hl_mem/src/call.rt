//! A call as a recording keeps it.

ghost use Rattle.std.specs.Prelude.{◌≡◌, ◌≤◌, ◌+◌, ◌*◌, ℕ, List, [], length};
ghost use Rattle.hl_bytes.specs.Buffers.{block_of};
ghost use Rattle.hl_media.specs.History.{MachineState, MayLeave, IsWhole, begun, ended};
ghost use Rattle.hl_media.specs.History.DeviceCall.{Write};
ghost use Rattle.hl_mem.specs.Kept.{Shows, IsFit, SameOutside};
ghost use Rattle.hl_mem.specs.Tears.{IsTorn, TearsWrite};

use crate::tear::Tear;
use crate::tearing::leave;

/// A call of a machine. What was said stands in the recording, once.
#[derive(Drop)]
pub enum Call {
    Reading,
    /// A write that was done.
    Writing {
        at: u32,
        bytes: Vec<u8>,
    },
    /// A write that failed, and the bytes that a read gives in its place since.
    FailedWriting {
        at: u32,
        bytes: Vec<u8>,
        after: Vec<u8>,
    },
    /// A sync, and whether it was done.
    Syncing(bool),
    /// The bytes said lie from `start` on among all that were said.
    Saying {
        start: usize,
        count: usize,
    },
}

impl Call {
    ghost use Rattle.hl_mem.specs.Recorded.{call_of};

    /// Does the call again: on what a read gives, and on what a stop may leave.
    pub fn redo(&self, content: &mut [u8], image: &mut [u8], tear: Tear)
        requires fit { IsFit (length content.old) (call_of [] self.now) }
        requires same { length image.old ≡ length content.old }
        ensures { (said : List ℕ) (s : MachineState) → Shows tear s content.old image.old → Shows tear (ended s (call_of said self.now)) content.new image.new }
    {
        match self {
            Call::Writing { at, bytes } => redo_write(*at, bytes, bytes, content, image, tear),
            Call::FailedWriting { at, bytes, after } => {
                redo_write(*at, bytes, after, content, image, tear)
            }
            Call::Syncing(true) => image.copy_from_slice(content),
            _ => {}
        }
    }

    /// Begins the call again, on what a stop may leave.
    pub fn redo_begun(&self, image: &mut [u8], tear: Tear)
        requires fit { IsFit (length image.old) (call_of [] self.now) }
        ensures torn { (said : List ℕ) (s : MachineState) → IsTorn tear s image.old → IsTorn tear (begun s (call_of said self.now)) image.new }
        ensures may { (said : List ℕ) (s : MachineState) → MayLeave s (block_of image.old) → MayLeave (begun s (call_of said self.now)) (block_of image.new) }
    {
        match self {
            Call::Writing { at, bytes } => tear_write(*at, bytes, image, tear),
            Call::FailedWriting { at, bytes, .. } => tear_write(*at, bytes, image, tear),
            _ => {}
        }
    }
}

// Does a write again, torn as it is, on what a stop may leave.
fn tear_write(at: u32, bytes: &[u8], image: &mut [u8], tear: Tear)
    requires whole { IsWhole bytes.now }
    requires within { 4096 * at + length bytes.now ≤ length image.old }
    ensures outside { SameOutside at bytes.now image.old image.new }
    ensures torn { TearsWrite tear at bytes.now image.old image.new }
{
    let start = 4096 * (at as usize);
    leave(tear, &mut image[start..start + bytes.len()], bytes);
}

// Does a write again, on what a read gives and on what a stop may leave.
fn redo_write(at: u32, bytes: &[u8], after: &[u8], content: &mut [u8], image: &mut [u8], tear: Tear)
    requires fit { IsFit (length content.old) (Write at bytes.now after.now) }
    requires same { length image.old ≡ length content.old }
    ensures { (s : MachineState) → Shows tear s content.old image.old → Shows tear (ended s (Write at bytes.now after.now)) content.new image.new }
{
    tear_write(at, bytes, image, tear);
    let start = 4096 * (at as usize);
    content[start..start + after.len()].copy_from_slice(after);
}
