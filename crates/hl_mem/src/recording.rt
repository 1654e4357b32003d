//! The recording of a machine's calls.

ghost use Rattle.std.specs.Prelude.{◌≡◌, ◌<◌, ◌≤◌, ◌*◌, ◌^◌, [], length, IfOk, OnErr, All};
ghost use Rattle.hl_bytes.specs.Buffers.{block_of};
ghost use Rattle.hl_media.specs.History.{MayLeave, opened, state_at};
ghost use Rattle.hl_media.specs.History.DeviceCall.{Read, Write, Sync, Say};
ghost use Rattle.hl_mem.specs.Recorded.{Says, AddsCall, IsQuiet, call_of};
ghost use Rattle.hl_mem.specs.Kept.{IsFit};
ghost use Rattle.hl_mem.specs.Tears.{IsTorn};

use crate::call::Call;
use crate::tear::Tear;
use std::alloc::{AllocError, Global};
use std::marker::Model;

/// The calls of a machine, the first of them first, and the bytes that it has said.
#[derive(Drop)]
pub struct Recording {
    said: Vec<u8>,
    calls: Vec<Call>,
}

impl Model for Recording {
    ghost use Rattle.std.specs.Prelude.{List};
    ghost use Rattle.hl_media.specs.History.{DeviceCall};

    ghost Value = { List DeviceCall };

    ghost use Rattle.hl_mem.specs.Recorded.{calls_of, IsRecorded};

    ghost view = { λ recording. calls_of recording.said.items recording.calls.items };

    ghost invariant = { λ recording. IsRecorded recording.said.items recording.calls.items };
}

impl Recording {
    /// No call was made.
    pub fn new(alloc: Global) -> Recording
        ensures { result ≡ [] }
    {
        Recording {
            said: Vec::new(alloc),
            calls: Vec::new(alloc),
        }
    }

    /// How many calls were made.
    pub fn len(&self) -> usize
        ensures count { result ≡ length self.now }
        ensures small { result < 2 ^ 63 }
    {
        self.calls.len()
    }

    /// The bytes said so far.
    pub fn said(&self) -> &[u8]
        ensures { Says self.now result.now }
    {
        self.said.as_slice()
    }

    // Adds a call that says nothing.
    fn add(&mut self, call: Call) -> Result<(), AllocError>
        requires { IsQuiet call }
        ensures { AddsCall result self.old self.new (call_of [] call) }
    {
        self.calls.push(call)?;
        Ok(())
    }

    /// Adds a read.
    pub fn add_read(&mut self) -> Result<(), AllocError>
        ensures { AddsCall result self.old self.new Read }
    {
        self.add(Call::Reading)
    }

    /// Adds a write that was done.
    pub fn add_write(&mut self, alloc: Global, at: u32, bytes: &[u8]) -> Result<(), AllocError>
        ensures { AddsCall result self.old self.new (Write at bytes.now bytes.now) }
    {
        let bytes = bytes.to_vec(alloc)?;
        self.add(Call::Writing { at, bytes })
    }

    /// Adds a write that failed, and left `after` in its place.
    pub fn add_failed_write(
        &mut self,
        alloc: Global,
        at: u32,
        bytes: &[u8],
        after: &[u8],
    ) -> Result<(), AllocError>
        ensures { AddsCall result self.old self.new (Write at bytes.now after.now) }
    {
        let bytes = bytes.to_vec(alloc)?;
        let after = after.to_vec(alloc)?;
        self.add(Call::FailedWriting { at, bytes, after })
    }

    /// Adds a sync that was done, or failed.
    pub fn add_sync(&mut self, succeeded: bool) -> Result<(), AllocError>
        ensures { AddsCall result self.old self.new (Sync succeeded) }
    {
        self.add(Call::Syncing(succeeded))
    }

    /// Adds what was said.
    pub fn add_say(&mut self, bytes: &[u8]) -> Result<(), AllocError>
        ensures { AddsCall result self.old self.new (Say bytes.now) }
    {
        let start = self.said.len();
        let count = bytes.len();
        self.calls.reserve(1)?;
        self.said.extend_from_slice(bytes)?;
        self.calls.push_reserved(Call::Saying { start, count });
        Ok(())
    }

    /// The disk that a stop at this moment may leave, if `opening` was on it at first.
    pub fn stop_image(
        &self,
        alloc: Global,
        opening: &[u8],
        moment: u64,
        tear: Tear,
    ) -> Result<Vec<u8>, AllocError>
        requires fit { All (IsFit (length opening.now)) self.now }
        requires past { moment ≤ 2 * length self.now }
        ensures image { IfOk result (λ image. MayLeave (state_at (opened (record { opening = block_of opening.now; calls = [] })) self.now moment) (block_of image.items)) }
        ensures torn { IfOk result (λ image. IsTorn tear (state_at (opened (record { opening = block_of opening.now; calls = [] })) self.now moment) image.items) }
        ensures size { IfOk result (λ image. length image.items ≡ length opening.now) }
    {
        let done = (moment / 2) as usize;
        let mut content = opening.to_vec(alloc)?;
        let mut image = opening.to_vec(alloc)?;
        for call in &self.calls[..done] {
            call.redo(content.as_mut_slice(), image.as_mut_slice(), tear);
        }
        if moment % 2 == 0 {
            return Ok(image);
        }
        self.calls[done].redo_begun(image.as_mut_slice(), tear);
        Ok(image)
    }
}
