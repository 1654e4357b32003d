//! Whole segments of the log and lines of the disk, read and written as they are.

ghost use Rattle.std.specs.Prelude.{◌≡◌, ◌↔◌, ◌+◌, ◌*◌, ◌<◌, ◌≤◌, Contains, IsTrue, OnOk, length};
ghost use Rattle.hl_addr.specs.Layout.{IsWithinLimits};
ghost use Rattle.hl_image.specs.Places.{log_end};
ghost use Rattle.hl_media.specs.History.{Adds, DidSync, DidWrite, area};
ghost use Rattle.hl_media.specs.Moments.{Now, Runs};
ghost use Rattle.hl_media.specs.Causes.{HasCause};
ghost use Rattle.hl_log.specs.Logs.{OnlyReads, site_blocks, with_machine};
ghost use Rattle.hl_nodes.specs.Lines.{line_bytes, line_start};
ghost use Rattle.hl_store.specs.Values.{layout};
ghost use Rattle.hl_store.specs.Finding.{on_machine};
ghost use Rattle.hl_store.specs.LineWrites.{KeepsAllNodes, LastsOver, StaysOver, segment_bytes, segment_start};

use crate::store::Store;
use hl_addr::Geometry;
use hl_bytes::SegBuf;
use hl_log::Log;
use hl_media::{Failed, Machine};

/// The first block of a line.
fn line_start(geometry: &Geometry, line: u32) -> u32
    requires line { line < geometry.now.lines }
    requires limits { IsWithinLimits geometry.now }
    ensures value { result ≡ line_start geometry.now line }
    ensures behind { log_end geometry.now ≤ result }
    ensures within { result + geometry.now.k ≤ site_blocks geometry.now }
{
    geometry.k * (geometry.log + 1 + line)
}

/// The first block of a log segment.
fn segment_start(geometry: &Geometry, seg: u32) -> u32
    requires seg { seg ≤ geometry.now.log }
    requires limits { IsWithinLimits geometry.now }
    ensures value { result ≡ segment_start geometry.now seg }
    ensures within { result + geometry.now.k ≤ site_blocks geometry.now }
{
    geometry.k * seg
}

/// Reads the blocks of a segment, from `at` on.
fn load<M: Machine>(log: &mut Log<M>, at: u32, buf: &mut SegBuf) -> Result<(), Failed>
    requires within { at + log.old.geometry.k ≤ site_blocks log.old.geometry }
    requires size { length buf.old ≡ 4096 * log.old.geometry.k }
    ensures bytes { OnOk result (Now (M.history log.old.machine)
        (λ s. area s.content at log.old.geometry.k ≡ buf.new)) }
    ensures size { length buf.new ≡ length buf.old }
    ensures machine { OnlyReads M.history M.blocks M.faults M.write_faults M.say_faults
        log.old.machine log.new.machine }
    ensures fault { HasCause (M.faults log.old.machine) (M.faults log.new.machine) result }
    ensures same { log.new ≡ with_machine log.old log.new.machine }
{
    let k = log.geometry().k;
    let out = buf.part_mut(0, k);
    log.read(at, out)
}

impl<M: Machine> Store<M> {
    /// Reads a line's blocks. Where it fails the buffer may have any bytes.
    pub fn load_line(&mut self, line: u32, buf: &mut SegBuf) -> Result<(), Failed>
        requires line { line < (layout self.old).lines }
        requires size { length buf.old ≡ 4096 * (layout self.old).k }
        ensures bytes { OnOk result (Now (M.history self.old.log.machine)
            (λ s. line_bytes (layout self.old) s.content line ≡ buf.new)) }
        ensures size { length buf.new ≡ length buf.old }
        ensures machine { OnlyReads M.history M.blocks M.faults M.write_faults M.say_faults
            self.old.log.machine self.new.log.machine }
        ensures fault { HasCause (M.faults self.old.log.machine)
            (M.faults self.new.log.machine) result }
        ensures same { self.new ≡ on_machine self.old self.new.log.machine }
        ensures keeps { KeepsAllNodes self.old self.new }
    {
        let at = line_start(self.log.geometry(), line);
        load(&mut self.log, at, buf)
    }

    /// Reads a log segment's blocks. Where it fails the buffer may have any bytes.
    pub fn load_seg(&mut self, seg: u32, buf: &mut SegBuf) -> Result<(), Failed>
        requires low { 1 ≤ seg }
        requires high { seg ≤ (layout self.old).log }
        requires size { length buf.old ≡ 4096 * (layout self.old).k }
        ensures bytes { OnOk result (Now (M.history self.old.log.machine)
            (λ s. segment_bytes (layout self.old) s.content seg ≡ buf.new)) }
        ensures size { length buf.new ≡ length buf.old }
        ensures machine { OnlyReads M.history M.blocks M.faults M.write_faults M.say_faults
            self.old.log.machine self.new.log.machine }
        ensures fault { HasCause (M.faults self.old.log.machine)
            (M.faults self.new.log.machine) result }
        ensures same { self.new ≡ on_machine self.old self.new.log.machine }
        ensures keeps { KeepsAllNodes self.old self.new }
    {
        let at = segment_start(self.log.geometry(), seg);
        load(&mut self.log, at, buf)
    }

    /// Writes a line's blocks. They last once a `sync` has succeeded; until then, and where it fails, a stop may leave any
    /// bytes in them, and no other block changes. The nodes stay, and so does what a stop leaves of them.
    pub fn store_line(&mut self, line: u32, buf: &SegBuf) -> Result<(), Failed>
        requires line { line < (layout self.old).lines }
        requires size { length buf.now ≡ 4096 * (layout self.old).k }
        ensures did { let at = line_start (layout self.old) line in
            Adds (M.history self.old.log.machine) (M.history self.new.log.machine)
            (DidWrite at buf.now result) }
        ensures bytes { OnOk result (Now (M.history self.new.log.machine)
            (λ s. line_bytes (layout self.old) s.content line ≡ buf.now)) }
        ensures crash { Runs (M.history self.old.log.machine) (M.history self.new.log.machine)
            (LastsOver self.old) }
        ensures keeps { Runs (M.history self.old.log.machine) (M.history self.new.log.machine)
            (StaysOver self.old self.new) }
        ensures same { self.new ≡ on_machine self.old self.new.log.machine }
        ensures blocks { M.blocks self.new.log.machine ≡ M.blocks self.old.log.machine }
        ensures faults { HasCause (M.faults self.old.log.machine)
            (M.faults self.new.log.machine) result }
        ensures write_faults { HasCause (M.write_faults self.old.log.machine)
            (M.write_faults self.new.log.machine) result }
        ensures say_faults { M.say_faults self.new.log.machine ≡ M.say_faults self.old.log.machine }
    {
        let k = self.log.geometry().k;
        let at = line_start(self.log.geometry(), line);
        self.log.write(at, buf.part(0, k))
    }

    /// Makes all writes so far last. The nodes stay, and so does what a stop leaves of them.
    pub fn sync(&mut self) -> Result<(), Failed>
        ensures did { Adds (M.history self.old.log.machine) (M.history self.new.log.machine)
            (DidSync result) }
        ensures crash { Runs (M.history self.old.log.machine) (M.history self.new.log.machine)
            (LastsOver self.old) }
        ensures keeps { Runs (M.history self.old.log.machine) (M.history self.new.log.machine)
            (StaysOver self.old self.new) }
        ensures same { self.new ≡ on_machine self.old self.new.log.machine }
        ensures blocks { M.blocks self.new.log.machine ≡ M.blocks self.old.log.machine }
        ensures faults { HasCause (M.faults self.old.log.machine)
            (M.faults self.new.log.machine) result }
        ensures write_faults { HasCause (M.write_faults self.old.log.machine)
            (M.write_faults self.new.log.machine) result }
        ensures say_faults { M.say_faults self.new.log.machine ≡ M.say_faults self.old.log.machine }
    {
        self.log.sync()
    }

    /// Whether a log segment isn't among the clean ones. It walks these.
    pub fn used(&self, seg: u32) -> bool
        requires low { 1 ≤ seg }
        requires high { seg ≤ (layout self.now).log }
        ensures { IsTrue result ↔ ¬ Contains self.now.clean seg }
    {
        !self.clean().contains(&seg)
    }
}
