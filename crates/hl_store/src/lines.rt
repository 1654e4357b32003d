//! What each line of the disk holds, as the store changes it. No node changes by that.

ghost use Rattle.std.specs.Prelude.{◌≡◌, ◌<◌, true, OnErr, OnOk, length};
ghost use Rattle.hl_lines.specs.Lines.{is_aside, is_staging};
ghost use Rattle.hl_lines.specs.LineTable.{MayBeReleased, MayBeStaged, MayBeTaken, NoOther, state_at};
ghost use Rattle.hl_lines.specs.LineTable.{with_aside, with_bound, with_empty, with_homed, with_staged};
ghost use Rattle.hl_lines.specs.LineTable.{with_stuck, with_touched, with_unstuck};
ghost use Rattle.hl_store.specs.LineWrites.{ChangesLines, KeepsAllNodes};

use crate::store::Store;
use hl_media::Machine;
use std::alloc::AllocError;

impl<M: Machine> Store<M> {
    /// Says that a segment is used. Where its line is clean it becomes the most recently used.
    pub fn touch_line(&mut self, tseg: u32)
        ensures lines { self.new.lines ≡ with_touched self.old.lines tseg }
        ensures same { ChangesLines self.old self.new }
        ensures keeps { KeepsAllNodes self.old self.new }
    {
        self.lines.touch(tseg);
    }

    /// A line that was set aside holds a segment, which its volume has too. It is the most recently used. Nothing changes
    /// where memory is wanted.
    pub fn bind_line(&mut self, tseg: u32, line: u32) -> Result<(), AllocError>
        requires aside { is_aside (state_at self.old.lines line) ≡ true }
        requires free { NoOther self.old.lines line tseg }
        ensures bound { OnOk result (self.new.lines ≡ with_bound self.old.lines tseg line) }
        ensures err { OnErr result (self.new ≡ self.old) }
        ensures same { ChangesLines self.old self.new }
        ensures keeps { KeepsAllNodes self.old self.new }
    {
        self.lines.bind(tseg, line)
    }

    /// A line is written for a segment that no volume has yet.
    pub fn stage_line(&mut self, tseg: u32, line: u32)
        requires there { line < length self.old.lines.states }
        requires may { MayBeStaged (state_at self.old.lines line) }
        requires free { NoOther self.old.lines line tseg }
        ensures lines { self.new.lines ≡ with_staged self.old.lines tseg line }
        ensures same { ChangesLines self.old self.new }
        ensures keeps { KeepsAllNodes self.old self.new }
    {
        self.lines.stage(tseg, line);
    }

    /// A staging line's segment has come to its volume, and is the most recently used. Nothing changes where memory is
    /// wanted.
    pub fn home_line(&mut self, line: u32) -> Result<(), AllocError>
        requires { is_staging (state_at self.old.lines line) ≡ true }
        ensures home { OnOk result (self.new.lines ≡ with_homed self.old.lines line) }
        ensures err { OnErr result (self.new ≡ self.old) }
        ensures same { ChangesLines self.old self.new }
        ensures keeps { KeepsAllNodes self.old self.new }
    {
        self.lines.home(line)
    }

    /// A line is set aside for a segment that is to be fetched.
    pub fn set_line_aside(&mut self, line: u32)
        requires there { line < length self.old.lines.states }
        requires may { MayBeTaken (state_at self.old.lines line) }
        ensures lines { self.new.lines ≡ with_aside self.old.lines line }
        ensures same { ChangesLines self.old self.new }
        ensures keeps { KeepsAllNodes self.old self.new }
    {
        self.lines.job(line);
    }

    /// A line is empty from now on.
    pub fn release_line(&mut self, line: u32)
        requires { MayBeReleased (state_at self.old.lines line) }
        ensures lines { self.new.lines ≡ with_empty self.old.lines line }
        ensures same { ChangesLines self.old self.new }
        ensures keeps { KeepsAllNodes self.old self.new }
    {
        self.lines.release(line);
    }

    /// A staging line's segment finds no slot.
    pub fn stick_line(&mut self, line: u32)
        requires { is_staging (state_at self.old.lines line) ≡ true }
        ensures lines { self.new.lines ≡ with_stuck self.old.lines line }
        ensures same { ChangesLines self.old self.new }
        ensures keeps { KeepsAllNodes self.old self.new }
    {
        self.lines.stick(line);
    }

    /// Each segment that found no slot may try again. It walks the lines.
    pub fn unstick_lines(&mut self)
        ensures lines { self.new.lines ≡ with_unstuck self.old.lines }
        ensures same { ChangesLines self.old self.new }
        ensures keeps { KeepsAllNodes self.old self.new }
    {
        self.lines.unstick();
    }
}
