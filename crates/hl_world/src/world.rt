//! A machine, and the files that it keeps.

ghost use Rattle.std.specs.Prelude.{ℕ, ◌≡◌, ◌≢◌, ◌≤◌, IsTrue, IfOk, OnOk, OnErr, Err};
ghost use Rattle.std.specs.Option.{ForSome};
ghost use Rattle.hl_media.specs.Causes.{HasCause, Rose};
ghost use Rattle.hl_media.specs.History.{Adds, DidSay, content};
ghost use Rattle.hl_media.specs.Moments.{Runs, Ends};
ghost use Rattle.hl_media.specs.Saying.{Says, SaysSome};
ghost use Rattle.hl_tree.specs.Rules.{Files};
ghost use Rattle.hl_disk.specs.Disks.{StandsFor};
ghost use Rattle.hl_disk.specs.Mounts.{Mounts};
ghost use Rattle.hl_disk.specs.Saves.{HasSaved, IsSaving};
ghost use Rattle.hl_world.specs.Worlds.{is_file_call, machine_of, mounted_of, why_of, MountsTo, Does, IsReady, KeepsDisk, SaysNothing, Syncs, device_part, answer_part};

use crate::calls;
use crate::fault::CloseFault;
use hl_disk::{MountError, SaveError, mount, save};
use hl_media::{Failed, Machine};
use hl_script::{Line, Said};
use hl_tree::{Call, PlainTree, Reply};
use std::alloc::Global;
use std::marker::Model;

/// A machine whose disk is mounted: its files in memory, the number under which they were last kept, and the time that its
/// last line was given, in seconds.
#[derive(Drop)]
pub struct World<M> {
    machine: M,
    files: PlainTree,
    number: u64,
    time: u64,
}

impl<M> Model for World<M> {
    ghost use Rattle.hl_world.specs.Worlds.{Standing, standing_code};

    ghost Value = { Standing M };

    ghost coded = { standing_code M.code };

    ghost view = { λ world. record { machine = world.machine; files = world.files; number = world.number; time = world.time } };
}

impl<M: Machine> World<M> {
    /// Mounts the machine's disk, by reading alone. It refuses, and hands the machine back, where the disk has no label
    /// or no record that checks, where a read failed, or for want of memory (`docs/FORMATS.md`, "The disk of two dumps").
    pub fn mount(alloc: Global, mut machine: M) -> Result<World<M>, (MountError, M)>
        requires room { 2112 ≤ M.blocks machine }
        ensures mounts { ForSome (M.history machine) (λ h. Mounts (M.blocks machine) (content h) (mounted_of result)) }
        ensures again { ForSome (M.history machine) (λ h. (number : ℕ) (tree : Files) → StandsFor (M.blocks machine) (content h) number tree → MountsTo number tree (mounted_of result)) }
        ensures ready { IfOk result IsReady }
        ensures reads { Runs (M.history machine) (M.history (machine_of result)) (λ first s. s ≡ first) }
        ensures fault { why_of result MountError.DiskFault → Rose (M.faults machine) (M.faults (machine_of result)) }
        ensures faults_later { M.faults machine ≤ M.faults (machine_of result) }
        ensures blocks { M.blocks (machine_of result) ≡ M.blocks machine }
        ensures write_faults { M.write_faults (machine_of result) ≡ M.write_faults machine }
        ensures say_faults { M.say_faults (machine_of result) ≡ M.say_faults machine }
    {
        match mount(alloc, &mut machine) {
            Ok(mounted) => Ok(World {
                machine,
                files: mounted.files,
                number: mounted.number,
                time: 0,
            }),
            Err(why) => Err((why, machine)),
        }
    }

    /// Does a file call at a time in seconds, and says nothing. It is answered by the file rules, or `NoSpace` where the dump after it
    /// would be longer than 4,194,304 bytes and longer than before. `Sync` keeps the files on the disk, and is answered
    /// `Eio` where a write or a sync failed. Want of memory changes no file.
    pub fn line(&mut self, alloc: Global, line: &Line, now: u64) -> Said
        requires call { IsTrue (is_file_call line.now) }
        requires room { 2112 ≤ M.blocks self.old.machine }
        requires ready { IsReady self.old }
        ensures ready { IsReady self.new }
        ensures done { result ≢ Said.Memory → Does self.old.files line.now result self.new.files }
        ensures memory { result ≡ Said.Memory → self.new.files ≡ self.old.files }
        ensures disk { KeepsDisk (M.blocks self.old.machine) self.old.number self.old.files line.now result (M.history self.old.machine) (M.history self.new.machine) self.new.number }
        ensures saving { Runs (M.history self.old.machine) (M.history self.new.machine) (IsSaving (M.blocks self.old.machine) self.old.number self.old.files.tree) }
        ensures faults { HasCause (M.faults self.old.machine) (M.faults self.new.machine) (answer_part result) }
        ensures write_faults { HasCause (M.write_faults self.old.machine) (M.write_faults self.new.machine) (answer_part result) }
        ensures silent { SaysNothing (M.history self.old.machine) (M.history self.new.machine) }
        ensures time { self.new.time ≡ now }
        ensures blocks { M.blocks self.new.machine ≡ M.blocks self.old.machine }
        ensures say_faults { M.say_faults self.new.machine ≡ M.say_faults self.old.machine }
    {
        self.time = now;
        let Line::File(call) = line else {
            unreachable!()
        };
        match call {
            Call::Sync => match self.sync(alloc) {
                Ok(()) => Said::Reply(Reply::Ok),
                Err(CloseFault::Disk) => Said::Eio,
                Err(CloseFault::Memory) => Said::Memory,
            },
            call => calls::call(&mut self.files, alloc, call),
        }
    }

    /// Keeps the files on the disk under the next number. A number that has no next one wants memory.
    #[tactic(auto, using(crate::proofs::Silence::says_nothing))]
    fn sync(&mut self, alloc: Global) -> Result<(), CloseFault>
        requires room { 2112 ≤ M.blocks self.old.machine }
        requires ready { IsReady self.old }
        ensures ready { IsReady self.new }
        ensures files { self.new.files ≡ self.old.files }
        ensures saving { Runs (M.history self.old.machine) (M.history self.new.machine) (IsSaving (M.blocks self.old.machine) self.old.number self.old.files.tree) }
        ensures syncs { Syncs (M.blocks self.old.machine) self.old.number self.old.files.tree (M.history self.old.machine) (M.history self.new.machine) self.new.number result }
        ensures faults { HasCause (M.faults self.old.machine) (M.faults self.new.machine) (device_part result) }
        ensures write_faults { HasCause (M.write_faults self.old.machine) (M.write_faults self.new.machine) (device_part result) }
        ensures silent { SaysNothing (M.history self.old.machine) (M.history self.new.machine) }
        ensures time { self.new.time ≡ self.old.time }
        ensures blocks { M.blocks self.new.machine ≡ M.blocks self.old.machine }
        ensures say_faults { M.say_faults self.new.machine ≡ M.say_faults self.old.machine }
    {
        if self.number == u64::MAX {
            return Err(CloseFault::Memory);
        }
        match save(alloc, &mut self.machine, self.number, &self.files) {
            Ok(()) => {
                self.number += 1;
                Ok(())
            }
            Err(SaveError::Disk) => Err(CloseFault::Disk),
            Err(SaveError::Memory) => Err(CloseFault::Memory),
        }
    }

    /// Keeps the files on the disk, as `Sync` does, and hands the machine back.
    pub fn close(mut self, alloc: Global) -> (Result<(), CloseFault>, M)
        requires room { 2112 ≤ M.blocks self.machine }
        requires ready { IsReady self }
        ensures saved { OnOk result.0 (Ends (M.history self.machine) (M.history result.1) (HasSaved (M.blocks self.machine) self.number self.files.tree)) }
        ensures saving { Runs (M.history self.machine) (M.history result.1) (IsSaving (M.blocks self.machine) self.number self.files.tree) }
        ensures faults { HasCause (M.faults self.machine) (M.faults result.1) (device_part result.0) }
        ensures write_faults { HasCause (M.write_faults self.machine) (M.write_faults result.1) (device_part result.0) }
        ensures silent { SaysNothing (M.history self.machine) (M.history result.1) }
        ensures blocks { M.blocks result.1 ≡ M.blocks self.machine }
        ensures say_faults { M.say_faults result.1 ≡ M.say_faults self.machine }
    {
        let closed = self.sync(alloc);
        (closed, self.machine)
    }

    /// Says bytes on the machine. Where it fails, some first part of them is said.
    pub fn say(&mut self, bytes: &[u8]) -> Result<(), Failed>
        ensures did { Adds (M.history self.old.machine) (M.history self.new.machine) (DidSay bytes.now result) }
        ensures whole { OnOk result (Says (M.history self.old.machine) (M.history self.new.machine) bytes.now) }
        ensures part { OnErr result (SaysSome (M.history self.old.machine) (M.history self.new.machine) bytes.now) }
        ensures files { self.new.files ≡ self.old.files }
        ensures number { self.new.number ≡ self.old.number }
        ensures time { self.new.time ≡ self.old.time }
        ensures blocks { M.blocks self.new.machine ≡ M.blocks self.old.machine }
        ensures faults { M.faults self.new.machine ≡ M.faults self.old.machine }
        ensures write_faults { M.write_faults self.new.machine ≡ M.write_faults self.old.machine }
        ensures say_faults { HasCause (M.say_faults self.old.machine) (M.say_faults self.new.machine) result }
    {
        self.machine.say(bytes)
    }
}

impl<M> World<M> {
    /// Hands the machine back as it is, and calls no device.
    pub fn leave(self) -> M
        ensures { result ≡ self.machine }
    {
        self.machine
    }
}
