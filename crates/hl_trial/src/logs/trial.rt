//! A log of a site on a disk in memory, of which only images are seen.

ghost use Rattle.std.specs.Prelude.{◌≤◌};

use crate::logs::sites::{large, record, small};
use crate::logs::units::unit;
use crate::logs::writing::{chain_length, checkpoint, lose, newest_record, open_on, write, zeros};
use hl_addr::Geometry;
use hl_log::{Log, UnitAnswer};
use hl_mem::{MemMachine, Tear};
use std::alloc::{AllocError, Global};
use std::marker::Model;

/// A log that may be stopped at each moment. What is done with one through this trait sees nothing of its parts, so that
/// a proof doesn't carry them.
pub trait Stoppable {
    /// A log of the small site on a disk of zeros; none where no part may begin at the block.
    fn small(alloc: Global, block: u32) -> Result<Option<Self>, AllocError>;

    /// A log of the large site on a disk of zeros; none where no part may begin at the block.
    fn large(alloc: Global, block: u32) -> Result<Option<Self>, AllocError>;

    /// Writes a unit of so many data blocks that hold this byte, and so many changes; false where it isn't written.
    fn write(
        &mut self,
        alloc: Global,
        blocks: u32,
        byte: u8,
        changes: u32,
    ) -> Result<bool, AllocError>
        requires { blocks ≤ 1036 };

    /// Writes a checkpoint; false where it isn't written.
    fn checkpoint(&mut self, alloc: Global) -> Result<bool, AllocError>;

    /// The moment that it is.
    fn now(&self) -> u64;

    /// Goes on with the disk that a stop at a moment leaves with all that was written, but for the block that is lost: its
    /// log is opened at the end of its cut chain. False where the moment is to come.
    fn reopen(&mut self, alloc: Global, moment: u64, lost: Option<u32>) -> Result<bool, AllocError>;

    /// How many parts the cut chain has that a stop leaves; none where the moment is to come.
    fn parts(&self, alloc: Global, moment: u64, tear: Tear) -> Result<Option<usize>, AllocError>;

    /// The number of the newest record that a stop leaves, and how many parts its chain has; none where the moment is to
    /// come, or no record is there.
    fn newest(
        &self,
        alloc: Global,
        moment: u64,
        tear: Tear,
    ) -> Result<Option<(u64, usize)>, AllocError>;
}

/// A log that was opened at the end of its cut chain, whose start is a block of segment 1. Contracts see nothing of it.
#[derive(Drop)]
pub struct Trial {
    log: Log<MemMachine>,
    block: u32,
}

impl Model for Trial {
    ghost Value = { Unit {0} };

    ghost view = { λ _. tt };
}

impl Trial {
    fn fresh(alloc: Global, site: &Geometry, block: u32) -> Result<Option<Trial>, AllocError> {
        let image = zeros(alloc, site)?;
        match open_on(alloc, site, image.as_slice(), block)? {
            Some(log) => Ok(Some(Trial { log, block })),
            None => Ok(None),
        }
    }

    /// The log of the disk that a stop at a moment leaves with all that was written, but for the block that is lost.
    fn left(
        &self,
        alloc: Global,
        moment: u64,
        lost: Option<u32>,
    ) -> Result<Option<Log<MemMachine>>, AllocError> {
        let Some(mut image) = self.stopped(alloc, moment, Tear::New)? else {
            return Ok(None);
        };
        if let Some(block) = lost {
            lose(image.as_mut_slice(), block);
        }
        open_on(alloc, self.log.geometry(), image.as_slice(), self.block)
    }

    /// The disk that a stop at a moment may leave; none where the moment is to come.
    fn stopped(
        &self,
        alloc: Global,
        moment: u64,
        tear: Tear,
    ) -> Result<Option<Vec<u8>>, AllocError> {
        let machine = self.log.machine();
        if moment > machine.now() {
            return Ok(None);
        }
        Ok(Some(machine.stop_image(alloc, moment, tear)?))
    }
}

impl Stoppable for Trial {
    fn small(alloc: Global, block: u32) -> Result<Option<Trial>, AllocError> {
        let site = small(alloc)?;
        Trial::fresh(alloc, &site, block)
    }

    fn large(alloc: Global, block: u32) -> Result<Option<Trial>, AllocError> {
        let site = large(alloc)?;
        Trial::fresh(alloc, &site, block)
    }

    fn write(
        &mut self,
        alloc: Global,
        blocks: u32,
        byte: u8,
        changes: u32,
    ) -> Result<bool, AllocError> {
        let Some(unit) = unit(alloc, self.log.geometry(), blocks, byte, changes)? else {
            return Ok(false);
        };
        let answer = write(&mut self.log, &unit);
        Ok(matches!(answer, Some(UnitAnswer::Written { .. })))
    }

    fn checkpoint(&mut self, alloc: Global) -> Result<bool, AllocError> {
        let answer = checkpoint(alloc, &mut self.log)?;
        Ok(matches!(answer, Some(UnitAnswer::Written { .. })))
    }

    fn now(&self) -> u64 {
        self.log.machine().now()
    }

    fn reopen(
        &mut self,
        alloc: Global,
        moment: u64,
        lost: Option<u32>,
    ) -> Result<bool, AllocError> {
        match self.left(alloc, moment, lost)? {
            Some(log) => {
                self.log = log;
                Ok(true)
            }
            None => Ok(false),
        }
    }

    fn parts(&self, alloc: Global, moment: u64, tear: Tear) -> Result<Option<usize>, AllocError> {
        let rec = record(alloc, self.log.geometry(), self.block)?;
        match self.stopped(alloc, moment, tear)? {
            Some(image) => chain_length(alloc, self.log.geometry(), image.as_slice(), &rec),
            None => Ok(None),
        }
    }

    fn newest(
        &self,
        alloc: Global,
        moment: u64,
        tear: Tear,
    ) -> Result<Option<(u64, usize)>, AllocError> {
        let Some(image) = self.stopped(alloc, moment, tear)? else {
            return Ok(None);
        };
        let Some(rec) = newest_record(alloc, self.log.geometry(), image.as_slice())? else {
            return Ok(None);
        };
        match chain_length(alloc, self.log.geometry(), image.as_slice(), &rec)? {
            Some(count) => Ok(Some((rec.number, count))),
            None => Ok(None),
        }
    }
}
