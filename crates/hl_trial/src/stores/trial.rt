//! A store of a site on a disk in memory, of which only answers and images are seen.

use crate::stores::first::{First, HOME, image_of};
use crate::stores::lines::{bind_line, load_line, set_line_aside, store_line};
use crate::stores::model::PlainNode;
use crate::stores::mounts::{has_log, open_on, open_over};
use crate::stores::nodes::{free, is_number, make, make_cut_and_grown};
use crate::stores::sites::Site;
use crate::stores::units::{checkpoint, note};
use hl_bytes::{BLOCK, SegBuf, TableRecord};
use hl_found::{ShelfSegment, contents_of, files_of, is_sound};
use hl_log::UnitAnswer;
use hl_media::Failed;
use hl_mem::{MemMachine, Tear};
use hl_nodes::FoundNode;
use hl_store::{Found, NodeFound, Placed, Prepared, Store};
use hl_tree::PlainTree;
use hl_tseg::Slot;
use std::alloc::{AllocError, Global};
use std::marker::Model;

/// What a store counts.
#[derive(Clone, Copy, Debug, PartialEq, Eq)]
pub struct Counted {
    pub charge: u32,
    pub lowest_free: Option<u32>,
    pub dirty: u32,
    pub clean: u32,
}

/// A store that may be stopped at each moment. What is done with one through this trait sees nothing of its parts, so that
/// a proof doesn't carry them. A number, a segment or a line that the site doesn't have is answered by none.
pub trait Stored {
    /// A store on a first image of a site, of which the device calls of these numbers fail, counted from 1; none where the
    /// image has no contents.
    fn first(
        alloc: Global,
        site: Site,
        first: First,
        failing: &[u64],
    ) -> Result<Option<Self>, AllocError>;

    /// A second store, on a machine of its own, opened on what reads give; none where that has no contents.
    fn again(&self, alloc: Global, failing: &[u64]) -> Result<Option<Self>, AllocError>;

    /// A second store, on a machine of its own, opened on what a stop leaves; none where the moment is to come, or what a
    /// stop leaves has no contents.
    fn after_stop(
        &self,
        alloc: Global,
        moment: u64,
        tear: Tear,
    ) -> Result<Option<Self>, AllocError>;

    /// A second store on the machine that this one gives back, opened on what reads give; none where that has no contents.
    fn reopened(self, alloc: Global) -> Result<Option<Self>, AllocError>;

    /// Gives a number a node in place of what it has.
    fn make(&mut self, alloc: Global, ino: u32, node: &PlainNode) -> Option<Prepared>;

    /// Gives a number a file, which is then cut to a size and grown to another.
    fn make_cut_and_grown(
        &mut self,
        alloc: Global,
        ino: u32,
        file: &PlainNode,
        sizes: [u64; 2],
    ) -> Option<Prepared>;

    fn free(&mut self, alloc: Global, ino: u32) -> Option<Prepared>;

    /// Sets the last use of a number; false where no node may have it.
    fn touch(&mut self, ino: u32, now: u64) -> bool;

    fn release(&mut self);

    fn flush(&mut self, alloc: Global) -> UnitAnswer;

    /// Flushes what is dirty or noted, and then writes a checkpoint.
    fn checkpoint(&mut self, alloc: Global) -> UnitAnswer;

    fn reserve(&mut self, alloc: Global, tables: u32) -> Prepared;

    /// Notes a change of a slot or a volume; none where it is no such change of the site.
    fn note(&mut self, change: TableRecord) -> Option<Result<(), AllocError>>;

    fn slot(&self, tseg: u32) -> Option<Slot>;

    /// Whether a volume is full.
    fn is_full(&self, volume: u32) -> Option<bool>;

    /// Reads a line; none also where the buffer isn't as long as one.
    fn load_line(&mut self, line: u32, buf: &mut SegBuf) -> Option<Result<(), Failed>>;

    /// Writes a line; none also where the buffer isn't as long as one.
    fn store_line(&mut self, line: u32, buf: &SegBuf) -> Option<Result<(), Failed>>;

    fn sync(&mut self) -> Result<(), Failed>;

    /// Sets the line that is to go next aside; none where none may go.
    fn set_line_aside(&mut self) -> Option<u32>;

    /// Gives a line that was set aside to a segment; none where it wasn't, or another line has the segment.
    fn bind_line(&mut self, tseg: u32, line: u32) -> Option<Result<(), AllocError>>;

    fn node(&mut self, alloc: Global, ino: u32) -> Option<NodeFound>;

    fn block(&mut self, alloc: Global, ino: u32, i: u32, out: &mut [u8; BLOCK]) -> Option<Found>;

    fn place(&mut self, alloc: Global, ino: u32, i: u32) -> Option<Placed>;

    fn counted(&self) -> Counted;

    /// The number of live blocks of a log segment; none where the log has no such segment.
    fn live(&self, seg: u32) -> Option<u32>;

    /// The log segment of the log's head.
    fn head(&self) -> u32;

    /// The moment that it is.
    fn now(&self) -> u64;

    /// The disk that a stop leaves; none where the moment is to come.
    fn image(&self, alloc: Global, moment: u64, tear: Tear) -> Result<Option<Vec<u8>>, AllocError>;

    /// The nodes of what a stop leaves, by their numbers from 0 on; none where the moment is to come, or what a stop leaves
    /// has no contents, or none that are sound.
    fn nodes(
        &self,
        alloc: Global,
        moment: u64,
        tear: Tear,
    ) -> Result<Option<Vec<Option<FoundNode>>>, AllocError>;

    /// The files of what a stop leaves, with the segment of a first image that is home; none where the moment is to come, or
    /// it has none.
    fn files(
        &self,
        alloc: Global,
        moment: u64,
        tear: Tear,
    ) -> Result<Option<PlainTree>, AllocError>;
}

/// A store. Contracts see nothing of it.
#[derive(Drop)]
pub struct Trial {
    store: Store<MemMachine>,
}

impl Model for Trial {
    ghost Value = { Unit {0} };

    ghost view = { λ _. tt };
}

/// The segment of a first image that is home.
fn shelf_of(alloc: Global, k: u32) -> Result<ShelfSegment, AllocError> {
    let segment = HOME.sealed(alloc, k)?;
    Ok(ShelfSegment {
        serial: HOME.serial,
        bytes: segment.part(0, segment.blocks()).to_vec(alloc)?,
    })
}

/// A store that was opened, if one was.
fn trial_of(store: Option<Store<MemMachine>>) -> Option<Trial> {
    match store {
        Some(store) => Some(Trial { store }),
        None => None,
    }
}

impl Stored for Trial {
    fn first(
        alloc: Global,
        site: Site,
        first: First,
        failing: &[u64],
    ) -> Result<Option<Trial>, AllocError> {
        let site = site.geometry(alloc)?;
        let image = image_of(alloc, &site, first)?;
        Ok(trial_of(open_on(alloc, &site, image.as_slice(), failing)?))
    }

    fn again(&self, alloc: Global, failing: &[u64]) -> Result<Option<Trial>, AllocError> {
        let Some(image) = self.image(alloc, self.now(), Tear::New)? else {
            return Ok(None);
        };
        let site = self.store.geometry();
        Ok(trial_of(open_on(alloc, site, image.as_slice(), failing)?))
    }

    fn after_stop(
        &self,
        alloc: Global,
        moment: u64,
        tear: Tear,
    ) -> Result<Option<Trial>, AllocError> {
        let Some(image) = self.image(alloc, moment, tear)? else {
            return Ok(None);
        };
        let site = self.store.geometry();
        Ok(trial_of(open_on(alloc, site, image.as_slice(), &[])?))
    }

    fn reopened(self, alloc: Global) -> Result<Option<Trial>, AllocError> {
        let Some(image) = self.image(alloc, self.now(), Tear::New)? else {
            return Ok(None);
        };
        let site = self.store.geometry().copy(alloc)?;
        let machine = self.store.into_machine();
        Ok(trial_of(open_over(alloc, &site, image.as_slice(), machine)?))
    }

    fn make(&mut self, alloc: Global, ino: u32, node: &PlainNode) -> Option<Prepared> {
        make(&mut self.store, alloc, ino, node)
    }

    fn make_cut_and_grown(
        &mut self,
        alloc: Global,
        ino: u32,
        file: &PlainNode,
        sizes: [u64; 2],
    ) -> Option<Prepared> {
        make_cut_and_grown(&mut self.store, alloc, ino, file, sizes)
    }

    fn free(&mut self, alloc: Global, ino: u32) -> Option<Prepared> {
        free(&mut self.store, alloc, ino)
    }

    fn touch(&mut self, ino: u32, now: u64) -> bool {
        if !is_number(&self.store, ino) {
            return false;
        }
        self.store.touch(ino, now);
        true
    }

    fn release(&mut self) {
        self.store.release();
    }

    fn flush(&mut self, alloc: Global) -> UnitAnswer {
        self.store.flush(alloc)
    }

    fn checkpoint(&mut self, alloc: Global) -> UnitAnswer {
        checkpoint(&mut self.store, alloc)
    }

    fn reserve(&mut self, alloc: Global, tables: u32) -> Prepared {
        self.store.reserve(alloc, tables)
    }

    fn note(&mut self, change: TableRecord) -> Option<Result<(), AllocError>> {
        note(&mut self.store, change)
    }

    fn slot(&self, tseg: u32) -> Option<Slot> {
        self.store.slots().items().get(tseg as usize).copied()
    }

    fn is_full(&self, volume: u32) -> Option<bool> {
        self.store.slots().full().get(volume as usize).copied()
    }

    fn load_line(&mut self, line: u32, buf: &mut SegBuf) -> Option<Result<(), Failed>> {
        load_line(&mut self.store, line, buf)
    }

    fn store_line(&mut self, line: u32, buf: &SegBuf) -> Option<Result<(), Failed>> {
        store_line(&mut self.store, line, buf)
    }

    fn sync(&mut self) -> Result<(), Failed> {
        self.store.sync()
    }

    fn set_line_aside(&mut self) -> Option<u32> {
        set_line_aside(&mut self.store)
    }

    fn bind_line(&mut self, tseg: u32, line: u32) -> Option<Result<(), AllocError>> {
        bind_line(&mut self.store, tseg, line)
    }

    fn node(&mut self, alloc: Global, ino: u32) -> Option<NodeFound> {
        if !is_number(&self.store, ino) {
            return None;
        }
        Some(self.store.node(alloc, ino))
    }

    fn block(&mut self, alloc: Global, ino: u32, i: u32, out: &mut [u8; BLOCK]) -> Option<Found> {
        if !is_number(&self.store, ino) {
            return None;
        }
        Some(self.store.block(alloc, ino, i, out))
    }

    fn place(&mut self, alloc: Global, ino: u32, i: u32) -> Option<Placed> {
        if !is_number(&self.store, ino) {
            return None;
        }
        Some(self.store.place(alloc, ino, i))
    }

    fn counted(&self) -> Counted {
        Counted {
            charge: self.store.charge(),
            lowest_free: self.store.lowest_free(),
            dirty: self.store.dirty(),
            clean: self.store.clean_count(),
        }
    }

    fn live(&self, seg: u32) -> Option<u32> {
        if seg < 1 || self.store.geometry().log < seg {
            return None;
        }
        Some(self.store.live(seg))
    }

    fn head(&self) -> u32 {
        self.store.head()
    }

    fn now(&self) -> u64 {
        self.store.machine().now()
    }

    fn image(&self, alloc: Global, moment: u64, tear: Tear) -> Result<Option<Vec<u8>>, AllocError> {
        let machine = self.store.machine();
        if moment > machine.now() {
            return Ok(None);
        }
        Ok(Some(machine.stop_image(alloc, moment, tear)?))
    }

    fn nodes(
        &self,
        alloc: Global,
        moment: u64,
        tear: Tear,
    ) -> Result<Option<Vec<Option<FoundNode>>>, AllocError> {
        let site = self.store.geometry();
        let Some(image) = self.image(alloc, moment, tear)? else {
            return Ok(None);
        };
        if !has_log(site, image.as_slice()) {
            return Ok(None);
        }
        let Some(found) = contents_of(alloc, image.as_slice(), site)? else {
            return Ok(None);
        };
        if !is_sound(alloc, image.as_slice(), site, &found)? {
            return Ok(None);
        }
        let nodes = found.nodes;
        Ok(Some(nodes))
    }

    fn files(
        &self,
        alloc: Global,
        moment: u64,
        tear: Tear,
    ) -> Result<Option<PlainTree>, AllocError> {
        let Some(image) = self.image(alloc, moment, tear)? else {
            return Ok(None);
        };
        if image.len() >= 1 << 44 {
            return Ok(None);
        }
        let site = self.store.geometry();
        let home = shelf_of(alloc, site.k)?;
        let shelf = vec![in alloc; home]?;
        files_of(alloc, image.as_slice(), site, shelf.as_slice())
    }
}
