//! The volumes of a jukebox.

ghost use Rattle.std.specs.Prelude.{◌≡◌, ◌<◌, ◌^◌, [], length, IfOk, IfErr, map, option_map, slice_index};
ghost use Rattle.std.specs.Vec.{vec_capacity};
ghost use Rattle.hl_media.specs.Racks.{volume_at, volume_in, rack_slots, loaded_at, emptied, filled};
ghost use Rattle.hl_media.specs.declared.bay.Bay.TheVariants.{Holds};

use crate::bay::Bay;
use crate::loaded::Loaded;
use crate::volume::Volume;
use std::alloc::{AllocError, Global};
use std::marker::Model;
use std::mem;

/// The volumes of a jukebox by their numbers, from 0 on. It knows the slots of a volume that is out too.
#[derive(Drop)]
pub struct Rack<V> {
    bays: Vec<Bay<V>>,
}

impl<V> Model for Rack<V> {
    ghost use Rattle.std.specs.Prelude.{List, ◌<◌, ◌^◌, length};
    ghost use Rattle.hl_media.specs.declared.bay.Bay.{Bay};

    ghost Value = { List (Bay V) };

    ghost view = { λ rack. rack.bays.items };

    ghost invariant = { λ rack. length rack.bays.items < 2 ^ 32 };
}

impl<V> Rack<V> {
    /// How many volumes belong to the rack.
    pub fn count(&self) -> u32
        ensures { result ≡ length self.now }
    {
        self.bays.as_slice().len() as u32
    }
}

impl<V: Drop> Rack<V> {
    /// A rack that has all of these volumes in their places. A refusal for want of memory hands them back.
    pub fn new(alloc: Global, volumes: Vec<V>) -> Result<Rack<V>, (AllocError, Vec<V>)>
        requires { length volumes.items < 2 ^ 32 }
        ensures rack { IfOk result (λ rack. rack ≡ map Holds volumes.items) }
        ensures back { IfErr result (λ refused. refused.1 ≡ volumes) }
    {
        match Vec::with_capacity(alloc, volumes.len()) {
            Ok(bays) => Ok(Rack {
                bays: housed(bays, volumes),
            }),
            Err(error) => Err((error, volumes)),
        }
    }
}

// Puts each volume into a place of its own, for all of which there is room.
fn housed<V: Drop>(mut bays: Vec<Bay<V>>, volumes: Vec<V>) -> Vec<Bay<V>>
    requires none { bays.items ≡ [] }
    requires room { vec_capacity bays ≡ length volumes.items }
    ensures { result.items ≡ map Holds volumes.items }
{
    'house: for volume in volumes {
        bays.push_reserved(Bay::Holds(volume));
    }
    bays
}

// The volume of a place, if it is in it, with its number.
fn loaded_from<V>(number: u32, bay: Bay<V>) -> Option<Loaded<V>>
    ensures { result ≡ option_map (λ volume. record { number = number; volume = volume }) (volume_in bay) }
{
    match bay {
        Bay::Holds(volume) => Some(Loaded { number, volume }),
        Bay::Empty { .. } => None,
    }
}

impl<V: Volume> Rack<V> {
    /// How many slots the volume of this number has, in its place or out of it.
    pub fn slots(&self, n: u32) -> u32
        requires { n < length self.now }
        ensures { result ≡ slice_index (rack_slots V.slots self.now) n }
    {
        match &self.bays.as_slice()[n as usize] {
            Bay::Holds(volume) => volume.slots(),
            Bay::Empty { slots } => *slots,
        }
    }

    /// Takes the volume of this number out; none where it is out already.
    pub fn take(&mut self, n: u32) -> Option<Loaded<V>>
        requires { n < length self.old }
        ensures taken { result ≡ loaded_at self.old n }
        ensures left { self.new ≡ emptied V.slots self.old n }
    {
        let slots = self.slots(n);
        let bay = mem::replace(&mut self.bays[n as usize], Bay::Empty { slots });
        loaded_from(n, bay)
    }

    /// Puts a volume back into its place, which is empty.
    pub fn give(&mut self, loaded: Loaded<V>)
        requires there { loaded.number < length self.old }
        requires out { volume_at self.old loaded.number ≡ None }
        requires slots { V.slots loaded.volume ≡ slice_index (rack_slots V.slots self.old) loaded.number }
        ensures { self.new ≡ filled self.old loaded }
    {
        let Loaded { number, volume } = loaded;
        match mem::replace(&mut self.bays[number as usize], Bay::Holds(volume)) {
            Bay::Empty { .. } => {}
            Bay::Holds(_) => unreachable!(),
        }
    }
}
