//! The slots of all volumes in one row, volume 0 first.

ghost use Rattle.std.specs.Prelude.{◌≡◌, ◌↔◌, ◌≤◌, All, IfNone, IfSome, IsTrue, length, sum, take};
ghost use Rattle.hl_addr.specs.Layout.{IsSlotCount};
ghost use Rattle.hl_addr.specs.Slots.{HasSlot, slot_number};

/// Whether each volume has a number of slots within the limits.
pub(crate) fn are_slot_counts(volumes: &[u32]) -> bool
    ensures { IsTrue result ↔ All IsSlotCount volumes.now }
{
    volumes.iter().all(|slots| 1 <= *slots && *slots <= 4096)
}

/// The slots of all volumes together.
pub(crate) fn slot_count(volumes: &[u32]) -> u32
    requires few { length volumes.now ≤ 32 }
    requires slots { All IsSlotCount volumes.now }
    ensures total { result ≡ sum volumes.now }
    ensures small { result ≤ 131072 }
{
    let mut count = 0;
    'volumes: for slots in volumes {
        count += *slots;
    }
    count
}

/// The slots of the volumes before one.
pub(crate) fn slots_before(volumes: &[u32], volume: u32) -> u32
    requires volume { volume ≤ length volumes.now }
    requires few { length volumes.now ≤ 32 }
    requires slots { All IsSlotCount volumes.now }
    ensures total { result ≡ sum (take volume volumes.now) }
    ensures small { result ≤ 131072 }
{
    slot_count(&volumes[..volume as usize])
}

/// The volume of a slot and its number there, by its number among all slots. It tries one volume
/// after the other.
pub(crate) fn slot_at(volumes: &[u32], number: u32) -> Option<(u32, u32)>
    requires { length volumes.now ≤ 32 }
    ensures found { IfSome result (λ at. HasSlot volumes.now at.0 at.1 × (slot_number volumes.now at.0 at.1 ≡ number)) }
    ensures past { IfNone result (sum volumes.now ≤ number) }
{
    let mut rest = number;
    let mut volume = 0;
    'volumes: for slots in volumes {
        if rest < *slots {
            return Some((volume, rest));
        }
        rest -= *slots;
        volume += 1;
    }
    None
}
