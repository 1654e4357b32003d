//! Whether devices have room for a site.

ghost use Rattle.std.specs.Prelude.{◌≡◌, ◌≤◌, IfNone, IfSome, length};
ghost use Rattle.hl_site.specs.Devices.{IsFirstDifference, TellsWhether};

use crate::error::SiteError;
use hl_addr::Geometry;

/// Whether a machine of so many blocks and a rack whose volumes have these slots are those of the
/// site. `TooSmall`, with the blocks that the site needs, comes before `OtherRack`, with the first
/// volume whose slots differ or that is on one side alone. A machine may have more blocks.
pub fn fits(geometry: &Geometry, blocks: u32, rack: &[u32]) -> Result<(), SiteError>
    ensures { TellsWhether geometry.now blocks rack.now result }
{
    let needed = (1 + geometry.log + geometry.lines) * geometry.k;
    if blocks < needed {
        return Err(SiteError::TooSmall(needed));
    }
    match first_difference(geometry.volumes.items(), rack) {
        Some(volume) => Err(SiteError::OtherRack(volume)),
        None => Ok(()),
    }
}

/// The first place at which the lists differ, or that one has alone.
fn first_difference(volumes: &[u32], rack: &[u32]) -> Option<u32>
    requires { length volumes.now ≤ 32 }
    ensures found { IfSome result (IsFirstDifference volumes.now rack.now) }
    ensures none { IfNone result (volumes.now ≡ rack.now) }
{
    let shared = volumes.len().min(rack.len());
    'volumes: for volume in 0..shared {
        if volumes[volume] != rack[volume] {
            return Some(volume as u32);
        }
    }
    if volumes.len() == rack.len() {
        None
    } else {
        Some(shared as u32)
    }
}
