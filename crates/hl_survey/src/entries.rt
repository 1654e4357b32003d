//! Entries of the inode map.

ghost use Rattle.std.specs.Prelude.{◌≡◌, ◌≢◌, ◌<◌, ◌/◌, false, length, IsTrue};
ghost use Rattle.hl_addr.specs.Layout.{table_blocks};
ghost use Rattle.hl_image.specs.Places.{log_end};
ghost use Rattle.hl_nodes.specs.Breaks.{IsOffEntry, IsTableAt};
ghost use Rattle.hl_survey.specs.Surveys.{IsEntry};

use hl_addr::{Geometry, NOTHING};
use hl_nodes::is_in_log;
use hl_super::Record;

/// Entries of the inode map in one table block.
const ENTRIES: u32 = 1_024;

/// Whether the entry of a number is one that it may not have.
pub(crate) fn is_off_entry(geometry: &Geometry, ino: u32, entry: u32) -> bool
    ensures off { IsTrue result → IsOffEntry geometry.now ino entry }
    ensures passed { result ≡ false → IsEntry geometry.now ino entry }
    ensures within { result ≡ false → entry ≢ 4294967295 → entry < log_end geometry.now }
{
    if entry == NOTHING {
        ino == 1
    } else {
        ino == 0 || !is_in_log(geometry, entry)
    }
}

/// The address of the table block that has the entry of a number.
pub(crate) fn map_block(geometry: &Geometry, rec: &Record, ino: u32) -> u32
    requires number { ino < geometry.now.inodes }
    requires tables { length rec.now.tables ≡ table_blocks geometry.now }
    ensures { IsTableAt rec.now (ino / 1024) result }
{
    rec.tables.items()[(ino / ENTRIES) as usize]
}
