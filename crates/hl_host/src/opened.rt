//! Calls of a file that may not have been opened.

ghost use Rattle.std.specs.Prelude.{◌≡◌, length, OnOk};
ghost use Rattle.hl_host.specs.Devices.{HoldsOn, MayWriteTo, ReadsFrom, WritesTo, told_of};

use crate::positional::PositionalFile;
use crate::whole::{read_whole, write_whole};
use hl_media::Failed;

/// Reads from this byte on until `out` is full; fails where there is no file.
pub fn read_opened<F: PositionalFile>(
    file: &mut Option<F>,
    from: u64,
    out: &mut [u8],
) -> Result<(), Failed>
    ensures bytes { OnOk result (ReadsFrom F.content file.old from out.new) }
    ensures content { HoldsOn F.content file.old file.new }
{
    match file {
        Some(file) => read_whole(file, from, out),
        None => Err(Failed),
    }
}

/// Writes all the bytes from this byte on; fails where there is no file.
pub fn write_opened<F: PositionalFile>(
    file: &mut Option<F>,
    from: u64,
    bytes: &[u8],
) -> Result<(), Failed>
    ensures bytes { OnOk result (WritesTo F.content file.old file.new from bytes.now) }
    ensures some { MayWriteTo F.content file.old file.new from (length bytes.now) }
{
    match file {
        Some(file) => write_whole(file, from, bytes),
        None => Err(Failed),
    }
}

/// Makes what the file holds last; fails where there is no file.
pub fn sync_opened<F: PositionalFile>(file: &mut Option<F>) -> Result<(), Failed>
    ensures lasts { OnOk result (told_of F.lasting file.new ≡ told_of F.content file.old) }
    ensures content { HoldsOn F.content file.old file.new }
{
    match file {
        Some(file) => match file.make_last() {
            Ok(()) => Ok(()),
            Err(_) => Err(Failed),
        },
        None => Err(Failed),
    }
}
