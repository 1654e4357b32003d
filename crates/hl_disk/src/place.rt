//! Where on the disk a dump and its record stand.

ghost use Rattle.std.specs.Prelude.{◌≡◌, ◌≤◌, ◌-◌, ◌*◌, ◌%◌};
ghost use Rattle.hl_disk.specs.Disks.{start_of, blocks_of};
ghost use Rattle.hl_disk.specs.Records.{place_of};

/// The blocks of a disk of two dumps.
pub const DISK_BLOCKS: u32 = 2_112;

/// The most bytes of a dump, which is one half of such a disk.
pub(crate) const DUMP_MAX: u32 = 4_194_304;

/// The block of the record of a number: 1 for odd numbers, 2 for even ones.
pub(crate) fn place_of(number: u64) -> u32
    ensures { result ≡ place_of number }
{
    2 - (number % 2) as u32
}

/// The first block of the dump of a number: odd ones take the first half, even ones the second.
pub(crate) fn start_of(number: u64) -> u32
    ensures { result ≡ start_of number }
{
    1088 - 1024 * (number % 2) as u32
}

/// The blocks that the bytes of a dump take.
pub(crate) fn blocks_of(length: u32) -> u32
    requires { length ≤ 4194304 }
    ensures value { result ≡ blocks_of length }
    ensures within { result ≤ 1024 }
{
    (length + 4095) / 4096
}
