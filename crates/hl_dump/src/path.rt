//! Reading the path of an entry.

ghost use Rattle.std.specs.Prelude.{◌≡◌, ◌≢◌, ◌+◌, ◌-◌, ◌<◌, ◌≤◌, All, IfOk, length, take, drop, slice_index};
ghost use Rattle.hl_dump.specs.Dumps.{path_bytes};
ghost use Rattle.hl_dump.specs.Reading.{IsPart, ReadsPath};

use hl_tree::{List, Path};
use std::alloc::{AllocError, Global};

/// The byte before each name.
const SLASH: u8 = 47;

/// Where a name that begins at `from` ends: at the next slash, or with the bytes.
fn name_end(bytes: &[u8], from: usize) -> usize
    requires { from ≤ length bytes.now }
    ensures behind { from ≤ result }
    ensures within { result ≤ length bytes.now }
    ensures part { IsPart (take (result - from) (drop from bytes.now)) }
    ensures slash { result < length bytes.now → slice_index bytes.now result ≡ 47 }
{
    'bytes: for i in from..bytes.len() {
        if bytes[i] == SLASH {
            return i;
        }
    }
    bytes.len()
}

/// The parts behind the slashes of bytes that begin with one.
fn parts(alloc: Global, bytes: &[u8]) -> Result<Vec<List<u8>>, AllocError>
    requires { slice_index bytes.now 0 ≡ 47 }
    ensures spelled { IfOk result (λ names. bytes.now ≡ path_bytes names.items) }
    ensures parts { IfOk result (λ names. All IsPart names.items) }
{
    let mut names = Vec::new(alloc);
    let mut at = 0;
    'names: while at < bytes.len() {
        let end = name_end(bytes, at + 1);
        let name = List::of(Vec::from_slice(alloc, &bytes[at + 1..end])?);
        names.push(name)?;
        at = end;
    }
    Ok(names)
}

/// The path below the root that the bytes spell, and None where they spell none.
pub fn read_path(alloc: Global, bytes: &[u8]) -> Result<Option<Path>, AllocError>
    ensures { IfOk result (λ path. ReadsPath bytes.now path) }
{
    if bytes.is_empty() {
        return Ok(None);
    }
    if bytes[0] != SLASH {
        return Ok(None);
    }
    let names = parts(alloc, bytes)?;
    Ok(Path::new(names))
}
