//! The bytes of a file, which are changed where they lie.

ghost use Rattle.std.specs.Prelude.{◌≡◌, ◌+◌, ◌^◌, ◌<◌, ◌≤◌, IfOk, OnOk, OnErr, length, max, vec_len};
ghost use Rattle.hl_tree.specs.Contents.{resized, written, read_at as bytes_read};

use std::alloc::{AllocError, Global};

/// The bytes from `at` on, at most `len` of them and at most 32,768.
#[tactic(auto, unfolding(crate::specs::Contents::read_at))]
pub fn read_at(alloc: Global, bytes: &[u8], at: u64, len: u64) -> Result<Vec<u8>, AllocError>
    ensures { IfOk result (λ part. part.items ≡ bytes_read bytes.now at len) }
{
    if at >= bytes.len() as u64 {
        return Ok(Vec::new(alloc));
    }
    let rest = &bytes[at as usize..];
    let most = if len < 32768 { len as usize } else { 32768 };
    if most < rest.len() {
        Vec::from_slice(alloc, &rest[..most])
    } else {
        Vec::from_slice(alloc, rest)
    }
}

/// Cuts the bytes to a size, or puts zeros at their end.
#[tactic(auto, unfolding(crate::specs::Contents::resized))]
pub fn resize(bytes: &mut Vec<u8>, size: usize) -> Result<(), AllocError>
    ensures ok { OnOk result (bytes.new.items ≡ resized bytes.old.items size) }
    ensures len { OnOk result (vec_len bytes.new ≡ size) }
    ensures err { OnErr result (bytes.new.items ≡ bytes.old.items) }
{
    if size > bytes.len() {
        make_room(bytes, size)?;
    }
    bytes.resize(size, 0)?;
    if size <= bytes.capacity() / 2 {
        bytes.shrink_to(size);
    }
    Ok(())
}

/// Puts other bytes in the place of those from `at` on, with zeros in a gap before them.
pub fn write(bytes: &mut Vec<u8>, at: usize, part: &[u8]) -> Result<(), AllocError>
    requires { at + length part.now < 2 ^ 64 }
    ensures ok { OnOk result (bytes.new.items ≡ written bytes.old.items at part.now) }
    ensures err { OnErr result (bytes.new.items ≡ bytes.old.items) }
{
    let end = at + part.len();
    lengthen(bytes, end)?;
    bytes[at..end].copy_from_slice(part);
    Ok(())
}

/// Puts zeros at the end of bytes that are shorter than a size.
#[tactic(auto, using(crate::proofs::Contents::resized_to_itself))]
fn lengthen(bytes: &mut Vec<u8>, size: usize) -> Result<(), AllocError>
    ensures ok { OnOk result (bytes.new.items ≡ resized bytes.old.items (max (length bytes.old.items) size)) }
    ensures long { OnOk result (size ≤ vec_len bytes.new) }
    ensures err { OnErr result (bytes.new.items ≡ bytes.old.items) }
{
    if size <= bytes.as_slice().len() {
        return Ok(());
    }
    resize(bytes, size)
}

/// Makes room for a size, and for an eighth more: so a file that grows by small writes is moved seldom, and what is
/// held stays near the bytes themselves.
fn make_room(bytes: &mut Vec<u8>, size: usize) -> Result<(), AllocError>
    ensures items { bytes.new.items ≡ bytes.old.items }
    ensures len { vec_len bytes.new ≡ vec_len bytes.old }
{
    if size <= bytes.capacity() {
        return Ok(());
    }
    let missing = size.saturating_sub(bytes.len());
    bytes.reserve_exact(missing.saturating_add(size / 8))
}
