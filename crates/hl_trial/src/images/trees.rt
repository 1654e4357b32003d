//! The files of the images that break no rule.

use hl_bytes::{BLOCK, put_u32};
use hl_tree::{List, Node, Path};
use std::alloc::{AllocError, Global};

/// The path of names of one letter.
fn path_of(alloc: Global, letters: &[u8]) -> Result<Path, AllocError> {
    let mut names = Vec::new(alloc);
    for letter in letters {
        names.push(List::of(vec![in alloc; *letter; 1]?))?;
    }
    Path::new(names).ok_or(AllocError)
}

/// The bytes of b.
fn bytes_of_b(alloc: Global) -> Result<List<u8>, AllocError> {
    let mut bytes = vec![in alloc; 0; 49_252]?;
    let out = bytes.as_mut_slice();
    if out.len() == 49_252 {
        put_u32(out, 0, 0x0403_0201);
        put_u32(out, 4_092, 0x0807_0605);
        put_u32(out, 49_248, 0x0c0b_0a09);
    }
    Ok(List::of(bytes))
}

/// The bytes of g.
fn bytes_of_g(alloc: Global) -> Result<List<u8>, AllocError> {
    let mut bytes = vec![in alloc; 8; BLOCK]?;
    bytes.extend_from_slice(&[9; 50])?;
    Ok(List::of(bytes))
}

/// Adds a directory.
fn push_dir(
    alloc: Global,
    files: &mut Vec<(Path, Node<List<u8>>)>,
    letters: &[u8],
) -> Result<(), AllocError> {
    let path = path_of(alloc, letters)?;
    Ok(files.push((path, Node::Dir))?)
}

/// Adds a file.
fn push_file(
    alloc: Global,
    files: &mut Vec<(Path, Node<List<u8>>)>,
    letters: &[u8],
    bytes: List<u8>,
) -> Result<(), AllocError> {
    let path = path_of(alloc, letters)?;
    Ok(files.push((path, Node::File(bytes)))?)
}

/// The files of the plain image, in the order of their paths.
pub fn plain_files(alloc: Global) -> Result<Vec<(Path, Node<List<u8>>)>, AllocError> {
    let mut files = Vec::new(alloc);
    push_dir(alloc, &mut files, b"")?;
    push_dir(alloc, &mut files, b"a")?;
    push_dir(alloc, &mut files, b"ac")?;
    let hello = List::of(b"hello".as_slice().to_vec(alloc)?);
    push_file(alloc, &mut files, b"ace", hello)?;
    push_file(alloc, &mut files, b"b", bytes_of_b(alloc)?)?;
    push_dir(alloc, &mut files, b"d")?;
    Ok(files)
}

/// The files of the image with away blocks.
pub fn files_with_away(alloc: Global) -> Result<Vec<(Path, Node<List<u8>>)>, AllocError> {
    let mut files = plain_files(alloc)?;
    push_file(alloc, &mut files, b"g", bytes_of_g(alloc)?)?;
    Ok(files)
}

fn is_same_node(one: &Node<List<u8>>, other: &Node<List<u8>>) -> bool {
    match (one, other) {
        (Node::Dir, Node::Dir) => true,
        (Node::File(a), Node::File(b)) => a.items() == b.items(),
        _ => false,
    }
}

/// Whether two lists have the same paths and files in the same order.
pub fn are_same(one: &[(Path, Node<List<u8>>)], other: &[(Path, Node<List<u8>>)]) -> bool {
    if one.len() != other.len() {
        return false;
    }
    for i in 0..one.len() {
        if one[i].0.names() != other[i].0.names() || !is_same_node(&one[i].1, &other[i].1) {
            return false;
        }
    }
    true
}
