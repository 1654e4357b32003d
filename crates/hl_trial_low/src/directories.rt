//! The bytes of directories.

ghost use Rattle.std.specs.Prelude.{◌<◌};

use hl_dir::Entry;
use hl_entries::EntryPlace;
use hl_tree::List;
use std::alloc::{AllocError, Global};
use std::test::Fail;

/// The number and the name of the one entry.
fn only_entry(alloc: Global, bytes: &[u8]) -> Result<Option<(u32, Vec<u8>)>, Fail> {
    let Some(entries) = hl_dir::decode(alloc, bytes)? else {
        return Ok(None);
    };
    match entries.items() {
        [entry] => Ok(Some((entry.ino, Vec::from_slice(alloc, entry.name.items())?))),
        _ => Ok(None),
    }
}

/// The bytes of the one entry that links 2 from `a`.
fn one_entry(alloc: Global) -> Result<Vec<u8>, Fail> {
    let name = List::of(Vec::from_slice(alloc, b"a".as_slice())?);
    Ok(hl_dir::encode(alloc, &[Entry { ino: 2, name }])?)
}

#[test]
fn the_root_with_one_name_has_six_bytes(rt: HostRuntime) -> Result<(), Fail> {
    let six = b"\x02\0\0\0\x01a".as_slice();
    let (ino, name) = only_entry(rt.alloc(), six)?.ok_or("off the grammar")?;
    assert_eq!(rt; ino, 2);
    assert!(rt; name.as_slice() == b"a".as_slice());
    assert!(rt; one_entry(rt.alloc())?.as_slice() == six);
    Ok(())
}

/// The name n and three digits.
fn numbered(k: u32) -> [u8; 4]
    requires { k < 1000 }
{
    [
        b'n',
        b'0' + (k / 100) as u8,
        b'0' + (k / 10 % 10) as u8,
        b'0' + (k % 10) as u8,
    ]
}

/// The bytes of 500 names, each put in once in an order of its own: 7 has no divisor in common with
/// 500.
fn five_hundred(alloc: Global) -> Result<Vec<u8>, AllocError> {
    let mut bytes = Vec::new(alloc);
    for k in 0..500u32 {
        let n = k * 7 % 500;
        hl_entries::insert(&mut bytes, numbered(n).as_slice(), n)?;
    }
    Ok(bytes)
}

/// How many of the 500 names are found where nine bytes for each before it put them.
fn found(bytes: &[u8]) -> u32 {
    let mut count = 0u32;
    for k in 0..500u32 {
        let at = 9 * k as usize;
        if hl_entries::find(bytes, numbered(k).as_slice()) == Some(EntryPlace { at, ino: k }) {
            count = count.saturating_add(1);
        }
    }
    count
}

/// How many of the 500 names are taken out.
fn taken_out(bytes: &mut Vec<u8>) -> u32 {
    let mut count = 0u32;
    for k in 0..500u32 {
        if hl_entries::remove(bytes, numbered(k * 7 % 500).as_slice()).is_some() {
            count = count.saturating_add(1);
        }
    }
    count
}

#[test]
fn five_hundred_names_come_and_go(rt: HostRuntime) -> Result<(), Fail> {
    let mut bytes = five_hundred(rt.alloc())?;
    assert_eq!(rt; bytes.len(), 500 * 9);
    assert_eq!(rt; found(&bytes), 500);
    assert_eq!(rt; hl_entries::names(rt.alloc(), &bytes)?.items().len(), 500);
    assert_eq!(rt; taken_out(&mut bytes), 500);
    assert!(rt; bytes.is_empty());
    Ok(())
}

/// What is seen of bytes off the grammar: whether `a` and `b` are found, the number of names, where
/// `b` is put in, and where it is taken out again.
type Seen = (bool, bool, usize, usize, Option<usize>);

fn see(alloc: Global, bytes: &mut Vec<u8>) -> Result<Seen, AllocError> {
    let first = hl_entries::find(bytes, b"a".as_slice()).is_some();
    let second = hl_entries::find(bytes, b"b".as_slice()).is_some();
    let names = hl_entries::names(alloc, bytes)?.items().len();
    let put = hl_entries::insert(bytes, b"b".as_slice(), 9)?;
    let taken = hl_entries::remove(bytes, b"b".as_slice());
    Ok((first, second, names, put, taken))
}

#[test]
fn bytes_off_the_grammar_are_searched_as_far_as_entries_stand(rt: HostRuntime) -> Result<(), Fail> {
    // A cut name, a cut head, a lone byte.
    for wrong in [
        b"\x02\0\0\0\x01a\x02\0\0\0\x02b".as_slice(),
        b"\x02\0\0\0\x01a\x02\0\0\0".as_slice(),
        b"\x02\0\0\0\x01a\xff".as_slice(),
    ] {
        let mut bytes = Vec::from_slice(rt.alloc(), wrong)?;
        assert!(rt; see(rt.alloc(), &mut bytes)? == (true, false, 1, 6, Some(6)));
        assert!(rt; bytes.as_slice() == wrong);
    }
    Ok(())
}
