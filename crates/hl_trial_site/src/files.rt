//! What no clause says: that calls succeed with ample memory, answered and charged as plain files are.

mod drawn;
mod tables;

use hl_files::FileStep;
use hl_log::UnitAnswer;
use hl_tree::{Call, Node, Path, PlainTree, Reply};
use hl_trial::files::{Beside, Filed, Site};
use std::alloc::{AllocError, Global};
use std::process::Abort;
use std::test::*;

/// A store and the plain files that it is to hold.
#[derive(Drop)]
struct Pair<T> {
    store: T,
    beside: Beside,
    quota: u64,
}

/// Both with the root alone.
fn pair_of<T: Filed>(rt: &impl Abort, alloc: Global, site: Site) -> Result<Pair<T>, Fail> {
    let beside = Beside::new(alloc, site.limits())?;
    match T::first(alloc, site)? {
        Some(store) => Ok(Pair {
            store,
            beside,
            quota: site.quota(),
        }),
        None => panic!(rt; "no contents"),
    }
}

/// Whether two trees have the same files.
fn are_same(one: &PlainTree, other: &PlainTree) -> bool {
    one.rows().len() == other.rows().len()
        && one.rows().iter().zip(other.rows()).all(|(a, b)| a.0.names() == b.0.names()
            && are_same_nodes(&a.1, &b.1))
}

fn are_same_nodes(one: &Node<hl_tree::List<u8>>, other: &Node<hl_tree::List<u8>>) -> bool {
    match (one, other) {
        (Node::Dir, Node::Dir) => true,
        (Node::File(a), Node::File(b)) => a.items() == b.items(),
        _ => false,
    }
}

/// The file whose last use a call sets, if it is answered.
fn named_file(call: &Call) -> Option<&Path> {
    match call {
        Call::Create { path }
        | Call::Write { path, .. }
        | Call::Cut { path, .. }
        | Call::Read { path, .. } => Some(path),
        Call::Rename { to, .. } => Some(to),
        _ => None,
    }
}

/// Makes a call on both, and compares the reply, the charge and the last use. It answers the reply; none where there was no
/// space, which is so only where the files would be charged more than the quota and more than they are.
fn compare<T: Filed>(
    rt: &impl Abort,
    alloc: Global,
    pair: &mut Pair<T>,
    line: u64,
    call: &Call,
) -> Result<Option<Reply>, Fail> {
    let before = pair.beside.charge(alloc)?;
    let answer = match pair.store.call(alloc, line, call) {
        FileStep::Done(reply) => {
            let wanted = pair.beside.call(alloc, line, call)?;
            assert!(rt; reply == wanted, "the reply of line {line}");
            let after = pair.beside.charge(alloc)?;
            assert!(rt;
                after <= before || after <= pair.quota,
                "the quota at line {line}"
            );
            Some(reply)
        }
        FileStep::NoSpace => {
            let mut tried = pair.beside.copy(alloc)?;
            let reply = tried.call(alloc, line, call)?;
            assert!(rt;
                !matches!(reply, Reply::Refused(_)),
                "the rules at line {line}"
            );
            let after = tried.charge(alloc)?;
            assert!(rt;
                before < after && pair.quota < after,
                "no space at line {line}"
            );
            None
        }
        _ => panic!(rt; "line {line} isn't done"),
    };
    let charge = pair.beside.charge(alloc)?;
    assert!(rt;
        u64::from(pair.store.charge()) == charge,
        "the charge of line {line}"
    );
    if let Some(path) = named_file(call) {
        let used = pair.store.used(alloc, path);
        assert!(rt;
            used == pair.beside.used(path),
            "the last use at line {line}"
        );
    }
    Ok(answer)
}

/// Makes what was done last, and compares the files of the disk.
fn compare_disk<T: Filed>(rt: &impl Abort, alloc: Global, pair: &mut Pair<T>) -> Result<(), Fail> {
    let written = matches!(pair.store.checkpoint(alloc), UnitAnswer::Written { .. });
    assert!(rt; written, "a checkpoint isn't written");
    match pair.store.files(alloc)? {
        Some(files) => assert!(rt; are_same(&files, pair.beside.tree()), "other files"),
        None => panic!(rt; "no files"),
    }
    Ok(())
}
