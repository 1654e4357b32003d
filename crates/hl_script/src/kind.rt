//! The kinds of lines, by their first word.

ghost use Rattle.std.specs.Prelude.{◌≡◌};
ghost use Rattle.hl_script.specs.Kinds.{kind_at};

/// What a line does.
#[derive(Clone, Copy, Debug, PartialEq, Eq)]
pub enum Kind {
    Mkdir,
    Create,
    Stat,
    List,
    Unlink,
    Rmdir,
    Write,
    Cut,
    Read,
    Rename,
    Sync,
    Rank,
    Stage,
    Copy,
    Fetch,
    Move,
    End,
    Eject,
    Clean,
    Checkpoint,
}

/// The kind that the word names.
#[tactic(auto, unfolding(crate::specs::Kinds::kind_at))]
pub(crate) fn kind_of_word(word: &[u8]) -> Option<Kind>
    ensures { result ≡ kind_at word.now }
{
    if word == b"mkdir".as_slice() {
        Some(Kind::Mkdir)
    } else if word == b"create".as_slice() {
        Some(Kind::Create)
    } else if word == b"stat".as_slice() {
        Some(Kind::Stat)
    } else if word == b"list".as_slice() {
        Some(Kind::List)
    } else if word == b"unlink".as_slice() {
        Some(Kind::Unlink)
    } else if word == b"rmdir".as_slice() {
        Some(Kind::Rmdir)
    } else if word == b"write".as_slice() {
        Some(Kind::Write)
    } else if word == b"cut".as_slice() {
        Some(Kind::Cut)
    } else if word == b"read".as_slice() {
        Some(Kind::Read)
    } else if word == b"rename".as_slice() {
        Some(Kind::Rename)
    } else if word == b"sync".as_slice() {
        Some(Kind::Sync)
    } else if word == b"rank".as_slice() {
        Some(Kind::Rank)
    } else if word == b"stage".as_slice() {
        Some(Kind::Stage)
    } else if word == b"copy".as_slice() {
        Some(Kind::Copy)
    } else if word == b"fetch".as_slice() {
        Some(Kind::Fetch)
    } else if word == b"move".as_slice() {
        Some(Kind::Move)
    } else if word == b"end".as_slice() {
        Some(Kind::End)
    } else if word == b"eject".as_slice() {
        Some(Kind::Eject)
    } else if word == b"clean".as_slice() {
        Some(Kind::Clean)
    } else if word == b"checkpoint".as_slice() {
        Some(Kind::Checkpoint)
    } else {
        None
    }
}
