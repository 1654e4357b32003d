//! The names of refusals.

ghost use Rattle.std.specs.Prelude.{◌≡◌};
ghost use Rattle.hl_script.specs.Answer.{refusal_text};

use hl_tree::Refusal;

/// The refusal's answer.
pub(crate) fn refusal_text(why: Refusal) -> &'static [u8]
    ensures { result.now ≡ refusal_text why }
{
    match why {
        Refusal::Enoent => b"err ENOENT",
        Refusal::Eexist => b"err EEXIST",
        Refusal::Enotdir => b"err ENOTDIR",
        Refusal::Eisdir => b"err EISDIR",
        Refusal::Enotempty => b"err ENOTEMPTY",
        Refusal::Einval => b"err EINVAL",
        Refusal::Efbig => b"err EFBIG",
        Refusal::Enametoolong => b"err ENAMETOOLONG",
        Refusal::Einodes => b"err EINODES",
    }
}
