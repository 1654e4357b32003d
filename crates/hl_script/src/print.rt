//! The parts of an answer's text, each put behind what `out` holds. An `Err` may leave the front of a part there.

ghost use Rattle.std.specs.Prelude.{◌≡◌, ◌∷◌, ◌++◌, OnOk, OnErr};
ghost use Rattle.std.specs.List.{flat_map};
ghost use Rattle.std.specs.Io.{StartsWith};
ghost use Rattle.hex.specs.Hex.{encode_lower};
ghost use Rattle.hl_script.specs.Answer.{is_plain, printed_byte, printed_name, printed_path, printed_data, printed_number};

use hl_tree::{List, Path};
use itoa::Buffer;
use std::alloc::AllocError;

/// A number behind a space.
pub(crate) fn push_number(out: &mut Vec<u8>, n: u64) -> Result<(), AllocError>
    ensures ok { OnOk result (out.new.items ≡ out.old.items ++ printed_number n) }
    ensures err { OnErr result (StartsWith out.new.items out.old.items) }
{
    let mut buffer = Buffer::new();
    out.push(b' ')?;
    out.extend_from_slice(buffer.format(n).as_bytes())
}

/// The hex digits of the bytes, straight to their place.
fn push_hex(out: &mut Vec<u8>, bytes: &[u8]) -> Result<(), AllocError>
    ensures ok { OnOk result (out.new.items ≡ out.old.items ++ encode_lower bytes.now) }
    ensures err { OnErr result (out.new.items ≡ out.old.items) }
{
    let start = out.len();
    let Some(end) = start.checked_add(2 * bytes.len()) else {
        return Err(AllocError);
    };
    out.resize(end, 0)?;
    match hex::encode_to_slice(bytes, out.slice_mut(start..)) {
        Ok(()) => Ok(()),
        Err(_) => unreachable!(),
    }
}

fn is_plain(b: u8) -> bool
    ensures { result ≡ is_plain b }
{
    33 <= b && b <= 126 && b != b'%'
}

fn push_byte(out: &mut Vec<u8>, b: u8) -> Result<(), AllocError>
    ensures ok { OnOk result (out.new.items ≡ out.old.items ++ printed_byte b) }
    ensures err { OnErr result (StartsWith out.new.items out.old.items) }
{
    if is_plain(b) {
        out.push(b)?;
        return Ok(());
    }
    out.push(b'%')?;
    push_hex(out, &[b])
}

#[tactic(auto, using(crate::proofs::Fronts::starts_behind))]
fn push_name(out: &mut Vec<u8>, name: &[u8]) -> Result<(), AllocError>
    ensures ok { OnOk result (out.new.items ≡ out.old.items ++ printed_name name.now) }
    ensures err { OnErr result (StartsWith out.new.items out.old.items) }
{
    for b in name {
        push_byte(out, *b)?;
    }
    Ok(())
}

/// The names, each behind the byte.
#[tactic(auto, using(crate::proofs::Fronts::starts_behind))]
pub(crate) fn push_names(
    out: &mut Vec<u8>,
    before: u8,
    names: &[List<u8>],
) -> Result<(), AllocError>
    ensures ok { OnOk result (out.new.items ≡ out.old.items ++ flat_map (λ n. before ∷ printed_name n) names.now) }
    ensures err { OnErr result (StartsWith out.new.items out.old.items) }
{
    for name in names {
        out.push(before)?;
        push_name(out, name.items())?;
    }
    Ok(())
}

#[tactic(auto, using(crate::proofs::Fronts::starts_behind))]
fn push_path(out: &mut Vec<u8>, path: &Path) -> Result<(), AllocError>
    ensures ok { OnOk result (out.new.items ≡ out.old.items ++ printed_path path.now) }
    ensures err { OnErr result (StartsWith out.new.items out.old.items) }
{
    let names = path.names();
    if names.is_empty() {
        out.push(b'/')?;
        return Ok(());
    }
    push_names(out, b'/', names)
}

/// The paths, each behind a space.
#[tactic(auto, using(crate::proofs::Fronts::starts_behind))]
pub(crate) fn push_paths(out: &mut Vec<u8>, paths: &[Path]) -> Result<(), AllocError>
    ensures ok { OnOk result (out.new.items ≡ out.old.items ++ flat_map (λ p. 32 ∷ printed_path p) paths.now) }
    ensures err { OnErr result (StartsWith out.new.items out.old.items) }
{
    for path in paths {
        out.push(b' ')?;
        push_path(out, path)?;
    }
    Ok(())
}

/// The hex digits behind a space, where there are any.
pub(crate) fn push_data(out: &mut Vec<u8>, bytes: &[u8]) -> Result<(), AllocError>
    ensures ok { OnOk result (out.new.items ≡ out.old.items ++ printed_data bytes.now) }
    ensures err { OnErr result (StartsWith out.new.items out.old.items) }
{
    if bytes.is_empty() {
        return Ok(());
    }
    out.push(b' ')?;
    push_hex(out, bytes)
}
