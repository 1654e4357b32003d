//! Lines of a store, written, read and given to segments.

ghost use Rattle.std.specs.Prelude.{◌≡◌, ◌<◌, ◌*◌, IsTrue, length};
ghost use Rattle.hl_store.specs.Values.{layout};

use hl_bytes::SegBuf;
use hl_lines::LineState;
use hl_media::{Failed, Machine};
use hl_store::Store;
use std::alloc::AllocError;

/// Whether the site has the line, and a buffer has as many blocks as a line.
fn is_line<M: Machine>(store: &Store<M>, line: u32, buf: &SegBuf) -> bool
    ensures line { IsTrue result → line < (layout store.now).lines }
    ensures size { IsTrue result → length buf.now ≡ 4096 * (layout store.now).k }
{
    line < store.geometry().lines && buf.blocks() == store.geometry().k
}

/// Reads a line; none where there is no such line or the buffer isn't as long as one.
pub fn load_line<M: Machine>(
    store: &mut Store<M>,
    line: u32,
    buf: &mut SegBuf,
) -> Option<Result<(), Failed>> {
    if !is_line(store, line, buf) {
        return None;
    }
    Some(store.load_line(line, buf))
}

/// Writes a line; none where there is no such line or the buffer isn't as long as one.
pub fn store_line<M: Machine>(
    store: &mut Store<M>,
    line: u32,
    buf: &SegBuf,
) -> Option<Result<(), Failed>> {
    if !is_line(store, line, buf) {
        return None;
    }
    Some(store.store_line(line, buf))
}

/// Sets the line that is to go next aside; none where none may go.
pub fn set_line_aside<M: Machine>(store: &mut Store<M>) -> Option<u32> {
    let line = store.lines().victim(&[])?;
    store.set_line_aside(line);
    Some(line)
}

/// Gives a line that was set aside to a segment; none where it wasn't, or another line has the segment.
pub fn bind_line<M: Machine>(
    store: &mut Store<M>,
    tseg: u32,
    line: u32,
) -> Option<Result<(), AllocError>> {
    let is_aside = store.lines().state(line) == LineState::Aside;
    if !is_aside || store.lines().of(tseg).is_some() {
        return None;
    }
    Some(store.bind_line(tseg, line))
}
