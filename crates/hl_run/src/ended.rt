//! What a command hands back.

use hl_media::Rack;

/// How a command ended, with the devices that it was given.
#[derive(Drop)]
pub struct Ended<M, V> {
    pub status: u8,
    pub machine: M,
    pub rack: Rack<V>,
}
