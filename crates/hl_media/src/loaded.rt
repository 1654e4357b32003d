//! A volume out of the rack.

/// A volume that was taken out of a rack, with its number there.
#[derive(Drop)]
pub struct Loaded<V> {
    pub number: u32,
    pub volume: V,
}
