//! A place of a rack.

/// The place of one volume.
#[derive(Drop)]
pub enum Bay<V> {
    /// The volume is in it.
    Holds(V),
    /// The volume, which has so many slots, is out.
    Empty { slots: u32 },
}
