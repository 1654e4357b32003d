// What both objects list.

/// A number that a seat was given.
#[derive(Clone, Copy, PartialEq, Eq, Debug)]
pub struct Slip {
    pub seat: u32,
    pub number: u64,
}
