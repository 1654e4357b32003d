// What a seat knows. No value of these types is made.
use std::collections::LinkedList;

/// Where a seat is in its call.
pub enum Stage {
    /// Between two calls.
    Idle,
    /// It has a ticket and waits for its turn.
    Drawn,
    /// It has the object.
    Served,
    /// It has the object, and its step is counted.
    Counted,
    /// It was joined into another seat.
    Spent,
}

/// What a seat knows.
pub struct View<T, E, I, C> {
    /// The object as it was when the lock was made.
    pub opening: Option<T>,
    /// The seat's number.
    pub number: u64,
    /// In the view of the seat that splits, how many numbers are given out; 0 in any other.
    pub made: u64,
    /// The object's list of entries, as far as the seat has seen it.
    pub seen: LinkedList<E>,
    /// The entries of its own steps.
    pub mine: LinkedList<E>,
    /// The numbers and entries of the seats that were joined into it.
    pub ended: LinkedList<(u64, LinkedList<E>)>,
    /// The jobs that it has out, by their numbers, each as it left.
    pub holds: LinkedList<(u64, I)>,
    /// While it has the object, the jobs that the object has out, with their claims.
    pub outs: LinkedList<(u64, C)>,
    /// How many steps it knows to be counted.
    pub steps: u64,
    /// Where it is in its call.
    pub stage: Stage,
    /// Its ticket, while it has one.
    pub ticket: u64,
}
