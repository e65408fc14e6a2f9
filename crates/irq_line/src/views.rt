//! What the seats of a line know. These values exist in proofs alone: no code makes one.
use std::collections::LinkedList;

/// One raise: for which pool, of which vectors, and the word of the pool that it found.
pub struct Raise {
    /// The pool, 0 to 63.
    pub pool: u8,
    /// The vectors, bit v for vector v.
    pub mask: u8,
    /// What stood before.
    pub found: u8,
}

/// What a guest's seat did.
pub struct GuestView {
    /// The pool, 0 to 63.
    pub pool: u8,
    /// The answers of its takes, in order.
    pub takes: LinkedList<u8>,
    /// The answers of its peeks, in order.
    pub peeks: LinkedList<u8>,
    /// The bits that its peeks answered since its last take.
    pub peeked: u8,
}

/// What a guest's seat knows.
pub struct GuestRecord {
    /// What it did.
    pub did: GuestView,
    /// The raises for its pool that were made when it last took.
    pub seen: LinkedList<Raise>,
}

/// What a seat knows.
pub enum View {
    /// The device's seat: its raises, in order, and how many guests have a seat.
    Device(LinkedList<Raise>, u8),
    /// A guest's seat.
    Guest(GuestRecord),
    /// The device's seat and a guest's in one, while they are compared.
    Both(LinkedList<Raise>, u8, GuestRecord),
    /// A seat that was put into another.
    Spent,
}
