//! What the tenants of a card see of a group of others that its settings or policies keep apart, which is nothing: all deeds of the group can be
//! erased from the life of the card, and each function outside is told the same, byte for byte, has the same memory, and sends the same frames.
//!
//! A life is a list of deeds, as [`card`](../card/index.html) has them: a client's messages, events of the device, guests that come and go, the
//! administrator's word. What an administrator decides of policies is no deed of a tenant's, and stays. Two facts about the others stay as input,
//! unless policies rule them out: whether another function holds the address that a driver asks for, and whether a frame from the wire falls to
//! the default pool.
//!
//! The crate has no code: each function's contract is a law over the definitions of `card`. It stands above `card`, and on its laws.
#![tactic(auto)]

pub mod laws;
