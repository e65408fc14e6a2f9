//! The device for C: each event is a call over a handle.
//!
//! C holds a [`Vfdev`], which leads to nothing, to memories that were lent for a device, to a device, to a device whose
//! calls are kept, to a device of guests that come and go, or to a card (`include/vfdev_card.h`), which has calls of its own: to those of a
//! device it is none, and the other way round. Each call says what the handle leads to after it, what is replied, which messages were issued and which
//! bytes were handed out, whatever the handle led to before; the isolation law stands on each call that takes an event. No call
//! has a premise: an argument that is out of range is refused by its name before the device is asked. What C owes stands in
//! `include/vfdev.h`: pointers that lead to what their lengths say, and one call at a time. A handle may go from thread to
//! thread.
//!
//! Whoever has a page of transmit registers that a client writes as memory asks [`page`], which takes no handle.
//!
//! No call takes memory but the makers.
#![tactic(auto)]

pub mod block;
pub mod blocks;
pub mod card_frames;
pub mod card_guests;
pub mod card_held;
pub mod card_making;
pub mod card_messages;
pub mod card_policies;
pub mod card_step;
pub mod counts;
mod device_kind;
pub mod events;
pub mod guest_bursts;
pub mod guest_calls;
pub mod guest_device;
mod handed;
pub mod handle;
pub mod handle_state;
pub mod laws;
mod left;
mod lending;
pub mod lends;
mod lent_device;
pub mod making;
mod on_card;
mod on_guests;
mod on_held;
pub mod owner;
pub mod page;
pub mod raw_box;
mod recorder;
pub mod recording;
pub mod reply;
pub mod service;
pub mod version;
mod wanted;
pub mod wired;
