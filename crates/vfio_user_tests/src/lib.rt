//! Tests of vfio_user: messages as a stock QEMU sent them and replies as it took them, each field at its bounds, each message cut at every
//! byte, and what is refused.
//!
//! The values come from outside: bytes that went over the socket when QEMU 11.1 ran Linux 6.1 and iPXE 1.21 on a function, and where QEMU
//! sends no such message, the protocol's tables.
#![tactic(auto)]

#[cfg(test)]
mod bounds;
#[cfg(test)]
mod compare;
#[cfg(test)]
mod cuts;
#[cfg(test)]
mod examples;
#[cfg(test)]
mod headers;
#[cfg(test)]
mod messages;
#[cfg(test)]
mod replies;
#[cfg(test)]
mod texts;
