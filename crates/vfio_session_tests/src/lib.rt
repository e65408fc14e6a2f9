//! Tests of vfio_session: what QEMU sent for stock drivers, replayed, and each reply as QEMU took it; each message cut at every byte;
//! each field at its bounds; how many files come; and what is refused, by name.
//!
//! The values come from outside: bytes that went over the socket when QEMU 11.1 ran Linux 6.1 and iPXE 1.21 on a function, and where QEMU
//! sends no such message, the protocol's tables.
#![tactic(auto)]

#[cfg(test)]
mod bounds;
#[cfg(test)]
mod breaches;
#[cfg(test)]
mod client;
#[cfg(test)]
mod compare;
#[cfg(test)]
mod cuts;
#[cfg(test)]
mod examples;
#[cfg(test)]
mod files;
#[cfg(test)]
mod ipxe;
#[cfg(test)]
mod linux;
#[cfg(test)]
mod lives;
#[cfg(test)]
mod offers;
#[cfg(test)]
mod registers;
#[cfg(test)]
mod settling;
