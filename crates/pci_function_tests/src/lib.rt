//! Tests of pci_function: the space as a stock QEMU read it, what stock drivers wrote and read, each register that can be written by each
//! width, and accesses that are unaligned, cross registers, or pass the end.
//!
//! The values come from outside: bytes that went over the socket when QEMU 11.1 ran Linux 6.1 and iPXE 1.21 on a function, and
//! the standards.
#![tactic(auto)]

#[cfg(test)]
mod compare;
#[cfg(test)]
mod drivers;
#[cfg(test)]
mod examples;
#[cfg(test)]
mod widths;
