//! Tests of internet_checksum, offload and receive_checksum: the example of RFC 1071, frames and segments that scapy built, each length at
//! its bounds, sums of bytes by chance beside a plain one, and flags.
#![tactic(auto)]

#[cfg(test)]
mod chance;
#[cfg(test)]
mod checksums;
#[cfg(test)]
mod compare;
#[cfg(test)]
mod contexts;
#[cfg(test)]
mod examples;
#[cfg(test)]
mod flags;
#[cfg(test)]
mod frames;
#[cfg(test)]
mod received;
#[cfg(test)]
mod segments;
