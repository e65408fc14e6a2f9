//! What a device did with a memory in one event.
use std::alloc::{AllocError, Global};

// How many accesses are kept of one event, and how many bytes.
const ACCESSES: usize = 512;

const BYTES: usize = 65_536;

// One access: whether it read, its address, and where its bytes are kept.
#[derive(Clone, Copy)]
pub struct Access {
    pub is_read: bool,
    pub at: u64,
    first: usize,
    pub count: usize,
}

impl Access {
    // Whether it has a byte in common with another one.
    pub fn meets(&self, other: &Access) -> bool {
        self.is_in(other.at, other.count as u64)
    }

    // Whether it has a byte among so many from an address on.
    pub fn is_in(&self, at: u64, count: u64) -> bool {
        at < self.at.saturating_add(self.count as u64) && self.at < at.saturating_add(count)
    }
}

// The accesses of an event, in order. The room for them is taken when it is made.
#[derive(Drop)]
pub struct Log {
    accesses: Vec<Access>,
    bytes: Vec<u8>,
    // whether there was room for all
    is_whole: bool,
}

impl Log {
    pub fn new(alloc: Global) -> Result<Log, AllocError> {
        Ok(Log {
            accesses: Vec::with_capacity(alloc, ACCESSES)?,
            bytes: Vec::with_capacity(alloc, BYTES)?,
            is_whole: true,
        })
    }

    // Begins an event.
    pub fn clear(&mut self) {
        self.accesses.clear();
        self.bytes.clear();
    }

    // Adds an access.
    pub fn add(&mut self, is_read: bool, at: u64, bytes: &[u8]) {
        let access = Access {
            is_read,
            at,
            first: self.bytes.len(),
            count: bytes.len(),
        };
        if self.accesses.len() >= ACCESSES || self.bytes.len().saturating_add(bytes.len()) > BYTES {
            self.is_whole = false;
            return;
        }
        let is_kept = self.bytes.extend_from_slice(bytes).is_ok()
            && self.accesses.push(access).is_ok();
        self.is_whole = self.is_whole && is_kept;
    }

    // Whether all accesses of all events had room.
    pub fn is_whole(&self) -> bool {
        self.is_whole
    }

    pub fn accesses(&self) -> &[Access] {
        self.accesses.as_slice()
    }

    // Whether something was written.
    pub fn has_writes(&self) -> bool {
        self.accesses.iter().any(|access| !access.is_read)
    }

    // The bytes of an access.
    pub fn bytes(&self, access: &Access) -> &[u8] {
        let all = self.bytes.as_slice();
        if access.first > all.len() || access.count > all.len() - access.first {
            return &[];
        }
        &all[access.first..access.first + access.count]
    }
}
