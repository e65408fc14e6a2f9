//! The two ways of an event: [`Device::take_live`], and the call by its name.
use device::{Device, MemSlice, Outcome, Queue, Request, Room};
use live_memory::Dma;
use wire_frame::{Frame, PoolSet};

/// What an event gives out.
#[derive(Drop)]
pub struct Out {
    /// What is lent to each event.
    pub room: Room,
    /// Bytes that the call by name reads.
    pub bytes: [u8; 2048],
}

/// An event, and what is to come of it.
pub trait Call<D: Dma<K>, K> {
    /// Takes the event; whether that came of it.
    fn call(&self, device: &mut Device<D, K>, out: &mut Out) -> bool;
}

/// Any event, by [`Device::take_live`].
#[derive(Clone, Copy)]
pub struct Take<'a> {
    /// The event.
    pub request: Request<'a>,
    /// The value that it is to read, if it reads a register.
    pub value: u32,
    /// The pools that are to get messages.
    pub pools: PoolSet,
}

impl<'a, D: Dma<K>, K> Call<D, K> for Take<'a> {
    #[inline]
    fn call(&self, device: &mut Device<D, K>, out: &mut Out) -> bool {
        let response = device.take_live(self.request, &mut out.room);
        let is_right = match response.outcome {
            Outcome::Done | Outcome::Sent => true,
            Outcome::Value(value) => value == self.value,
            Outcome::Bytes(read) => read.count() == out.bytes.len(),
            _ => false,
        };
        is_right && response.messages.pools() == self.pools
    }
}

/// [`Device::vf_read`].
#[derive(Clone, Copy)]
pub struct VfRead {
    /// The function.
    pub pool: u8,
    /// The offset of the register, in bytes.
    pub offset: u32,
    /// The value that it is to read.
    pub value: u32,
}

impl<D: Dma<K>, K> Call<D, K> for VfRead {
    #[inline]
    fn call(&self, device: &mut Device<D, K>, _out: &mut Out) -> bool {
        match device.vf_read(self.pool, self.offset) {
            Ok(value) => value == self.value,
            Err(_) => false,
        }
    }
}

/// [`Device::vf_write`].
#[derive(Clone, Copy)]
pub struct VfWrite {
    /// The function.
    pub pool: u8,
    /// The offset of the register, in bytes.
    pub offset: u32,
    /// What is written.
    pub value: u32,
}

impl<D: Dma<K>, K> Call<D, K> for VfWrite {
    #[inline]
    fn call(&self, device: &mut Device<D, K>, _out: &mut Out) -> bool {
        match device.vf_write(self.pool, self.offset, self.value) {
            Ok(messages) => messages.pools().is_empty(),
            Err(_) => false,
        }
    }
}

/// [`Device::pf_read`].
#[derive(Clone, Copy)]
pub struct PfRead {
    /// The offset of the register, in bytes.
    pub offset: u32,
    /// The value that it is to read.
    pub value: u32,
}

impl<D: Dma<K>, K> Call<D, K> for PfRead {
    #[inline]
    fn call(&self, device: &mut Device<D, K>, _out: &mut Out) -> bool {
        match device.pf_read(self.offset) {
            Ok(value) => value == self.value,
            Err(_) => false,
        }
    }
}

/// [`Device::pf_write`].
#[derive(Clone, Copy)]
pub struct PfWrite {
    /// The offset of the register, in bytes.
    pub offset: u32,
    /// What is written.
    pub value: u32,
}

impl<D: Dma<K>, K> Call<D, K> for PfWrite {
    #[inline]
    fn call(&self, device: &mut Device<D, K>, _out: &mut Out) -> bool {
        device.pf_write(self.offset, self.value).is_ok()
    }
}

/// [`Device::mem_read_live`].
#[derive(Clone, Copy)]
pub struct MemRead {
    /// The function.
    pub pool: u8,
    /// The address of the first byte.
    pub at: u64,
}

impl<D: Dma<K>, K> Call<D, K> for MemRead {
    #[inline]
    fn call(&self, device: &mut Device<D, K>, out: &mut Out) -> bool {
        device
            .mem_read_live(self.pool, self.at, &mut out.bytes)
            .is_ok()
    }
}

/// [`Device::mem_write`].
#[derive(Clone, Copy)]
pub struct MemWrite<'a> {
    /// The function.
    pub pool: u8,
    /// The address of the first byte.
    pub at: u64,
    /// The bytes.
    pub written: MemSlice<'a>,
}

impl<'a, D: Dma<K>, K> Call<D, K> for MemWrite<'a> {
    #[inline]
    fn call(&self, device: &mut Device<D, K>, _out: &mut Out) -> bool {
        device.mem_write(self.pool, self.at, self.written).is_ok()
    }
}

/// [`Device::wire_live`].
#[derive(Clone, Copy)]
pub struct Wire<'a> {
    /// The frame.
    pub frame: Frame<'a>,
    /// The pools that are to get messages.
    pub pools: PoolSet,
}

impl<'a, D: Dma<K>, K> Call<D, K> for Wire<'a> {
    #[inline]
    fn call(&self, device: &mut Device<D, K>, _out: &mut Out) -> bool {
        match device.wire_live(self.frame) {
            Ok(messages) => messages.pools() == self.pools,
            Err(_) => false,
        }
    }
}

/// [`Device::serve_live`].
#[derive(Clone, Copy)]
pub struct Serve {
    /// The function.
    pub pool: u8,
    /// The queue.
    pub queue: Queue,
    /// The pools that are to get messages.
    pub pools: PoolSet,
}

impl<D: Dma<K>, K> Call<D, K> for Serve {
    #[inline]
    fn call(&self, device: &mut Device<D, K>, out: &mut Out) -> bool {
        let response = device.serve_live(self.pool, self.queue, &mut out.room);
        response.outcome.is_sent() && response.messages.pools() == self.pools
    }
}
