//! A ring of descriptors, as its registers tell it.
use device::Device;
use guest_memory::FlatMem;

// The bits of RXDCTL and TXDCTL: the queue is on, and tags are taken off.
const ON: u64 = 1 << 25;

const STRIPS: u64 = 1 << 30;

// Where a ring begins, how many descriptors it has, its head and its tail, and the register that controls the queue.
#[derive(Clone, Copy)]
pub struct Ring {
    base: u64,
    count: u64,
    pub head: u64,
    tail: u64,
    control: u64,
}

// What a register of an open function reads.
pub fn register(plain: &mut Device<FlatMem>, pool: u8, offset: u32) -> Option<u64> {
    match plain.vf_read(pool, offset) {
        Ok(value) => Some(u64::from(value)),
        Err(_) => None,
    }
}

impl Ring {
    // The ring of a queue whose registers begin at an offset; none where the function isn't open.
    pub fn read(plain: &mut Device<FlatMem>, pool: u8, first: u32) -> Option<Ring> {
        let low = register(plain, pool, first)?;
        let high = register(plain, pool, first.saturating_add(4))?;
        let length = register(plain, pool, first.saturating_add(8))?;
        Some(Ring {
            base: low | high << 32,
            count: length / 16,
            head: register(plain, pool, first.saturating_add(0x10))?,
            tail: register(plain, pool, first.saturating_add(0x18))?,
            control: register(plain, pool, first.saturating_add(0x28))?,
        })
    }

    pub fn is_on(&self) -> bool {
        self.control & ON != 0
    }

    pub fn strips(&self) -> bool {
        self.control & STRIPS != 0
    }

    // How many descriptors the device has: those from the head up to the tail.
    pub fn owned(&self) -> u64 {
        let count = self.count.max(1);
        let behind = self.tail.saturating_add(count).saturating_sub(self.head);
        behind % count
    }

    // Where the descriptor stands that comes so many after the head.
    pub fn slot(&self, place: u64) -> u64 {
        let index = self.head.saturating_add(place) % self.count.max(1);
        self.base.saturating_add(index.saturating_mul(16))
    }
}
