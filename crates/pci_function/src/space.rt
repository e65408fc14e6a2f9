//! The bytes of the space: reads, writes, resets, and the flags that a caller asks for.
ghost use Rattle.std.specs.Prelude.{◌≡◌, ◌<◌, ◌≤◌, ◌+◌, ℕ, suc, length, if◌then◌else◌};
ghost use Rattle.pci_function.specs.Space.{initial, bytes_at, with_byte, with_bytes, written, resets_by, resets, flag, has_memory_space, is_bus_master, has_msix, is_masked, size_of_bar};
ghost use Rattle.pci_function.specs.declared.space.Effect.TheVariants.{Nothing, Reset};

use crate::table::{initial_at, writable_at};
use std::marker::Model;

// How many bytes the space has.
const SIZE: usize = 256;

// Command, and its bits Memory Space and Bus Master.
const COMMAND: usize = 0x04;

const MEMORY_SPACE: u32 = 1;

const BUS_MASTER: u32 = 2;

// Message Control of MSI-X, and its bits Function Mask and MSI-X Enable.
const MESSAGE_CONTROL: usize = 0x72;

const FUNCTION_MASK: u32 = 14;

const MSIX_ENABLE: u32 = 15;

// The second byte of Device Control, and Initiate Function Level Reset in it.
const HIGH_DEVICE_CONTROL: usize = 0xA9;

const INITIATE_RESET: u8 = 0x80;

/// What a write asks of the caller, beside what it leaves in the space.
#[derive(Clone, Copy, Debug, PartialEq, Eq)]
pub enum Effect {
    /// Nothing.
    Nothing,
    /// The function is to be reset: the write set Initiate Function Level Reset (PCI Express 2.1, 7.8.4).
    Reset,
}

/// The configuration space of one virtual function.
///
/// Its meaning is the list of the 256 bytes that it reads.
#[derive(Drop)]
pub struct PciFunction {
    space: [u8; SIZE],
}

impl Model for PciFunction {
    ghost use Rattle.std.specs.Prelude.{ℕ, List};

    ghost Value = { List ℕ };

    ghost view = { λ f. f.space };
}

impl PciFunction {
    /// The space of a function that was just made or reset.
    pub fn new() -> PciFunction
        ensures { result ≡ initial }
    {
        let mut space = [0u8; SIZE];
        lay_initial(&mut space);
        PciFunction { space }
    }

    /// Makes the space as it was at first.
    pub fn reset(&mut self)
        ensures { self.new ≡ initial }
    {
        lay_initial(&mut self.space);
    }

    /// Copies the bytes from an offset on. Behind the 256 bytes of the space all is 0.
    #[tactic(auto, unfolding(crate::specs::Space::bytes_at))]
    pub fn read(&self, offset: u64, out: &mut [u8])
        ensures { out.new ≡ bytes_at self.now offset (length out.old) }
    {
        out.fill(0);
        if offset < 256 {
            let place = offset as usize;
            let count = out.len().min(SIZE - place);
            out[..count].copy_from_slice(&self.space[place..place + count]);
        }
    }

    /// Writes bytes from an offset on, of each the bits that a write sets. What stands behind the 256 bytes of the space is ignored.
    ///
    /// Where one of the bytes sets Initiate Function Level Reset, the space is as it was at first, whatever else is written.
    ///
    /// ```
    /// let mut function = PciFunction::new();
    /// // Command: memory space and bus master
    /// assert!(rt; function.write(0x04, &[0x06, 0x00]) == Effect::Nothing);
    /// assert!(rt; function.is_bus_master());
    /// // Device Control: Initiate Function Level Reset
    /// assert!(rt; function.write(0xA8, &[0x00, 0x80]) == Effect::Reset);
    /// assert!(rt; !function.is_bus_master());
    /// ```
    pub fn write(&mut self, offset: u64, bytes: &[u8]) -> Effect
        ensures space { self.new ≡ written offset bytes.now self.old }
        ensures effect { result ≡ (if resets offset bytes.now then Reset else Nothing) }
    {
        write_space(&mut self.space, offset, bytes)
    }

    /// Whether the guest lets the function answer accesses of its BARs (Memory Space, PCI 3.0, 6.2.2).
    pub fn has_memory_space(&self) -> bool
        ensures { result ≡ has_memory_space self.now }
    {
        flag(&self.space, COMMAND, MEMORY_SPACE)
    }

    /// Whether the guest lets the function read and write its memory, and send interrupt messages (Bus Master, PCI 3.0, 6.2.2).
    pub fn is_bus_master(&self) -> bool
        ensures { result ≡ is_bus_master self.now }
    {
        flag(&self.space, COMMAND, BUS_MASTER)
    }

    /// Whether interrupts are sent by MSI-X (MSI-X Enable, PCI 3.0, 6.8.2.3).
    pub fn has_msix(&self) -> bool
        ensures { result ≡ has_msix self.now }
    {
        flag(&self.space, MESSAGE_CONTROL, MSIX_ENABLE)
    }

    /// Whether all vectors of MSI-X are masked, whatever each one's own mask bit says (Function Mask, PCI 3.0, 6.8.2.3).
    pub fn is_masked(&self) -> bool
        ensures { result ≡ is_masked self.now }
    {
        flag(&self.space, MESSAGE_CONTROL, FUNCTION_MASK)
    }
}

/// How many bytes base address register `bar` stands for: 16,384 for BAR 0, the device's registers, and BAR 3, the table of MSI-X; 0 for
/// all others.
pub fn bar_size(bar: u32) -> u64
    ensures { result ≡ size_of_bar bar }
{
    match bar {
        0 | 3 => 0x4000,
        _ => 0,
    }
}

// The same of the bytes by themselves.
#[tactic(auto, using(crate::proofs::Behind::nothing_written, crate::proofs::Behind::nothing_reset))]
fn write_space(space: &mut [u8; SIZE], offset: u64, bytes: &[u8]) -> Effect
    ensures space { space.new ≡ written offset bytes.now space.old }
    ensures effect { result ≡ (if resets offset bytes.now then Reset else Nothing) }
{
    if offset >= 256 {
        return Effect::Nothing;
    }
    let place = offset as usize;
    if has_reset(place, bytes) {
        lay_initial(space);
        return Effect::Reset;
    }
    write_bytes(space, place, bytes);
    Effect::Nothing
}

// A bit of the 16 bits at a place.
#[tactic(auto, unfolding(crate::specs::Space::flag))]
fn flag(space: &[u8; SIZE], at: usize, bit: u32) -> bool
    requires place { at < 255 }
    requires bit { bit < 16 }
    ensures { result ≡ flag at bit space.now }
{
    let word = u16::from(space[at]) + 256 * u16::from(space[at + 1]);
    (word >> bit) % 2 == 1
}

// Whether one of the bytes from a place on sets Initiate Function Level Reset.
#[tactic(auto, unfolding(crate::specs::Space::resets))]
fn has_reset(place: usize, bytes: &[u8]) -> bool
    requires { place < 256 }
    ensures { result ≡ resets place bytes.now }
{
    let mut k = place;
    for x in bytes {
        if sets_reset(k, *x) {
            return true;
        }
        k += 1;
    }
    false
}

// Whether byte x at place k sets Initiate Function Level Reset.
fn sets_reset(k: usize, x: u8) -> bool
    ensures { result ≡ resets_by k x }
{
    k == HIGH_DEVICE_CONTROL && x / INITIATE_RESET % 2 == 1
}

// Writes bytes one after another.
#[tactic(auto, unfolding(crate::specs::Space::with_bytes))]
fn write_bytes(space: &mut [u8; SIZE], place: usize, bytes: &[u8])
    requires { place < 256 }
    ensures { space.new ≡ with_bytes place bytes.now space.old }
{
    let mut k = place;
    for x in bytes {
        write_byte(space, k, *x);
        k += 1;
    }
}

// Writes one byte.
#[tactic(auto, unfolding(crate::specs::Space::with_byte))]
fn write_byte(space: &mut [u8; SIZE], k: usize, x: u8)
    ensures { space.new ≡ with_byte space.old k x }
{
    if k < SIZE {
        let mask = writable_at(k as u16);
        space[k] = space[k] & !mask | x & mask;
    }
}

// Each byte as it is at first.
fn lay_initial(space: &mut [u8; SIZE])
    ensures { space.new ≡ initial }
{
    for k in 0..256u16 {
        space[usize::from(k)] = initial_at(k);
    }
}
