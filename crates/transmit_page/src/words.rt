//! The words of a transmit queue's registers, and where the registers stand.
ghost use Rattle.std.specs.Prelude.{◌≡◌, ◌<◌, ◌≤◌, ◌^◌};
ghost use Rattle.transmit_page.specs.Words.{no_words, word_of, is_on, is_on_word, offset_of, register_at};

/// A register of a transmit queue, in the order in which a changed word is said.
#[derive(Clone, Copy, Debug, Default, PartialEq, Eq)]
pub enum TransmitRegister {
    /// TDBAL: the low half of the ring's base.
    #[default]
    BaseLow,
    /// TDBAH: the high half of it.
    BaseHigh,
    /// TDLEN: the length of the ring in bytes.
    Length,
    /// TDH: its head.
    Head,
    /// TDWBAL: the low half of the address that the head would be written back to.
    WriteBackLow,
    /// TDWBAH: the high half of it.
    WriteBackHigh,
    /// TXDCTL: bit 25 turns the queue on.
    Control,
    /// TDT: its tail.
    Tail,
}

/// The words of a transmit queue's registers.
#[derive(Clone, Copy, Debug)]
pub struct RingWords {
    /// TDBAL.
    pub base_low: u32,
    /// TDBAH.
    pub base_high: u32,
    /// TDLEN.
    pub length: u32,
    /// TDH.
    pub head: u32,
    /// TDWBAL.
    pub write_back_low: u32,
    /// TDWBAH.
    pub write_back_high: u32,
    /// TXDCTL.
    pub control: u32,
    /// TDT.
    pub tail: u32,
}

/// Bit of TXDCTL: the queue is on.
pub const ENABLE: u32 = 0x200_0000;

/// Where the page begins in BAR 0.
pub const FIRST: u32 = 0x2000;

/// The last offset in it.
pub const LAST: u32 = 0x2FFF;

// How far the registers of queue 1 stand behind those of queue 0.
const STRIDE: u32 = 0x40;

impl RingWords {
    /// The words of a queue that nothing was done with: each is 0.
    pub fn zeros() -> RingWords
        ensures { result ≡ no_words }
    {
        RingWords {
            base_low: 0,
            base_high: 0,
            length: 0,
            head: 0,
            write_back_low: 0,
            write_back_high: 0,
            control: 0,
            tail: 0,
        }
    }

    /// The word of a register.
    pub fn word(&self, register: TransmitRegister) -> u32
        ensures { result ≡ word_of self.now register }
    {
        match register {
            TransmitRegister::BaseLow => self.base_low,
            TransmitRegister::BaseHigh => self.base_high,
            TransmitRegister::Length => self.length,
            TransmitRegister::Head => self.head,
            TransmitRegister::WriteBackLow => self.write_back_low,
            TransmitRegister::WriteBackHigh => self.write_back_high,
            TransmitRegister::Control => self.control,
            TransmitRegister::Tail => self.tail,
        }
    }

    /// Whether the queue is on.
    pub fn is_on(&self) -> bool
        ensures { result ≡ is_on self.now }
    {
        is_on_word(self.control)
    }
}

/// Whether a word of TXDCTL turns its queue on.
pub(crate) fn is_on_word(control: u32) -> bool
    ensures { result ≡ is_on_word control }
{
    control / ENABLE % 2 == 1
}

/// The offset in BAR 0 of a register of queue 0 or 1.
pub fn offset_of(queue: u8, register: TransmitRegister) -> u32
    requires { queue < 2 }
    ensures { result ≡ offset_of queue register }
{
    let offset = match register {
        TransmitRegister::BaseLow => 0x00,
        TransmitRegister::BaseHigh => 0x04,
        TransmitRegister::Length => 0x08,
        TransmitRegister::Head => 0x10,
        TransmitRegister::Tail => 0x18,
        TransmitRegister::Control => 0x28,
        TransmitRegister::WriteBackLow => 0x38,
        TransmitRegister::WriteBackHigh => 0x3C,
    };
    FIRST + u32::from(queue) * STRIDE + offset
}

/// The queue and the register that stand at an offset in BAR 0, if any do.
#[tactic(auto, unfolding(crate::specs::Words::register_at))]
pub fn register_at(offset: u32) -> Option<(u8, TransmitRegister)>
    ensures { result ≡ register_at offset }
{
    match offset {
        0x2000 => Some((0, TransmitRegister::BaseLow)),
        0x2004 => Some((0, TransmitRegister::BaseHigh)),
        0x2008 => Some((0, TransmitRegister::Length)),
        0x2010 => Some((0, TransmitRegister::Head)),
        0x2018 => Some((0, TransmitRegister::Tail)),
        0x2028 => Some((0, TransmitRegister::Control)),
        0x2038 => Some((0, TransmitRegister::WriteBackLow)),
        0x203C => Some((0, TransmitRegister::WriteBackHigh)),
        0x2040 => Some((1, TransmitRegister::BaseLow)),
        0x2044 => Some((1, TransmitRegister::BaseHigh)),
        0x2048 => Some((1, TransmitRegister::Length)),
        0x2050 => Some((1, TransmitRegister::Head)),
        0x2058 => Some((1, TransmitRegister::Tail)),
        0x2068 => Some((1, TransmitRegister::Control)),
        0x2078 => Some((1, TransmitRegister::WriteBackLow)),
        0x207C => Some((1, TransmitRegister::WriteBackHigh)),
        _ => None,
    }
}
