//! The page of a function's transmit registers, for who has one: a queue's words as they are read there, and what is to be done about them.
//! No call takes a handle: what each says is what the crate `transmit_page` says.
//!
//! The words of a queue are eight, in the order TDBAL, TDBAH, TDLEN, TDH, TDWBAL, TDWBAH, TXDCTL, TDT; the place of a register is its place
//! among them.
ghost use Rattle.std.specs.Prelude.{◌≡◌, ◌≤◌, ◌<◌, length, map};
ghost use Rattle.transmit_page.specs.PutBack.{is_put_back, may_service_change};
ghost use Rattle.transmit_page.specs.Messages.{touched, is_offer};
ghost use Rattle.vfdev_c.specs.Pages.{bits_of, bits_where, changes_on, laid, offset_at, place_of, register_numbered, shown, touched_as, weight_of, words_of};

use arrayvec::ArrayVec;
use transmit_page::{
    RingWords, Touched, TransmitRegister, TransmitWrite, changes_between, is_offer, is_put_back,
    may_service_change, offset_of, touched_by,
};

/// A write of a register, as C sees it.
#[repr(C)]
#[derive(Clone, Copy, Debug, Default, PartialEq, Eq)]
pub struct VfdevRegisterWrite {
    /// The offset of the register in BAR 0.
    pub offset: u32,
    /// The word that is written.
    pub value: u32,
}

/// What a message may change of the transmit registers, as C sees it.
#[repr(C)]
#[derive(Clone, Copy, Debug, PartialEq, Eq)]
pub struct VfdevPageTouched {
    /// 0 nothing, 1 one register, 2 all of them.
    pub kind: u32,
    /// The queue of the one register, and else 0.
    pub queue: u32,
    /// Its place among the words of the queue, and else 0.
    pub place: u32,
}

/// What has changed of the words of queue 0 or 1 as writes of its registers, which stand at the front of `changes` in the order in which they
/// are to be done; the rest of it stays. Tells how many there are: none where there is no such queue.
#[unsafe(no_mangle)]
pub extern "C" fn vfdev_page_changes(
    queue: u8,
    was: &[u32; 8],
    now: &[u32; 8],
    changes: &mut [VfdevRegisterWrite; 10],
) -> usize
    ensures count { result ≡ length (changes_on queue was.now now.now) }
    ensures writes { changes.new ≡ laid (changes_on queue was.now now.now) changes.old }
{
    if queue >= 2 {
        return 0;
    }
    let said = changes_between(&words_of(was), &words_of(now));
    let writes = shown_all(queue, said.as_slice());
    let count = writes.len();
    changes[..count].copy_from_slice(writes.as_slice());
    count
}

/// The words that go back into the page, as their registers read, once these changes were written: bit k for the word at place k.
#[unsafe(no_mangle)]
pub extern "C" fn vfdev_page_put_back(was: &[u32; 8], now: &[u32; 8]) -> u32
    ensures { result ≡ bits_where (λ r. is_put_back r (words_of was.now) (words_of now.now)) }
{
    let (was, now) = (words_of(was), words_of(now));
    bits([
        is_put_back(TransmitRegister::BaseLow, &was, &now),
        is_put_back(TransmitRegister::BaseHigh, &was, &now),
        is_put_back(TransmitRegister::Length, &was, &now),
        is_put_back(TransmitRegister::Head, &was, &now),
        is_put_back(TransmitRegister::WriteBackLow, &was, &now),
        is_put_back(TransmitRegister::WriteBackHigh, &was, &now),
        is_put_back(TransmitRegister::Control, &was, &now),
        is_put_back(TransmitRegister::Tail, &was, &now),
    ])
}

/// The words of a queue that go back into the page, as their registers read, once its descriptors were taken: bit k for the word at place k.
#[unsafe(no_mangle)]
pub extern "C" fn vfdev_page_serviced(words: &[u32; 8]) -> u32
    ensures { result ≡ bits_where (λ r. may_service_change r (words_of words.now)) }
{
    let words = words_of(words);
    bits([
        may_service_change(TransmitRegister::BaseLow, &words),
        may_service_change(TransmitRegister::BaseHigh, &words),
        may_service_change(TransmitRegister::Length, &words),
        may_service_change(TransmitRegister::Head, &words),
        may_service_change(TransmitRegister::WriteBackLow, &words),
        may_service_change(TransmitRegister::WriteBackHigh, &words),
        may_service_change(TransmitRegister::Control, &words),
        may_service_change(TransmitRegister::Tail, &words),
    ])
}

/// What a message of the client may change of the transmit registers.
#[unsafe(no_mangle)]
pub extern "C" fn vfdev_page_touched(message: &[u8]) -> VfdevPageTouched
    ensures { result ≡ touched_as (touched message.now) }
{
    match touched_by(message) {
        Touched::Nothing => VfdevPageTouched {
            kind: 0,
            queue: 0,
            place: 0,
        },
        Touched::One(queue, register) => VfdevPageTouched {
            kind: 1,
            queue: u32::from(queue),
            place: place_of(register),
        },
        Touched::All => VfdevPageTouched {
            kind: 2,
            queue: 0,
            place: 0,
        },
    }
}

/// Whether a reply of the card gives the page to its client: a file is to go beside it.
#[unsafe(no_mangle)]
pub extern "C" fn vfdev_page_offered(reply: &[u8]) -> bool
    ensures { result ≡ is_offer reply.now }
{
    is_offer(reply)
}

/// The offset in BAR 0 of the register at a place among the words of queue 0 or 1, and 0 where there is none.
#[unsafe(no_mangle)]
pub extern "C" fn vfdev_page_offset(queue: u8, place: u32) -> u32
    ensures { result ≡ offset_at queue place }
{
    match register_numbered(place) {
        Some(register) if queue < 2 => offset_of(queue, register),
        _ => 0,
    }
}

// The words of a queue by their places.
fn words_of(words: &[u32; 8]) -> RingWords
    ensures { result ≡ words_of words.now }
{
    RingWords {
        base_low: words[0],
        base_high: words[1],
        length: words[2],
        head: words[3],
        write_back_low: words[4],
        write_back_high: words[5],
        control: words[6],
        tail: words[7],
    }
}

// The place of a register.
fn place_of(register: TransmitRegister) -> u32
    ensures { result ≡ place_of register }
{
    match register {
        TransmitRegister::BaseLow => 0,
        TransmitRegister::BaseHigh => 1,
        TransmitRegister::Length => 2,
        TransmitRegister::Head => 3,
        TransmitRegister::WriteBackLow => 4,
        TransmitRegister::WriteBackHigh => 5,
        TransmitRegister::Control => 6,
        TransmitRegister::Tail => 7,
    }
}

// The register at a place.
fn register_numbered(place: u32) -> Option<TransmitRegister>
    ensures { result ≡ register_numbered place }
{
    match place {
        0 => Some(TransmitRegister::BaseLow),
        1 => Some(TransmitRegister::BaseHigh),
        2 => Some(TransmitRegister::Length),
        3 => Some(TransmitRegister::Head),
        4 => Some(TransmitRegister::WriteBackLow),
        5 => Some(TransmitRegister::WriteBackHigh),
        6 => Some(TransmitRegister::Control),
        7 => Some(TransmitRegister::Tail),
        _ => None,
    }
}

// Writes as C sees them.
fn shown_all(queue: u8, changes: &[TransmitWrite]) -> ArrayVec<VfdevRegisterWrite, 10>
    requires queue { queue < 2 }
    requires few { length changes.now ≤ 10 }
    ensures { result.items ≡ map (shown queue) changes.now }
{
    let mut writes = ArrayVec::new();
    for change in changes {
        writes.push(VfdevRegisterWrite {
            offset: offset_of(queue, change.register),
            value: change.value,
        });
    }
    writes
}

// A number whose bit k is flag k.
fn bits(flags: [bool; 8]) -> u32
    ensures { result ≡ bits_of flags }
{
    weight_of(flags[0], 1)
        + weight_of(flags[1], 2)
        + weight_of(flags[2], 4)
        + weight_of(flags[3], 8)
        + weight_of(flags[4], 16)
        + weight_of(flags[5], 32)
        + weight_of(flags[6], 64)
        + weight_of(flags[7], 128)
}

// A bit of that weight, where the flag is set.
fn weight_of(flag: bool, weight: u32) -> u32
    ensures value { result ≡ weight_of flag weight }
    ensures most { result ≤ weight }
{
    if flag { weight } else { 0 }
}
