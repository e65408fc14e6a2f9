//! The events of a script as they are kept, and as lines say them.
ghost use Rattle.std.specs.Prelude.{◌≡◌, ◌≤◌, [], ◌∷◌, length, Some, None, IfOk, IfErr, MatchResult, option_and_then};
ghost use Rattle.script.specs.declared.kind.Kind.TheVariants.{Wire};
ghost use Rattle.script.specs.Bytes.{bytes_of, few};
ghost use Rattle.script.specs.Lines.{event_by};
ghost use Rattle.script.specs.Records.{Fits, event_at};
ghost use Rattle.script.specs.Store.{Grows};

use crate::chunks::{MOST_BYTES, lay_word};
use crate::fault::Refusal;
use crate::kind::Kind;
use crate::scratch::Scratch;
use crate::store::{Store, Stored};
use crate::words::{Words, length, pool, queue, register};
use device::Event;
use wire_frame::{FrameLimit, is_frame};

/// The most bytes of one memory write.
const MOST_WRITTEN: u16 = 2048;

/// An event of a script, whose bytes stand in the script's store.
pub type Record = Event<Stored, Stored>;

/// The event of a line of this kind, by the words after its name. Its bytes are kept in `store`; frames may be as long as
/// the limit. The bytes are read in `scratch`.
pub fn record_of_line(
    kind: Kind,
    words: Words<'_>,
    limit: FrameLimit,
    store: &mut Store,
    scratch: &mut Scratch,
) -> Result<Record, Refusal>
    ensures event { IfOk result
        (λ made. event_by limit kind words.entry ≡ Some (event_at store.new made)) }
    ensures bad { IfErr result
        (λ e. e ≡ Refusal.BadLine → event_by limit kind words.entry ≡ None) }
    ensures fits { IfOk result (λ made. Fits store.new made) }
    ensures grown { Grows store.old store.new }
{
    Ok(match kind {
        Kind::Wire => wire_record(words.one()?, limit, store, scratch)?,
        Kind::VfRead => {
            let (p, at) = words.two_numbers()?;
            Record::VfRead(pool(p)?, register(at)?)
        }
        Kind::VfWrite => {
            let (p, at, value) = words.three_numbers()?;
            Record::VfWrite(pool(p)?, register(at)?, register(value)?)
        }
        Kind::Serve => {
            let (p, q) = words.two_numbers()?;
            Record::Serve(pool(p)?, queue(q)?)
        }
        Kind::MemRead => {
            let (p, at, count) = words.three_numbers()?;
            Record::MemRead(pool(p)?, at, length(count)?)
        }
        Kind::MemWrite => {
            let (p, at, hex) = words.two_numbers_and_word()?;
            let pool = pool(p)?;
            let bytes = read(hex, MOST_WRITTEN, &mut scratch.bytes)?;
            Record::MemWrite(pool, at, store.keep(hex, bytes)?)
        }
        Kind::PfRead => Record::PfRead(register(words.one_number()?)?),
        Kind::PfWrite => {
            let (at, value) = words.two_numbers()?;
            Record::PfWrite(register(at)?, register(value)?)
        }
        Kind::Open => Record::Open(pool(words.one_number()?)?),
        Kind::End => Record::End(pool(words.one_number()?)?),
        Kind::Flr => Record::Flr(pool(words.one_number()?)?),
        Kind::PfReset => {
            words.none()?;
            Record::PfReset
        }
    })
}

// A frame from the wire, of the bytes that a word writes.
fn wire_record(
    hex: &[u8],
    limit: FrameLimit,
    store: &mut Store,
    scratch: &mut Scratch,
) -> Result<Record, Refusal>
    ensures event { IfOk result
        (λ made. event_by limit Wire (hex.now ∷ []) ≡ Some (event_at store.new made)) }
    ensures bad { IfErr result
        (λ e. e ≡ Refusal.BadLine → event_by limit Wire (hex.now ∷ []) ≡ None) }
    ensures fits { IfOk result (λ made. Fits store.new made) }
    ensures grown { Grows store.old store.new }
{
    let bytes = read(hex, limit.get(), &mut scratch.bytes)?;
    if !is_frame(bytes, bytes.len()) {
        return Err(Refusal::BadLine);
    }
    Ok(Record::Wire(store.keep(hex, bytes)?))
}

// The bytes that a word writes, at most `most`, laid out in `room`.
#[inline]
fn read<'a>(word: &[u8], most: u16, room: &'a mut [u8; MOST_BYTES]) -> Result<&'a [u8], Refusal>
    requires { most ≤ 9018 }
    ensures { MatchResult result
        (λ bytes. (bytes_of word.now ≡ Some bytes.now) × (length bytes.now ≤ most))
        (λ e. (e ≡ Refusal.BadLine) × (option_and_then (few most) (bytes_of word.now) ≡ None)) }
{
    let part = &mut room[..usize::from(most)];
    match lay_word(word, part) {
        Some(count) => Ok(&part[..count]),
        None => Err(Refusal::BadLine),
    }
}
