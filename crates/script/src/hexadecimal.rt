//! Hexadecimal digits, read.
ghost use Rattle.std.specs.Prelude.{◌≡◌, ◌*◌, ℕ, List, Option, Some, None, length, if◌then◌else◌};
ghost use Rattle.script.specs.Numbers.{digit_value};
ghost use Rattle.script.specs.Bytes.{byte_of, pairs_of};

// What stands for a byte that is no digit.
const NO_DIGIT: u8 = 0xFF;

// Fewer bytes than these are faster read one by one.
const FEW: usize = 16;

// The value of each byte as a hexadecimal digit of either case, and 255 where it is none.
static VALUES: [u8; 256] = [
    255, 255, 255, 255, 255, 255, 255, 255, 255, 255, 255, 255, 255, 255, 255, 255, 255, 255, 255,
    255, 255, 255, 255, 255, 255, 255, 255, 255, 255, 255, 255, 255, 255, 255, 255, 255, 255, 255,
    255, 255, 255, 255, 255, 255, 255, 255, 255, 255, 0, 1, 2, 3, 4, 5, 6, 7, 8, 9, 255, 255, 255,
    255, 255, 255, 255, 10, 11, 12, 13, 14, 15, 255, 255, 255, 255, 255, 255, 255, 255, 255, 255,
    255, 255, 255, 255, 255, 255, 255, 255, 255, 255, 255, 255, 255, 255, 255, 255, 10, 11, 12, 13,
    14, 15, 255, 255, 255, 255, 255, 255, 255, 255, 255, 255, 255, 255, 255, 255, 255, 255, 255,
    255, 255, 255, 255, 255, 255, 255, 255, 255, 255, 255, 255, 255, 255, 255, 255, 255, 255, 255,
    255, 255, 255, 255, 255, 255, 255, 255, 255, 255, 255, 255, 255, 255, 255, 255, 255, 255, 255,
    255, 255, 255, 255, 255, 255, 255, 255, 255, 255, 255, 255, 255, 255, 255, 255, 255, 255, 255,
    255, 255, 255, 255, 255, 255, 255, 255, 255, 255, 255, 255, 255, 255, 255, 255, 255, 255, 255,
    255, 255, 255, 255, 255, 255, 255, 255, 255, 255, 255, 255, 255, 255, 255, 255, 255, 255, 255,
    255, 255, 255, 255, 255, 255, 255, 255, 255, 255, 255, 255, 255, 255, 255, 255, 255, 255, 255,
    255, 255, 255, 255, 255, 255, 255, 255, 255, 255, 255, 255, 255, 255, 255, 255, 255, 255, 255,
    255, 255, 255,
];

/// The value of a hexadecimal digit of either case, and 255 where the byte is none: by a table, for one digit at a time.
#[inline]
#[tactic(auto, using(crate::proofs::Values::VALUES_at))]
pub fn value(byte: u8) -> u8
    ensures { result ≡ digit_value byte }
{
    VALUES[usize::from(byte)]
}

// The same without the table.
#[inline]
#[tactic(auto, unfolding(crate::specs::Numbers::digit_value))]
fn digit(byte: u8) -> u8
    ensures { result ≡ digit_value byte }
{
    // Two choices: in this form a loop does it for many digits at once.
    let decimal = byte.wrapping_sub(b'0');
    let letter = byte.wrapping_sub(b'A').min(byte.wrapping_sub(b'a'));
    if decimal < 10 {
        decimal
    } else if letter < 6 {
        letter + 10
    } else {
        NO_DIGIT
    }
}

/// The byte that two digits write, the high one first.
#[inline]
#[tactic(auto, unfolding(crate::specs::Bytes::byte_of))]
pub fn byte(high: u8, low: u8) -> Option<u8>
    ensures { result ≡ byte_of high low }
{
    let (high, low) = (value(high), value(low));
    if high < 16 && low < 16 {
        Some(high * 16 + low)
    } else {
        None
    }
}

// The value of a digit, with or without the table.
#[inline(always)]
fn value_by(is_one_of_many: bool, byte: u8) -> u8
    ensures { result ≡ digit_value byte }
{
    if is_one_of_many {
        digit(byte)
    } else {
        value(byte)
    }
}

/// Writes the bytes that digits write two by two, and tells whether all of them are digits. Where one is none, it is left
/// open what is written.
#[inline]
pub fn decode(digits: &[u8], out: &mut [u8]) -> bool
    requires { length digits.now ≡ 2 * length out.old }
    ensures { (if result then Some out.new else None) ≡ pairs_of digits.now }
{
    if out.len() < FEW {
        decode_by(false, digits, out)
    } else {
        decode_many(digits, out)
    }
}

// The same, of many.
#[inline(never)]
fn decode_many(digits: &[u8], out: &mut [u8]) -> bool
    requires { length digits.now ≡ 2 * length out.old }
    ensures { (if result then Some out.new else None) ≡ pairs_of digits.now }
{
    decode_by(true, digits, out)
}

// The same, of many or few.
#[inline(always)]
fn decode_by(are_many: bool, digits: &[u8], out: &mut [u8]) -> bool
    requires { length digits.now ≡ 2 * length out.old }
    ensures { (if result then Some out.new else None) ≡ pairs_of digits.now }
{
    // There is no exit from the loop where a digit is none: in this form it is done for many digits at once.
    let mut greatest = 0;
    let mut rest = digits;
    for byte in out.iter_mut() {
        let [high, low, after @ ..] = rest else {
            unreachable!();
        };
        let (high, low) = (value_by(are_many, *high), value_by(are_many, *low));
        greatest = greatest.max(high).max(low);
        *byte = high.wrapping_mul(16).wrapping_add(low);
        rest = after;
    }
    greatest < 16
}
