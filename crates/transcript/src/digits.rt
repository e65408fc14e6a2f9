//! Hexadecimal digits, written.
ghost use Rattle.std.specs.Prelude.{◌≡◌, ◌*◌, ◌<◌, [], ◌∷◌, length, slice_index};
ghost use Rattle.std.specs.Int.{to_be_bytes, w32};
ghost use Rattle.hex.specs.Hex.{encode_lower, lower_digits};

// The two lower-case digits of each byte.
static PAIRS: [u8; 512] =
    *b"000102030405060708090a0b0c0d0e0f101112131415161718191a1b1c1d1e1f202122232425262728292a2b2c2d2e2f303132333435363738393a3b3c3d3e3f404142434445464748494a4b4c4d4e4f505152535455565758595a5b5c5d5e5f606162636465666768696a6b6c6d6e6f707172737475767778797a7b7c7d7e7f808182838485868788898a8b8c8d8e8f909192939495969798999a9b9c9d9e9fa0a1a2a3a4a5a6a7a8a9aaabacadaeafb0b1b2b3b4b5b6b7b8b9babbbcbdbebfc0c1c2c3c4c5c6c7c8c9cacbcccdcecfd0d1d2d3d4d5d6d7d8d9dadbdcdddedfe0e1e2e3e4e5e6e7e8e9eaebecedeeeff0f1f2f3f4f5f6f7f8f9fafbfcfdfeff";

// The lower-case digit of a value.
#[inline]
fn digit(value: u8) -> u8
    requires { value < 16 }
    ensures { result ≡ slice_index lower_digits value }
{
    if value < 10 {
        b'0' + value
    } else {
        b'a' - 10 + value
    }
}

/// Writes two lower-case digits for each byte.
#[inline(never)]
pub fn encode(bytes: &[u8], out: &mut [u8])
    requires { length out.old ≡ 2 * length bytes.now }
    ensures { out.new ≡ encode_lower bytes.now }
{
    // A choice without a table: in this form the loop does it for many bytes at once.
    for i in 0..bytes.len() {
        let byte = bytes[i];
        out[2 * i] = digit(byte / 16);
        out[2 * i + 1] = digit(byte % 16);
    }
}

/// The eight lower-case digits of a value.
#[inline]
pub fn encode_word(value: u32) -> [u8; 8]
    ensures { result ≡ encode_lower (to_be_bytes w32 value) }
{
    let [a, b, c, d] = value.to_be_bytes();
    let (a, b, c, d) = (pair(a), pair(b), pair(c), pair(d));
    [a[0], a[1], b[0], b[1], c[0], c[1], d[0], d[1]]
}

// The two lower-case digits of a byte.
#[inline]
fn pair(byte: u8) -> [u8; 2]
    ensures { result ≡ encode_lower (byte ∷ []) }
{
    let at = 2 * usize::from(byte);
    [PAIRS[at], PAIRS[at + 1]]
}
