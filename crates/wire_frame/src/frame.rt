//! A frame, its addresses and its VLAN tag.
ghost use Rattle.std.specs.Prelude.{◌≡◌, ℕ, List, ◌+◌, ◌*◌, ◌/◌, ◌%◌, ◌<◌, ◌≤◌, ◌↔◌, ◌++◌, ◌∷◌, [], take, drop, length, replicate, slice_index, slice_range, bytes_eq, IsTrue, IsOk, IfOk, IfErr, IfSome, is_ok, is_some, max, nat_le, ◌&&◌, if◌then◌else◌};
ghost use Rattle.std.specs.Cmp.{partial_equiv_from_equiv};
ghost use Rattle.std.specs.Cmp.Lexicographic.{nat_list_eq_equiv};
ghost use Rattle.wire_frame.specs.Frame.{IsFrame, is_frame, is_frame_tagged, is_tagged, destination, source, tag_of, tag_control, tag_bytes, untagged, with_tag};

use crate::{Fault, Mac};
use arrayvec::ArrayVec;
use std::marker::Model;

/// Up to 9018 bytes, held in place.
pub type FrameBytes = ArrayVec<u8, 9018>;

/// How long a frame may be that a device takes or sends, 1518 to 9018 bytes.
#[derive(Clone, Copy, Debug, PartialEq, Eq)]
pub struct FrameLimit {
    most: u16,
}

impl Model for FrameLimit {
    ghost use Rattle.std.specs.Prelude.{ℕ, ◌≤◌};

    ghost Value = { ℕ };

    ghost view = { λ l. l.most };

    ghost invariant = { λ l. (1518 ≤ l.most) × (l.most ≤ 9018) };

    ghost inverse = { λ n. record { most = n } };
}

impl FrameLimit {
    /// The limit of that many bytes, if it is one.
    pub fn new(bytes: u16) -> Option<FrameLimit>
        ensures variant { is_some result ≡ (nat_le 1518 bytes && nat_le bytes 9018) }
        ensures value { IfSome result (λ l. l ≡ bytes) }
    {
        if (1518..=9018).contains(&bytes) {
            Some(FrameLimit { most: bytes })
        } else {
            None
        }
    }

    /// 1518 bytes, the longest frame without jumbo frames.
    pub fn standard() -> FrameLimit
        ensures { result ≡ 1518 }
    {
        FrameLimit { most: 1518 }
    }

    /// 9018 bytes, the longest frame that there is.
    #[inline]
    pub fn longest() -> FrameLimit
        ensures { result ≡ 9018 }
    {
        FrameLimit { most: 9018 }
    }

    /// The number of bytes.
    #[inline]
    pub fn get(self) -> u16
        ensures value { result ≡ self }
        ensures least { 1518 ≤ result }
        ensures most { result ≤ 9018 }
    {
        self.most
    }
}

impl Default for FrameLimit {
    ghost is_default = { λ l. l ≡ 1518 };

    /// The standard limit.
    fn default() -> FrameLimit {
        FrameLimit::standard()
    }
}

/// A frame that stands elsewhere: 14 to 9018 bytes without FCS; one with a VLAN tag has at least 18 (IEEE 802.3 and 802.1Q).
#[derive(Clone, Copy)]
pub struct Frame<'a> {
    bytes: &'a [u8],
    ghost frame: { IsFrame bytes.now },
}

impl<'a> Frame<'a> {
    /// The frame of these bytes, where it is no longer than `limit`. They are refused as [`Fault::BadFrame`] exactly where they are
    /// no such frame.
    #[inline]
    pub fn new(bytes: &'a [u8], limit: FrameLimit) -> Result<Frame<'a>, Fault>
        ensures variant { is_ok result ≡ is_frame limit bytes.now }
        ensures value { IfOk result (λ f. f.bytes.now ≡ bytes.now) }
        ensures err { IfErr result (λ e. e ≡ Fault.BadFrame) }
    {
        if !is_frame(bytes, usize::from(limit.get())) {
            return Err(Fault::BadFrame);
        }
        Ok(Frame { bytes })
    }

    /// The bytes of the frame.
    #[inline]
    pub fn bytes(self) -> &'a [u8]
        ensures value { result.now ≡ self.entry.bytes.now }
        ensures frame { IsFrame self.entry.bytes.now }
    {
        self.bytes
    }

    /// The destination: bytes 0 to 5.
    #[inline]
    pub fn dst(self) -> Mac
        ensures { result.0 ≡ destination self.entry.bytes.now }
    {
        let bytes = self.bytes();
        Mac([bytes[0], bytes[1], bytes[2], bytes[3], bytes[4], bytes[5]])
    }

    /// The source: bytes 6 to 11.
    #[inline]
    pub fn src(self) -> Mac
        ensures { result.0 ≡ source self.entry.bytes.now }
    {
        let bytes = self.bytes();
        Mac([bytes[6], bytes[7], bytes[8], bytes[9], bytes[10], bytes[11]])
    }

    /// The tag control, where the frame is tagged: priority and VLAN id (IEEE 802.1Q, TCI).
    #[inline]
    pub fn tag(self) -> Option<u16>
        ensures { result ≡ tag_of self.entry.bytes.now }
    {
        let bytes = self.bytes();
        if is_tagged(bytes) {
            Some(u16::from(bytes[14]) * 256 + u16::from(bytes[15]))
        } else {
            None
        }
    }
}

/// A frame of its own bytes, held in place; what it shows elsewhere is a [`Frame`].
#[derive(Debug, Drop)]
pub struct FrameBuf {
    kept: FrameBytes,
}

impl Model for FrameBuf {
    ghost use Rattle.std.specs.Prelude.{List, ℕ};
    ghost use Rattle.wire_frame.specs.Frame.{IsFrame};

    ghost Value = { List ℕ };

    ghost view = { λ f. f.kept.items };

    ghost invariant = { λ f. IsFrame f.kept.items };
}

impl PartialEq for FrameBuf {
    ghost eq = { bytes_eq };

    ghost laws = { partial_equiv_from_equiv nat_list_eq_equiv };

    /// Whether the frames have the same bytes.
    fn eq(&self, other: &FrameBuf) -> bool
        ensures value { result ≡ bytes_eq self.now other.now }
        ensures same { IsTrue result ↔ (self.now ≡ other.now) }
    {
        self.bytes() == other.bytes()
    }
}

impl Eq for FrameBuf {
    ghost laws = { nat_list_eq_equiv };
}

impl FrameBuf {
    ghost use Rattle.std.specs.Borrow.{sem};
    ghost use Rattle.wire_frame.specs.Lent.{lends_first};

    /// The frame of these bytes. They are refused as [`Fault::BadFrame`] exactly where they are no frame.
    pub fn from_bytes(bytes: &[u8]) -> Result<FrameBuf, Fault>
        ensures variant { is_ok result ≡ is_frame 9018 bytes.now }
        ensures frame { IsOk result ↔ IsFrame bytes.now }
        ensures value { IfOk result (λ f. f ≡ bytes.now) }
        ensures err { IfErr result (λ e. e ≡ Fault.BadFrame) }
    {
        if !is_frame(bytes, 9018) {
            return Err(Fault::BadFrame);
        }
        let mut kept = FrameBytes::new();
        extend(&mut kept, bytes);
        Ok(FrameBuf { kept })
    }

    /// A frame of 14 zero bytes, for one that is filled later.
    pub fn blank() -> FrameBuf
        ensures { result ≡ replicate {A = ℕ} 14 0 }
    {
        let mut kept = FrameBytes::new();
        extend(&mut kept, &[0u8; 14]);
        FrameBuf { kept }
    }

    /// An equal frame.
    pub fn copy(&self) -> FrameBuf
        ensures { result ≡ self.now }
    {
        let mut kept = FrameBytes::new();
        extend(&mut kept, self.bytes());
        FrameBuf { kept }
    }

    /// The bytes of the frame.
    #[inline]
    pub fn bytes(&self) -> &[u8]
        ensures value { result.now ≡ self.now }
        ensures frame { IsFrame self.now }
    {
        self.kept.as_slice()
    }

    /// The same frame, where it stands.
    #[inline]
    pub fn as_frame(&self) -> Frame<'_>
        ensures { result.bytes.now ≡ self.now }
    {
        Frame {
            bytes: self.bytes(),
        }
    }

    /// The destination: bytes 0 to 5.
    #[inline]
    pub fn dst(&self) -> Mac
        ensures { result.0 ≡ destination self.now }
    {
        self.as_frame().dst()
    }

    /// The source: bytes 6 to 11.
    #[inline]
    pub fn src(&self) -> Mac
        ensures { result.0 ≡ source self.now }
    {
        self.as_frame().src()
    }

    /// The tag control, where the frame is tagged: priority and VLAN id (IEEE 802.1Q, TCI).
    #[inline]
    pub fn tag(&self) -> Option<u16>
        ensures { result ≡ tag_of self.now }
    {
        self.as_frame().tag()
    }

    /// The tag control, and the bytes without the tag, where the frame is tagged.
    pub fn stripped(&self) -> Option<(u16, FrameBytes)>
        ensures variant { is_some result ≡ is_tagged self.now }
        ensures value { IfSome result
            (λ p. (p.0 ≡ tag_control self.now) × (p.1.items ≡ untagged self.now)) }
    {
        let tag = self.tag()?;
        let bytes = self.bytes();
        let mut kept = FrameBytes::new();
        extend(&mut kept, &bytes[..12]);
        extend(&mut kept, &bytes[16..]);
        Some((tag, kept))
    }

    /// The frame with a tag after its addresses, unless it would be longer than 9018 bytes.
    pub fn insert(&self, tag: u16) -> Option<FrameBuf>
        ensures variant { is_some result ≡ nat_le (length self.now + 4) 9018 }
        ensures value { IfSome result (λ f. f ≡ with_tag tag self.now) }
    {
        let bytes = self.bytes();
        if bytes.len() + 4 > 9018 {
            return None;
        }
        let mut kept = FrameBytes::new();
        extend(&mut kept, &bytes[..12]);
        extend(&mut kept, &tag_bytes(tag));
        extend(&mut kept, &bytes[12..]);
        Some(FrameBuf { kept })
    }

    /// Makes this frame the bytes, where they are a frame no longer than `limit`, and tells whether they are.
    #[inline]
    pub fn refill(&mut self, bytes: &[u8], limit: FrameLimit) -> bool
        ensures value { result ≡ is_frame limit bytes.now }
        ensures frame { self.new ≡ (if result then bytes.now else self.old) }
    {
        if !is_frame(bytes, usize::from(limit.get())) {
            return false;
        }
        lay(&mut self.kept, bytes);
        true
    }

    /// Cuts the frame to its first `len` bytes, at least 18 and no more than it has, and lends them to be written over. So many
    /// bytes are a frame whatever they are.
    #[inline]
    pub fn cut(&mut self, len: usize) -> &mut [u8]
        requires least { 18 ≤ len }
        requires most { len ≤ length self.old }
        ensures* writes_back { sem 𝓛 (lends_first self.entry len result) }
        ensures value { result.now ≡ take len self.old }
        ensures len { length result.now ≡ len }
    {
        self.kept.truncate(len);
        self.kept.as_mut_slice()
    }

    /// Makes this frame the bytes with a tag after the two addresses, where that is a frame no longer than `limit`, and
    /// tells whether it is. Fewer than 12 bytes have no place for a tag.
    #[inline]
    pub fn refill_tagged(&mut self, tag: u16, bytes: &[u8], limit: FrameLimit) -> bool
        ensures value { result ≡ is_frame_tagged limit tag bytes.now }
        ensures frame { self.new ≡ (if result then with_tag tag bytes.now else self.old) }
    {
        let len = bytes.len();
        if len < 14 || len + 4 > usize::from(limit.get()) {
            return false;
        }
        lay_tagged(&mut self.kept, tag, bytes);
        true
    }
}

/// Whether bytes have a VLAN tag: those after the two addresses begin with its type, 0x8100 (IEEE 802.1Q).
#[inline]
pub fn is_tagged(bytes: &[u8]) -> bool
    ensures { result ≡ is_tagged bytes.now }
{
    bytes.len() >= 14 && bytes[12] == 0x81 && bytes[13] == 0
}

/// Whether bytes are a frame no longer than `limit` bytes: at least 14 of them, and 18 where they have a VLAN tag (IEEE 802.3,
/// IEEE 802.1Q). No frame is made for that.
#[inline]
pub fn is_frame(bytes: &[u8], limit: usize) -> bool
    ensures { result ≡ is_frame limit bytes.now }
{
    let len = bytes.len();
    len >= 14 && len <= limit && (len >= 18 || !is_tagged(bytes))
}

// The bytes of a tag.
#[inline]
fn tag_bytes(tag: u16) -> [u8; 4]
    ensures { result ≡ tag_bytes tag }
{
    [0x81, 0, (tag / 256) as u8, (tag % 256) as u8]
}

// Appends bytes for which there is room.
#[inline]
fn extend(kept: &mut FrameBytes, more: &[u8])
    requires { length kept.old.items + length more.now ≤ 9018 }
    ensures { kept.new.items ≡ kept.old.items ++ more.now }
{
    match kept.try_extend_from_slice(more) {
        Ok(()) => {}
        Err(_) => unreachable!(),
    }
}

// Writes bytes over those from a place on, and appends what goes past the end.
#[inline]
fn overlay(kept: &mut FrameBytes, at: usize, more: &[u8])
    requires within { at ≤ length kept.old.items }
    requires room { at + length more.now ≤ 9018 }
    ensures front { take (at + length more.now) kept.new.items
        ≡ take at kept.old.items ++ more.now }
    ensures len { length kept.new.items ≡ max (at + length more.now) (length kept.old.items) }
{
    let inside = (kept.len() - at).min(more.len());
    let (front, back) = more.split_at(inside);
    kept.as_mut_slice()[at..at + inside].copy_from_slice(front);
    extend(kept, back);
}

// Makes these bytes the others. What both have room for is written over, so that no byte is moved twice.
#[inline]
fn lay(kept: &mut FrameBytes, bytes: &[u8])
    requires { length bytes.now ≤ 9018 }
    ensures { kept.new.items ≡ bytes.now }
{
    kept.truncate(bytes.len());
    let (front, back) = bytes.split_at(kept.len());
    kept.as_mut_slice().copy_from_slice(front);
    if !back.is_empty() {
        extend(kept, back);
    }
}

// The same, with a tag after the first 12 bytes.
#[inline]
fn lay_tagged(kept: &mut FrameBytes, tag: u16, bytes: &[u8])
    requires least { 12 ≤ length bytes.now }
    requires most { length bytes.now + 4 ≤ 9018 }
    ensures { kept.new.items ≡ with_tag tag bytes.now }
{
    kept.truncate(bytes.len() + 4);
    overlay(kept, 0, &bytes[..12]);
    overlay(kept, 12, &tag_bytes(tag));
    overlay(kept, 16, &bytes[12..]);
}
