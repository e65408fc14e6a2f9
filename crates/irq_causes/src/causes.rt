//! Four sets of vectors, and what changes them.
ghost use Rattle.std.specs.Prelude.{◌≡◌, ℕ, ◌<◌, ◌^◌, true, false};
ghost use Rattle.wire_frame.specs.Bits.{has_bit};
ghost use Rattle.irq_causes.specs.Causes.{no_causes, raised, unmasked, raised_in, unmasked_in, all_raised, all_unmasked, masked, auto_clearing, auto_masking, cleared, emptied, issued, raised_by};

use crate::Vectors;
use std::marker::Model;
use wire_frame::has_bit;

/// The bit of an entry of VTIVAR that says that the entry names a vector (82599 datasheet, INT_Alloc_val).
const ALLOCATED: u32 = 7;

/// The causes of one virtual function that stand, the vectors that are enabled, and those that are cleared or masked
/// automatically.
#[derive(Debug, Drop)]
pub struct Causes {
    causes: Vectors,
    enabled: Vectors,
    auto_clear: Vectors,
    auto_mask: Vectors,
}

impl Model for Causes {
    ghost use Rattle.irq_causes.specs.Causes.{CauseState};

    ghost Value = { CauseState };

    ghost view = { λ c. record {
      causes = c.causes;
      enabled = c.enabled;
      auto_clear = c.auto_clear;
      auto_mask = c.auto_mask;
    } };
}

impl Causes {
    /// How many vectors there are.
    pub const VECTORS: u8 = 3;

    /// No cause stands, and no vector is enabled, or cleared or masked automatically, as after a reset.
    pub fn new() -> Causes
        ensures { result ≡ no_causes }
    {
        Causes {
            causes: Vectors::none(),
            enabled: Vectors::none(),
            auto_clear: Vectors::none(),
            auto_mask: Vectors::none(),
        }
    }

    /// A read of the mask: the vectors that are enabled (82599 datasheet, VTEIMS).
    #[inline]
    pub fn mask(&self) -> Vectors
        ensures { result ≡ self.now.enabled }
    {
        self.enabled
    }

    /// A read of the auto-clear register: the vectors that are cleared automatically (82599 datasheet, VTEIAC).
    #[inline]
    pub fn auto_clear(&self) -> Vectors
        ensures { result ≡ self.now.auto_clear }
    {
        self.auto_clear
    }

    /// A read of the auto-mask register: the vectors that are masked automatically (82599 datasheet, extended interrupt auto
    /// mask enable, VTEIAM).
    #[inline]
    pub fn auto_mask(&self) -> Vectors
        ensures { result ≡ self.now.auto_mask }
    {
        self.auto_mask
    }

    /// Raises cause `v`, and answers with the messages that this issues: that of `v`, or none.
    ///
    /// There is no vector above 2, and a cause that stands already changes nothing. Otherwise an enabled vector issues its
    /// message, stands unless it is cleared automatically, and is enabled no more if it is masked automatically; one that is
    /// not enabled stands.
    #[tactic(auto, unfolding(crate::specs::Causes::raised))]
    pub fn cause(&mut self, v: u8) -> Vectors
        ensures state { self.new ≡ (raised self.old v).state }
        ensures messages { result ≡ (raised self.old v).messages }
    {
        if v >= Self::VECTORS || self.causes.contains(v) {
            return Vectors::none();
        }
        let vector = Vectors::of(v);
        if !self.enabled.contains(v) {
            self.causes = self.causes.with(vector);
            return Vectors::none();
        }
        if !self.auto_clear.contains(v) {
            self.causes = self.causes.with(vector);
        }
        self.issue(v)
    }

    /// Raises the cause that an entry of the vector allocation register names, and answers with the messages that this
    /// issues (82599 datasheet, VTIVAR).
    ///
    /// The entry names the vector of its bits 1:0 where its bit 7 is 1. An entry that names none, or vector 3, which there is
    /// not, changes nothing.
    #[tactic(auto, unfolding(crate::specs::Causes::raised_by))]
    pub fn raise_by(&mut self, entry: u8) -> Vectors
        ensures state { self.new ≡ (raised_by self.old entry).state }
        ensures messages { result ≡ (raised_by self.old entry).messages }
    {
        if has_bit(u64::from(entry), ALLOCATED) {
            self.cause(entry % 4)
        } else {
            Vectors::none()
        }
    }

    /// A read of the cause register: the causes that stand. None stands any more (82599 datasheet, VTEICR).
    pub fn read_icr(&mut self) -> Vectors
        ensures value { result ≡ self.old.causes }
        ensures state { self.new ≡ emptied self.old }
    {
        let causes = self.causes;
        self.causes = Vectors::none();
        causes
    }

    /// A write of the cause register: each cause that has a 1 in the bits 2:0 stands no more (82599 datasheet, VTEICR).
    pub fn write_icr(&mut self, bits: u32)
        ensures { self.new ≡ cleared self.old bits }
    {
        self.causes = self.causes.without(Vectors::of_word(bits));
    }

    /// A write of the cause set register: raises each cause that has a 1 in the bits 2:0, in rising order, and answers with
    /// the messages that this issues (82599 datasheet, VTEICS).
    #[tactic(auto, unfolding(crate::specs::Causes::all_raised))]
    pub fn ics(&mut self, bits: u32) -> Vectors
        ensures state { self.new ≡ (all_raised self.old bits).state }
        ensures messages { result ≡ (all_raised self.old bits).messages }
    {
        let first = self.cause_in(bits, 0);
        let second = self.cause_in(bits, 1);
        let third = self.cause_in(bits, 2);
        first.with(second).with(third)
    }

    /// A write of the mask set register: enables each vector that has a 1 in the bits 2:0, in rising order, and answers with
    /// the messages that this issues (82599 datasheet, VTEIMS).
    ///
    /// A vector that is enabled already changes nothing. One whose cause stands issues its message, stands no more if it is
    /// cleared automatically, and is enabled no more if it is masked automatically.
    #[tactic(auto, unfolding(crate::specs::Causes::all_unmasked))]
    pub fn ims(&mut self, bits: u32) -> Vectors
        ensures state { self.new ≡ (all_unmasked self.old bits).state }
        ensures messages { result ≡ (all_unmasked self.old bits).messages }
    {
        let first = self.unmask_in(bits, 0);
        let second = self.unmask_in(bits, 1);
        let third = self.unmask_in(bits, 2);
        first.with(second).with(third)
    }

    /// A write of the mask clear register: each vector that has a 1 in the bits 2:0 is enabled no more (82599 datasheet,
    /// VTEIMC).
    pub fn imc(&mut self, bits: u32)
        ensures { self.new ≡ masked self.old bits }
    {
        self.enabled = self.enabled.without(Vectors::of_word(bits));
    }

    /// A write of the auto-clear register: exactly the vectors with a 1 in the bits 2:0 are cleared automatically from now
    /// on. No message is issued (82599 datasheet, VTEIAC).
    pub fn iac(&mut self, bits: u32)
        ensures { self.new ≡ auto_clearing self.old bits }
    {
        self.auto_clear = Vectors::of_word(bits);
    }

    /// A write of the auto-mask register: exactly the vectors with a 1 in the bits 2:0 are masked automatically from now on:
    /// such a vector is enabled no more once its message is issued, until a write of the mask set register. No message is
    /// issued, and the mask stays (82599 datasheet, extended interrupt auto mask enable, VTEIAM; in MSI-X mode, where
    /// GPIE.EIAME is 1).
    pub fn iam(&mut self, bits: u32)
        ensures { self.new ≡ auto_masking self.old bits }
    {
        self.auto_mask = Vectors::of_word(bits);
    }

    /// Two laws: the message of a vector that is masked automatically leaves it enabled no more, and that of any other leaves
    /// every set as it is. The call does nothing.
    #[tactic(auto, unfolding(crate::specs::Causes::issued), using(crate::proofs::Bounds::has_bit_left_out))]
    pub fn message_masks_its_vector(&self)
        ensures masked { (v : ℕ) → v < 3 → has_bit self.now.auto_mask v ≡ true
            → has_bit (issued self.now v).state.enabled v ≡ false }
        ensures others { (v : ℕ) → has_bit self.now.auto_mask v ≡ false
            → issued self.now v ≡ record { state = self.now; messages = 2 ^ v } }
    {}

    // Enables vector `v`.
    #[tactic(auto, unfolding(crate::specs::Causes::unmasked))]
    fn unmask(&mut self, v: u8) -> Vectors
        requires { v < 3 }
        ensures state { self.new ≡ (unmasked self.old v).state }
        ensures messages { result ≡ (unmasked self.old v).messages }
    {
        let vector = Vectors::of(v);
        if self.enabled.contains(v) {
            return Vectors::none();
        }
        self.enabled = self.enabled.with(vector);
        if !self.causes.contains(v) {
            return Vectors::none();
        }
        if self.auto_clear.contains(v) {
            self.causes = self.causes.without(vector);
        }
        self.issue(v)
    }

    // Issues the message of vector `v`, which is enabled no more if it is masked automatically.
    #[tactic(auto, unfolding(crate::specs::Causes::issued))]
    fn issue(&mut self, v: u8) -> Vectors
        requires { v < 3 }
        ensures state { self.new ≡ (issued self.old v).state }
        ensures messages { result ≡ (issued self.old v).messages }
    {
        let vector = Vectors::of(v);
        if self.auto_mask.contains(v) {
            self.enabled = self.enabled.without(vector);
        }
        vector
    }

    // Raises cause `v` where its bit is 1.
    fn cause_in(&mut self, bits: u32, v: u8) -> Vectors
        requires { v < 3 }
        ensures state { self.new ≡ (raised_in bits v self.old).state }
        ensures messages { result ≡ (raised_in bits v self.old).messages }
    {
        if has_bit(u64::from(bits), u32::from(v)) {
            self.cause(v)
        } else {
            Vectors::none()
        }
    }

    // Enables vector `v` where its bit is 1.
    fn unmask_in(&mut self, bits: u32, v: u8) -> Vectors
        requires { v < 3 }
        ensures state { self.new ≡ (unmasked_in bits v self.old).state }
        ensures messages { result ≡ (unmasked_in bits v self.old).messages }
    {
        if has_bit(u64::from(bits), u32::from(v)) {
            self.unmask(v)
        } else {
            Vectors::none()
        }
    }
}

impl Default for Causes {
    fn default() -> Causes
        ensures { result ≡ no_causes }
    {
        Causes::new()
    }
}
