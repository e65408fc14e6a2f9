//! How far apart the messages of each vector are to be.
ghost use Rattle.std.specs.Prelude.{◌≡◌};
ghost use Rattle.vf_unit.specs.Intervals.{no_intervals, word_for, with_word, microseconds};

/// A vector of a virtual function.
#[derive(Clone, Copy, Debug, PartialEq, Eq)]
pub enum Vector {
    /// Vector 0.
    V0,
    /// Vector 1.
    V1,
    /// Vector 2.
    V2,
}

/// What is kept of VTEITR for each vector: in bits 11:3 how far apart its messages are to be at least, in units of 2 microseconds (82599
/// datasheet, VF Extended Interrupt Throttle). 0 says nothing of it.
#[derive(Clone, Copy, Debug, PartialEq, Eq)]
pub struct Intervals {
    /// The word of vector 0.
    pub vector_0: u32,
    /// The word of vector 1.
    pub vector_1: u32,
    /// The word of vector 2.
    pub vector_2: u32,
}

impl Intervals {
    /// None.
    pub fn none() -> Intervals
        ensures { result ≡ no_intervals }
    {
        Intervals {
            vector_0: 0,
            vector_1: 0,
            vector_2: 0,
        }
    }

    /// The word of a vector.
    #[inline]
    pub fn word(self, vector: Vector) -> u32
        ensures { result ≡ word_for self vector }
    {
        match vector {
            Vector::V0 => self.vector_0,
            Vector::V1 => self.vector_1,
            Vector::V2 => self.vector_2,
        }
    }

    /// The same with another word of a vector.
    pub fn with(self, vector: Vector, word: u32) -> Intervals
        ensures { result ≡ with_word self vector word }
    {
        match vector {
            Vector::V0 => Intervals {
                vector_0: word,
                ..self
            },
            Vector::V1 => Intervals {
                vector_1: word,
                ..self
            },
            Vector::V2 => Intervals {
                vector_2: word,
                ..self
            },
        }
    }

    /// How many microseconds apart the messages of a vector are to be at least: 0 to 1022.
    #[inline]
    #[tactic(auto, unfolding(wire_frame::specs::Bits::field))]
    pub fn microseconds(self, vector: Vector) -> u16
        ensures { result ≡ microseconds (word_for self vector) }
    {
        (self.word(vector) / 8 % 512 * 2) as u16
    }
}
