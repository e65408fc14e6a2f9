//! Vectors of MSI-X, and which of them have a file.
ghost use Rattle.std.specs.Prelude.{◌≡◌, ◌<◌, false, slice_index_or};
ghost use Rattle.vfio_session.specs.Vectors.{are_there, is_among, armed_at, armed_after};

use crate::decision::VectorRange;
use crate::offered::VECTORS;

pub(crate) const ALL: VectorRange = VectorRange {
    first: 0,
    count: VECTORS,
};

// Whether there is at least one, and the function has them all.
pub(crate) fn are_there(vectors: VectorRange) -> bool
    ensures { result ≡ are_there vectors }
{
    vectors.count > 0 && vectors.count <= VECTORS && vectors.first <= VECTORS - vectors.count
}

// Whether a vector is one of them.
fn is_among(vector: u32, vectors: VectorRange) -> bool
    ensures { result ≡ is_among vector vectors }
{
    vector >= vectors.first && vector - vectors.first < vectors.count
}

// Whether a vector has a file, once these have one or have none.
fn armed_at(vector: u32, vectors: VectorRange, on: bool, armed: &[bool; 3]) -> bool
    requires { vector < 3 }
    ensures { result ≡ armed_at vector vectors on armed.now }
{
    if is_among(vector, vectors) {
        on
    } else {
        armed[vector as usize]
    }
}

// Whether a vector has a file.
#[tactic(auto, using(std::proofs::lemmas::List::get_or_past))]
pub(crate) fn armed_in(armed: &[bool; 3], vector: u32) -> bool
    ensures { result ≡ slice_index_or armed.now vector false }
{
    if vector < 3 {
        armed[vector as usize]
    } else {
        false
    }
}

// Which vectors have a file, once these have one or have none.
#[tactic(auto, unfolding(crate::specs::Vectors::armed_after))]
pub(crate) fn armed_after(vectors: VectorRange, on: bool, armed: &[bool; 3]) -> [bool; 3]
    ensures { result ≡ armed_after vectors on armed.now }
{
    [
        armed_at(0, vectors, on, armed),
        armed_at(1, vectors, on, armed),
        armed_at(2, vectors, on, armed),
    ]
}
