//! Interrupt causes of one virtual function, and the interrupt messages that the pools got.
//!
//! [`Causes`] keeps four sets of the vectors 0 to 2 ([`Vectors`]), as the datasheet's registers EICR, EIMS, EIAC and EIAM:
//! the causes that stand, the vectors that are enabled, those whose cause is cleared automatically once its message is
//! issued, and those that are masked automatically then, so enabled no more. Each call that may issue messages answers with
//! their set, so it issues each vector at most once. [`Messages`] is what all 64 pools got, a set of vectors for each, in
//! three words. The crate stands on `wire_frame`, for bits of words and for pools and sets of them, and no call takes memory.
#![tactic(auto)]

pub mod causes;
pub mod messages;
pub mod vectors;

pub use causes::Causes;
pub use messages::Messages;
pub use vectors::Vectors;
