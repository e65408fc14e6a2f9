//! Why a policy is not taken.
use thiserror::Error;

/// Why a policy is not taken. Nothing is changed by it.
#[derive(Clone, Copy, Debug, PartialEq, Eq, Error)]
pub enum NotAdmitted {
    /// Its address is not one station's: it is a group's, or 0.
    #[error("the address is not one station's")]
    NotUnicast,
    /// Its address is the permanent one of another function.
    #[error("the address is another function's permanent one")]
    AddressOwned,
    /// The place of its port VLAN is none of the ids'.
    #[error("the place of the port VLAN is none of the ids'")]
    NoSuchPlace,
}
