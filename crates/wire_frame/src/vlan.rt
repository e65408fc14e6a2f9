//! VLAN ids, and what a port does about tags.
ghost use Rattle.std.specs.Prelude.{◌≡◌, ◌%◌, ◌<◌, is_some, IfSome, nat_lt};

use std::marker::Model;

/// A VLAN id, 0 to 4095 (IEEE 802.1Q, VID).
#[derive(Clone, Copy, Debug, PartialEq, Eq)]
pub struct Vid {
    number: u16,
}

impl Model for Vid {
    ghost use Rattle.std.specs.Prelude.{ℕ, ◌<◌};

    ghost Value = { ℕ };

    ghost view = { λ v. v.number };

    ghost invariant = { λ v. v.number < 4096 };

    ghost inverse = { λ n. record { number = n } };
}

impl Vid {
    /// How many ids there are.
    pub const COUNT: u16 = 4096;

    /// The id of that number, if there is one.
    #[inline]
    pub fn new(number: u16) -> Option<Vid>
        ensures variant { is_some result ≡ nat_lt number 4096 }
        ensures value { IfSome result (λ v. v ≡ number) }
    {
        if number < Self::COUNT {
            Some(Vid { number })
        } else {
            None
        }
    }

    /// The id in a tag control: its low 12 bits.
    #[inline]
    pub fn of_tag(tag: u16) -> Vid
        ensures { result ≡ tag % 4096 }
    {
        Vid {
            number: tag % Self::COUNT,
        }
    }

    /// The number of the id.
    #[inline]
    pub fn get(self) -> u16
        ensures value { result ≡ self }
        ensures below { result < 4096 }
    {
        self.number
    }
}

/// Which VLAN tag is inserted into the frames that a pool sends (82599 datasheet, VMVIR).
#[derive(Clone, Copy, Debug, PartialEq, Eq)]
pub enum PortVlan {
    /// The one that the transmit descriptor names, if it names one.
    Descriptor,
    /// The port's own tag control, whatever the descriptor says.
    Always(u16),
    /// None, whatever the descriptor says.
    Never,
}
