//! The kinds of events, by their names in a script.
ghost use Rattle.std.specs.Prelude.{◌≡◌};
ghost use Rattle.script.specs.Kinds.{kind_of};

/// The kind of an event.
#[derive(Clone, Copy, Debug, PartialEq, Eq)]
pub enum Kind {
    /// Open a virtual function.
    Open,
    /// Close it.
    End,
    /// Reset it.
    Flr,
    /// Read a register of it.
    VfRead,
    /// Write one.
    VfWrite,
    /// Read bytes of its memory.
    MemRead,
    /// Write some.
    MemWrite,
    /// Take a descriptor of a transmit queue of it.
    Serve,
    /// Read a register of the physical function.
    PfRead,
    /// Write one.
    PfWrite,
    /// Reset the device.
    PfReset,
    /// A frame comes from the wire.
    Wire,
}

impl Kind {
    /// The kind of that name, if there is one.
    #[tactic(auto, unfolding(crate::specs::Kinds::kind_of))]
    pub fn named(name: &[u8]) -> Option<Kind>
        ensures { result ≡ kind_of name.now }
    {
        match name {
            b"wire" => Some(Kind::Wire),
            b"r" => Some(Kind::VfRead),
            b"w" => Some(Kind::VfWrite),
            b"serve" => Some(Kind::Serve),
            b"mr" => Some(Kind::MemRead),
            b"mw" => Some(Kind::MemWrite),
            b"pr" => Some(Kind::PfRead),
            b"pw" => Some(Kind::PfWrite),
            b"open" => Some(Kind::Open),
            b"end" => Some(Kind::End),
            b"flr" => Some(Kind::Flr),
            b"preset" => Some(Kind::PfReset),
            _ => None,
        }
    }
}
