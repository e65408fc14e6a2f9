//! How the program ends.
ghost use Rattle.std.specs.Prelude.{◌≡◌};
ghost use Rattle.modes.specs.Faults.{status_of};

use crate::fault::Fault;

/// The status that the program ends with: 1 for a script, 2 for the command line and for input and output, 3 for memory.
pub fn status(fault: &Fault) -> u8
    ensures { result ≡ status_of fault.now }
{
    match fault {
        Fault::BadScript(_) => 1,
        Fault::NoSuchVf | Fault::Usage | Fault::Io => 2,
        Fault::NoMemory | Fault::HistoryFull => 3,
    }
}
