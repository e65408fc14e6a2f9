//! The registers of the space, row by row.
ghost use Rattle.std.specs.Prelude.{◌≡◌, ◌<◌, ℕ};
ghost use Rattle.pci_function.specs.Registers.{registers};
ghost use Rattle.pci_function.specs.Rows.{has, byte_of, initial_in, writable_in};
ghost use Rattle.pci_function.specs.Table.{line, lines};

// Where a register stands, how many bytes it has, what it holds at first, and which of its bits a write sets.
#[derive(Clone, Copy)]
pub(crate) struct Row {
    at: u16,
    width: u16,
    initial: u32,
    writable: u32,
}

const ROWS: [Row; 21] = [
    // Vendor ID
    Row {
        at: 0x00,
        width: 2,
        initial: 0x8086,
        writable: 0,
    },
    // Device ID
    Row {
        at: 0x02,
        width: 2,
        initial: 0x10ED,
        writable: 0,
    },
    // Command
    Row {
        at: 0x04,
        width: 2,
        initial: 0,
        writable: 0x0406,
    },
    // Status
    Row {
        at: 0x06,
        width: 2,
        initial: 0x0010,
        writable: 0,
    },
    // Revision ID, 1, and Class Code
    Row {
        at: 0x08,
        width: 4,
        initial: 0x02000001,
        writable: 0,
    },
    // Cacheline Size
    Row {
        at: 0x0C,
        width: 1,
        initial: 0,
        writable: 0xFF,
    },
    // BAR 0
    Row {
        at: 0x10,
        width: 4,
        initial: 4,
        writable: 0,
    },
    // BAR 3
    Row {
        at: 0x1C,
        width: 4,
        initial: 4,
        writable: 0,
    },
    // Subsystem Vendor ID and Subsystem ID
    Row {
        at: 0x2C,
        width: 4,
        initial: 0x7A118086,
        writable: 0,
    },
    // Capabilities Pointer
    Row {
        at: 0x34,
        width: 1,
        initial: 0x70,
        writable: 0,
    },
    // Interrupt Line
    Row {
        at: 0x3C,
        width: 1,
        initial: 0,
        writable: 0xFF,
    },
    // MSI-X
    Row {
        at: 0x70,
        width: 2,
        initial: 0xA011,
        writable: 0,
    },
    // Message Control
    Row {
        at: 0x72,
        width: 2,
        initial: 2,
        writable: 0xC000,
    },
    // Table Offset and BIR
    Row {
        at: 0x74,
        width: 4,
        initial: 3,
        writable: 0,
    },
    // PBA Offset and BIR
    Row {
        at: 0x78,
        width: 4,
        initial: 0x2003,
        writable: 0,
    },
    // PCI Express
    Row {
        at: 0xA0,
        width: 2,
        initial: 0x0010,
        writable: 0,
    },
    // PCI Express Capabilities
    Row {
        at: 0xA2,
        width: 2,
        initial: 0x0002,
        writable: 0,
    },
    // Device Capabilities
    Row {
        at: 0xA4,
        width: 4,
        initial: 0x10008002,
        writable: 0,
    },
    // Link Capabilities
    Row {
        at: 0xAC,
        width: 4,
        initial: 0x00000D42,
        writable: 0,
    },
    // Link Status
    Row {
        at: 0xB2,
        width: 2,
        initial: 0x0042,
        writable: 0,
    },
    // Device Capabilities 2
    Row {
        at: 0xC4,
        width: 4,
        initial: 0x00000010,
        writable: 0,
    },
];

// Whether the row has the byte at place k.
fn has(row: &Row, k: u16) -> bool
    requires { k < 256 }
    ensures { result ≡ has (line row.now) k }
{
    row.at <= k && k - row.at < row.width
}

// Byte j of a number, the lowest first.
fn byte_of(x: u32, j: u16) -> u8
    ensures { result ≡ byte_of x j }
{
    if j < 4 {
        ((x >> (8 * j)) % 256) as u8
    } else {
        0
    }
}

// What stands at place k at first.
#[tactic(auto, unfolding(crate::specs::Rows::initial_in))]
fn initial_in(rows: &[Row], k: u16) -> u8
    requires { k < 256 }
    ensures { result ≡ initial_in (lines rows.now) k }
{
    for row in rows {
        if has(row, k) {
            return byte_of(row.initial, k - row.at);
        }
    }
    0
}

// Which bits at place k a write sets.
#[tactic(auto, unfolding(crate::specs::Rows::writable_in))]
fn writable_in(rows: &[Row], k: u16) -> u8
    requires { k < 256 }
    ensures { result ≡ writable_in (lines rows.now) k }
{
    for row in rows {
        if has(row, k) {
            return byte_of(row.writable, k - row.at);
        }
    }
    0
}

// What stands at place k at first, of the whole table.
#[tactic(auto, unfolding(crate::specs::Registers::registers))]
pub(crate) fn initial_at(k: u16) -> u8
    requires { k < 256 }
    ensures { result ≡ initial_in registers k }
{
    initial_in(&ROWS, k)
}

// Which bits at place k a write sets, of the whole table.
#[tactic(auto, unfolding(crate::specs::Registers::registers))]
pub(crate) fn writable_at(k: u16) -> u8
    requires { k < 256 }
    ensures { result ≡ writable_in registers k }
{
    writable_in(&ROWS, k)
}
