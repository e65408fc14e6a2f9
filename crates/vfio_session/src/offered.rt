//! What a client finds in a function.
ghost use Rattle.std.specs.Prelude.{◌≡◌};
ghost use Rattle.vfio_session.specs.Offered.{size_of_region, area_of_region, count_of_irqs};

use pci_function::bar_size;
use vfio_user::Area;

// The version that is agreed on.
pub(crate) const MAJOR: u16 = 0;

pub(crate) const MINOR: u16 = 0;

// How many regions there are, and those that have bytes: BAR 0 with the registers, BAR 3 with the table of MSI-X, the configuration space.
pub(crate) const REGIONS: u32 = 9;

pub(crate) const REGISTERS: u32 = 0;

pub(crate) const TABLE: u32 = 3;

pub(crate) const CONFIGURATION: u32 = 7;

// The page of BAR 0 with the registers of the transmit queues.
const TRANSMIT_PAGE: Area = Area {
    offset: 0x2000,
    size: 0x1000,
};

// How many types of interrupts there are, which of them is MSI-X, and how many vectors that has.
pub(crate) const IRQS: u32 = 5;

pub(crate) const MSIX: u32 = 2;

pub(crate) const VECTORS: u32 = 3;

// How many bytes a region has.
pub(crate) fn region_size(index: u32) -> u64
    ensures { result ≡ size_of_region index }
{
    if index == CONFIGURATION {
        4096
    } else {
        bar_size(index)
    }
}

// The area of a region that the client may map, where one is offered.
pub(crate) fn region_area(offers: bool, index: u32) -> Option<Area>
    ensures { result ≡ area_of_region offers index }
{
    if offers && index == REGISTERS {
        Some(TRANSMIT_PAGE)
    } else {
        None
    }
}

// How many interrupts of a type there are.
pub(crate) fn irq_count(index: u32) -> u32
    ensures { result ≡ count_of_irqs index }
{
    if index == MSIX { VECTORS } else { 0 }
}
