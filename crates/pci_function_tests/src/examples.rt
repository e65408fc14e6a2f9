//! The examples of the documentation of pci_function, which docs/check compares with these.
use pci_function::{Effect, PciFunction};

#[test]
fn example_of_pci_function_write(rt: HostRuntime) {
    let mut function = PciFunction::new();
    // Command: memory space and bus master
    assert!(rt; function.write(0x04, &[0x06, 0x00]) == Effect::Nothing);
    assert!(rt; function.is_bus_master());
    // Device Control: Initiate Function Level Reset
    assert!(rt; function.write(0xA8, &[0x00, 0x80]) == Effect::Reset);
    assert!(rt; !function.is_bus_master());
}
