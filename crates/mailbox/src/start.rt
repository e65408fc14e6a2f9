//! The first writes to the physical function's registers, which bring a device up.
ghost use Rattle.std.specs.Prelude.{◌≡◌, ◌<◌};
ghost use Rattle.std.specs.List.{slice_get};
ghost use Rattle.pool_filter.specs.Map.{one_row};
ghost use Rattle.mailbox.specs.Start.{row_of, word_of, first_writes};
ghost use Rattle.mailbox.specs.Words.{pool_word, id_word, control_word};

use crate::host::Host;
use crate::writes::Write;
use addr_tables::registers::{MCSTCTRL, MPSAR, MTA, RAH, RAL};
use pool_filter::registers::{
    DEFAULT_POOL, DEFAULT_POOL_OFF, LOOPBACK, PF_VT_CTL, PF_VT_CTL_SET, PFDTXGSWC, PFVFRE,
    PFVFSPOOF, PFVFTE, VMOLR, VMVIR,
};
use vlan_table::registers::{VALID, VFE, VFTA, VLNCTRL, VLVF, VLVFB};
use wire_frame::{PoolId, Row};

/// The word of PFVFSPOOF in which all checks on the senders of eight pools are on, of addresses and of VLANs.
const CHECKS_ON: u32 = 0xFFFF;

/// A register of the physical function, or a row of registers of one kind.
#[derive(Clone, Copy, Debug, PartialEq, Eq)]
pub enum Register {
    /// PFVFSPOOF.
    SourceChecks,
    /// RAL.
    LowAddress,
    /// RAH.
    HighAddress,
    /// MPSAR.
    AddressPools,
    /// MTA.
    MulticastTable,
    /// MCSTCTRL.
    MulticastControl,
    /// VLNCTRL.
    VlanControl,
    /// VFTA.
    VlanTable,
    /// VLVF.
    VlanIds,
    /// VLVFB.
    VlanPools,
    /// PF_VT_CTL.
    PoolControl,
    /// VMVIR.
    PortVlans,
    /// PFDTXGSWC.
    Loopback,
    /// VMOLR.
    PoolFlags,
    /// PFVFRE.
    ReceiveEnable,
    /// PFVFTE.
    TransmitEnable,
}

/// All of them, in the order in which they are first written.
const REGISTERS: [Register; 16] = [
    Register::SourceChecks,
    Register::LowAddress,
    Register::HighAddress,
    Register::AddressPools,
    Register::MulticastTable,
    Register::MulticastControl,
    Register::VlanControl,
    Register::VlanTable,
    Register::VlanIds,
    Register::VlanPools,
    Register::PoolControl,
    Register::PortVlans,
    Register::Loopback,
    Register::PoolFlags,
    Register::ReceiveEnable,
    Register::TransmitEnable,
];

impl Register {
    // Where its words stand.
    fn row(self) -> Row
        ensures { result ≡ row_of self }
    {
        match self {
            Register::SourceChecks => PFVFSPOOF,
            Register::LowAddress => RAL,
            Register::HighAddress => RAH,
            Register::AddressPools => MPSAR,
            Register::MulticastTable => MTA,
            Register::MulticastControl => one_row(MCSTCTRL),
            Register::VlanControl => one_row(VLNCTRL),
            Register::VlanTable => VFTA,
            Register::VlanIds => VLVF,
            Register::VlanPools => VLVFB,
            Register::PoolControl => one_row(PF_VT_CTL),
            Register::PortVlans => VMVIR,
            Register::Loopback => one_row(PFDTXGSWC),
            Register::PoolFlags => VMOLR,
            Register::ReceiveEnable => PFVFRE,
            Register::TransmitEnable => PFVFTE,
        }
    }
}

/// Bringing a device up.
impl Host {
    /// How many first writes there are.
    pub const FIRST_WRITES: u32 = 1104;

    /// The i-th of the first writes, counted from 0, or `None` where there are no more. Done in their order they give every
    /// register of the physical function the word that it has for this host, whatever it held: the source checks are turned on
    /// first, and who may receive and transmit comes last.
    #[tactic(auto, unfolding(crate::specs::Start::first_writes))]
    pub fn first_write(&self, i: u32) -> Option<Write>
        ensures { result ≡ slice_get (first_writes self.now) i }
    {
        let mut place = i;
        for register in REGISTERS {
            let row = register.row();
            if place < row.count {
                return Some(Write {
                    offset: row.first + row.stride * place,
                    value: self.word(register, place),
                });
            }
            place -= row.count;
        }
        None
    }

    // The register's word at a place.
    fn word(&self, register: Register, place: u32) -> u32
        requires { place < (row_of register).count }
        ensures { result ≡ word_of self.now register place }
    {
        match register {
            Register::SourceChecks => CHECKS_ON,
            Register::LowAddress => self.low_word(place),
            Register::HighAddress => self.high_word(place),
            Register::AddressPools => pool_word(place),
            Register::MulticastTable | Register::MulticastControl => 0,
            Register::VlanControl => 1 << VFE,
            Register::VlanTable => self.table_word(place),
            Register::VlanIds => self.id_word(place),
            Register::VlanPools => self.member_word(place),
            Register::PoolControl => control_word(self.default_pool()),
            Register::PortVlans => self.slot_at(place).port_word(self.ids()),
            Register::Loopback => 1 << LOOPBACK,
            Register::PoolFlags => self.slot_at(place).flags_word(),
            Register::ReceiveEnable | Register::TransmitEnable => self.up_word(place),
        }
    }

    // VLVF, word k: VI_En and the id, where there is one.
    fn id_word(&self, k: u32) -> u32
        requires { k < 64 }
        ensures { result ≡ id_word self.now k }
    {
        let ids = self.ids();
        let k = k as usize;
        if k < ids.len() {
            (1 << VALID) + u32::from(ids[k] % 4096)
        } else {
            0
        }
    }
}

// A register of one word.
fn one_row(first: u32) -> Row
    ensures { result ≡ one_row first }
{
    Row {
        first,
        count: 1,
        stride: 4,
        mask: 0xFFFF_FFFF,
    }
}

// MPSAR, word i: entry e is pool e % 64's alone.
fn pool_word(i: u32) -> u32
    ensures { result ≡ pool_word i }
{
    let pool = i / 2 % 64;
    if pool / 32 == i % 2 {
        1 << (pool % 32)
    } else {
        0
    }
}

// PF_VT_CTL, with the default pool or with none.
fn control_word(default_pool: Option<PoolId>) -> u32
    ensures { result ≡ control_word default_pool }
{
    match default_pool {
        None => PF_VT_CTL_SET + (1 << DEFAULT_POOL_OFF),
        Some(pool) => PF_VT_CTL_SET + (u32::from(pool.get() % 64) << DEFAULT_POOL),
    }
}
