//! One pool's own settings, whether they stand among the tables or by themselves.
ghost use Rattle.std.specs.Prelude.{◌≡◌};
ghost use Rattle.byteorder.specs.Endian.{little_number};
ghost use Rattle.pool_filter.specs.Own.{OwnSettings, contains, own, port_vlan_of};

use crate::own::Own;
use crate::tables::Tables;
use wire_frame::{Mac, PoolId, PortVlan, Vid};

/// A pool's own settings, as far as what it sends is judged by them.
pub trait SenderRules {
    ghost rules: { Self → OwnSettings };

    /// Whether the pool may transmit (82599 datasheet, PFVFTE).
    fn may_transmit(&self) -> bool
        ensures { result ≡ (rules self.now).may_transmit };

    /// Which VLAN tag is inserted into the frames that it sends (82599 datasheet, VMVIR).
    fn port_vlan(&self) -> PortVlan
        ensures { result ≡ port_vlan_of (rules self.now).port_vlan };

    /// Whether the sources of its frames are checked (82599 datasheet, PFVFSPOOF).
    fn checks_address(&self) -> bool
        ensures { result ≡ (rules self.now).checks_address };

    /// Whether the VLANs of its frames are checked (82599 datasheet, PFVFSPOOF).
    fn checks_vlan(&self) -> bool
        ensures { result ≡ (rules self.now).checks_vlan };

    /// Whether it takes untagged frames (82599 datasheet, VMOLR AUPE).
    fn takes_untagged(&self) -> bool
        ensures { result ≡ (rules self.now).takes_untagged };

    /// Whether it has the address (82599 datasheet, RAL, RAH and MPSAR).
    fn has_address(&self, address: Mac) -> bool
        ensures { result ≡ contains (rules self.now).addresses (little_number 6 address.0) };

    /// Whether it has the VLAN id (82599 datasheet, VLVF and VLVFB).
    fn has_vlan(&self, id: Vid) -> bool
        ensures { result ≡ contains (rules self.now).vlan_ids id };
}

/// The own settings of a pool, where they stand among all settings.
#[derive(Clone, Copy)]
pub struct PoolRules<'a> {
    /// All settings.
    pub tables: &'a Tables,
    /// The pool.
    pub pool: PoolId,
}

impl<'a> SenderRules for PoolRules<'a> {
    ghost rules = { λ r. own r.tables.now r.pool };

    #[inline]
    fn may_transmit(&self) -> bool {
        self.tables.may_transmit(self.pool)
    }

    #[inline]
    fn port_vlan(&self) -> PortVlan {
        self.tables.port_vlan(self.pool)
    }

    #[inline]
    fn checks_address(&self) -> bool {
        self.tables.checks_address(self.pool)
    }

    #[inline]
    fn checks_vlan(&self) -> bool {
        self.tables.checks_vlan(self.pool)
    }

    #[inline]
    fn takes_untagged(&self) -> bool {
        self.tables.takes_untagged(self.pool)
    }

    #[inline]
    fn has_address(&self, address: Mac) -> bool {
        self.tables.has_address(self.pool, address)
    }

    #[inline]
    fn has_vlan(&self, id: Vid) -> bool {
        self.tables.has_vlan(self.pool, id)
    }
}

impl SenderRules for Own {
    ghost rules = { λ o. o };

    #[inline]
    fn may_transmit(&self) -> bool {
        Own::may_transmit(self)
    }

    #[inline]
    fn port_vlan(&self) -> PortVlan {
        Own::port_vlan(self)
    }

    #[inline]
    fn checks_address(&self) -> bool {
        Own::checks_address(self)
    }

    #[inline]
    fn checks_vlan(&self) -> bool {
        Own::checks_vlan(self)
    }

    #[inline]
    fn takes_untagged(&self) -> bool {
        Own::takes_untagged(self)
    }

    #[inline]
    fn has_address(&self, address: Mac) -> bool {
        Own::has_address(self, address)
    }

    #[inline]
    fn has_vlan(&self, id: Vid) -> bool {
        Own::has_vlan(self, id)
    }
}
