//! The writes that make a pool's registers what its function became.
ghost use Rattle.std.specs.Prelude.{◌≡◌, ◌+◌, ◌-◌, ◌*◌, ◌/◌, ◌<◌, ◌≤◌, ◌++◌, length};
ghost use Rattle.mailbox.specs.Address.{is_number};
ghost use Rattle.mailbox.specs.Words.{member_word};
ghost use Rattle.mailbox.specs.Writes.{writes_where, turns, moves, joins_or_leaves, entry_writes, pool_writes, shared_writes, writes_of};

use crate::address::{Address, is_number, low_part};
use crate::host::Host;
use crate::slot::Slot;
use crate::words::valid;
use crate::writes::Writes;
use addr_tables::registers::{RAH, RAL};
use pool_filter::registers::{PFVFRE, PFVFTE, VMOLR, VMVIR};
use vlan_table::registers::VLVFB;
use wire_frame::PoolId;

impl Host {
    /// The writes to the registers of a pool whose function was another before: those that change a word.
    #[tactic(auto, unfolding(crate::specs::Writes::writes_of))]
    pub(crate) fn writes_since(&self, pool: PoolId, before: &Slot) -> Writes
        ensures writes { result ≡ writes_of self.now pool before.now }
        ensures few { length self.now.ids ≤ 64 }
    {
        let p = u32::from(pool.get());
        let after = self.slot_at(p);
        let mut writes = Writes::new();
        put_entry(&mut writes, p, before.address(), after.address());
        put_entry(&mut writes, 64 + p, before.second(), after.second());
        self.put_pool(&mut writes, p, before, after);
        self.put_shared(&mut writes, p, before, after);
        writes
    }

    // The pool's flags and its port VLAN.
    fn put_pool(&self, writes: &mut Writes, p: u32, before: &Slot, after: &Slot)
        requires pool { p < 64 }
        requires room { length writes.old ≤ 6 }
        ensures list { writes.new ≡ writes.old ++ pool_writes self.now p before.now after.now }
        ensures more { length writes.new ≤ length writes.old + 2 }
    {
        let flags = after.flags_word();
        writes.put_if(before.flags_word() != flags, VMOLR, p, flags);
        let port = after.port_word(self.ids());
        writes.put_if(before.port_word(self.ids()) != port, VMVIR, p, port);
    }

    // The words of 32 pools in which the pool stands.
    fn put_shared(&self, writes: &mut Writes, p: u32, before: &Slot, after: &Slot)
        requires pool { p < 64 }
        requires room { length writes.old ≤ 8 }
        ensures list { writes.new ≡ writes.old ++ shared_writes self.now p before.now after.now }
        ensures few { length self.now.ids ≤ 64 }
    {
        let turned = turns(before.is_on(), after.is_on());
        let half = p / 32;
        writes.put_if(turned, PFVFRE, half, self.up_word(half));
        writes.put_if(turned, PFVFTE, half, self.up_word(half));
        self.put_members(writes, p, before, after);
    }

    // The pools of the VLAN entries that the function joined or left.
    fn put_members(&self, writes: &mut Writes, p: u32, before: &Slot, after: &Slot)
        requires pool { p < 64 }
        requires room { length writes.old ≤ 10 }
        ensures list { writes.new ≡ writes.old
            ++ writes_where (joins_or_leaves p before.now after.now) VLVFB (member_word self.now) 0
            (2 * length self.now.ids) }
        ensures few { length self.now.ids ≤ 64 }
    {
        let count = 2 * self.ids().len() as u32;
        for i in 0..count {
            self.put_member(writes, p, before, after, i);
        }
    }

    // Word i of VLVFB, where the function joined or left its VLAN.
    fn put_member(&self, writes: &mut Writes, p: u32, before: &Slot, after: &Slot, i: u32)
        requires pool { p < 64 }
        requires below { i < 128 }
        requires room { length writes.old ≤ 10 + (i + 1 - p / 32) / 2 }
        ensures list { writes.new ≡ writes.old
            ++ writes_where (joins_or_leaves p before.now after.now) VLVFB (member_word self.now) i 1 }
        ensures few { length writes.new ≤ 10 + (i + 2 - p / 32) / 2 }
    {
        if joins_or_leaves(p, before, after, i) {
            writes.put(VLVFB, i, self.member_word(i));
        }
    }
}

// A receive address entry, which goes from one address to another.
fn put_entry(writes: &mut Writes, e: u32, before: Option<Address>, after: Option<Address>)
    requires entry { e < 128 }
    requires room { length writes.old ≤ 3 }
    ensures list { writes.new ≡ writes.old ++ entry_writes e before after }
    ensures more { length writes.new ≤ length writes.old + 3 }
{
    let moved = moves(before, after);
    writes.put_if(moved && before.is_some(), RAH, e, 0);
    writes.put_if(low_part(before) != low_part(after), RAL, e, low_part(after));
    writes.put_if(moved && after.is_some(), RAH, e, valid(after));
}

// Whether an address is another than before.
fn moves(before: Option<Address>, after: Option<Address>) -> bool
    ensures { result ≡ moves before after }
{
    match before {
        None => after.is_some(),
        Some(address) => !is_number(after, address),
    }
}

// Whether a function came up or went down.
fn turns(before: bool, after: bool) -> bool
    ensures { result ≡ turns before after }
{
    before != after
}

// Whether word i of VLVFB has the pool, and its function joined or left the VLAN.
fn joins_or_leaves(p: u32, before: &Slot, after: &Slot, i: u32) -> bool
    requires { i < 128 }
    ensures { result ≡ joins_or_leaves p before.now after.now i }
{
    i % 2 == p / 32 && turns(before.has_joined(i / 2), after.has_joined(i / 2))
}
