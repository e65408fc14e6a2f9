//! Where each page of a memory is stored.
ghost use Rattle.std.specs.Prelude.{◌≡◌, ℕ, ◌+◌, ◌*◌, ◌/◌, ◌<◌, ◌≤◌, ◌++◌, length, set, replicate, vec_capacity, IfOk};
ghost use Rattle.guest_memory.specs.Pages.{place_in};

use std::alloc::{AllocError, Global};
use std::marker::Model;

/// The mark of a page that isn't stored.
pub(crate) const UNSTORED: u16 = u16::MAX;
/// The entries of a leaf.
const LEAF: usize = 128;
/// The mark of a leaf that isn't there.
const NO_LEAF: u8 = u8::MAX;

/// The place of each page of a memory among its stored pages, or the mark of one that isn't stored.
///
/// Its entries stand in leaves of 128. The room is taken when the table is made, and a leaf is written when one of its pages is first
/// stored: so a memory of which little is written has few leaves, wherever that lies.
#[derive(Drop)]
pub(crate) struct PageTable {
    // where each leaf stands among the leaves
    top: Vec<u8>,
    // the entries of the leaves that are there, in the order of their first
    leaves: Vec<u16>,
    pages: usize,
}

impl Model for PageTable {
    ghost use Rattle.std.specs.Prelude.{List, ℕ, ◌/◌, length, vec_capacity};
    ghost use Rattle.guest_memory.specs.Table.{entries, IsLeafed};

    ghost Value = { List ℕ };

    ghost view = { λ t. entries t.pages t.top.items t.leaves.items };

    ghost invariant = { λ t. IsLeafed t.pages t.top.items (length t.leaves.items / 128)
        (length t.leaves.items) (vec_capacity t.leaves) };
}

impl PageTable {
    /// A table of pages of which none is stored.
    #[tactic(auto, using(crate::proofs::TableLemmas::entries_none))]
    pub(crate) fn new(alloc: Global, pages: usize) -> Result<PageTable, AllocError>
        requires { pages ≤ 8193 }
        ensures { IfOk result (λ t. t ≡ replicate pages 65535) }
    {
        let count = pages / LEAF + 1;
        let mut top = Vec::with_capacity(alloc, count)?;
        top.resize(count, NO_LEAF)?;
        let leaves = Vec::with_capacity(alloc, count * LEAF)?;
        Ok(PageTable { top, leaves, pages })
    }

    /// The place of a page, or the mark of one that isn't stored.
    #[inline]
    #[tactic(auto, using(crate::proofs::TableLemmas::length_entries, crate::proofs::TableLemmas::get_entries))]
    pub(crate) fn place(&self, page: usize) -> u16
        requires { page < length self.now }
        ensures { result ≡ place_in self.now page }
    {
        let leaves = self.leaves.as_slice();
        let at = self.top[page / LEAF] as usize * LEAF + page % LEAF;
        if at < leaves.len() {
            leaves[at]
        } else {
            UNSTORED
        }
    }

    /// Gives a page a place. There is room, so nothing is allocated.
    pub(crate) fn set(&mut self, page: usize, place: u16)
        requires { page < length self.old }
        ensures { self.new ≡ set self.old page place }
    {
        let leaf = page / LEAF;
        let stands = self.top[leaf];
        if stands == NO_LEAF {
            let end = self.leaves.len();
            self.top[leaf] = (end / LEAF) as u8;
            add_leaf(&mut self.leaves);
            self.leaves[end + page % LEAF] = place;
        } else {
            self.leaves[stands as usize * LEAF + page % LEAF] = place;
        }
    }

    /// Forgets where pages are stored.
    #[tactic(auto, using(crate::proofs::TableLemmas::length_entries, crate::proofs::TableLemmas::entries_none))]
    pub(crate) fn clear(&mut self)
        ensures { self.new ≡ replicate (length self.old) 65535 }
    {
        forget(&mut self.top);
        self.leaves.clear();
    }
}

// No leaf is there any more.
fn forget(top: &mut [u8])
    ensures { top.new ≡ replicate (length top.old) 255 }
{
    top.fill(NO_LEAF);
}

// One leaf more, of which no page is stored. There is room, so nothing is allocated.
fn add_leaf(leaves: &mut Vec<u16>)
    requires { length leaves.old.items + 128 ≤ vec_capacity leaves.old }
    ensures leaves { leaves.new.items ≡ leaves.old.items ++ replicate 128 65535 }
    ensures len { length leaves.new.items ≡ length leaves.old.items + 128 }
    ensures capacity { vec_capacity leaves.old ≤ vec_capacity leaves.new }
{
    match leaves.resize(leaves.len() + LEAF, UNSTORED) {
        Ok(()) => {}
        Err(_) => unreachable!(),
    }
}
