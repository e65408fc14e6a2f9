//! A memory on the heap.
ghost use Rattle.std.specs.Prelude.{◌≡◌, ℕ, ◌+◌, ◌-◌, ◌*◌, ◌/◌, ◌%◌, ◌<◌, ◌≤◌, ◌↔◌, ◌++◌, true, false, List, length, set, replicate, slice_range, vec_capacity, IfOk, IfErr, IfSome};
ghost use Rattle.guest_memory.specs.Memory.{overwrite, is_memory_size, word_at, word_bytes, two_words};
ghost use Rattle.guest_memory.specs.Pages.{place_in};

use crate::GuestMem;
use crate::table::{PageTable, UNSTORED};
use crate::words::{bytes_of, bytes_of_two, put_word, put_words, word_of, words_of};
use std::alloc::Global;
use std::marker::Model;
use wire_frame::Fault;

/// The least size of a memory, in bytes.
pub const LEAST_SIZE: u64 = 4096;
/// The greatest size of a memory, in bytes.
pub const GREATEST_SIZE: u64 = 16_777_216;
/// What a size is a multiple of, in bytes.
pub const SIZE_STEP: u64 = 128;

/// Whether a memory may have that many bytes: 4096 to 16,777,216, a multiple of 128.
#[inline]
pub fn is_memory_size(size: u64) -> bool
    ensures { result ≡ is_memory_size size }
{
    size.is_multiple_of(SIZE_STEP) && size >= LEAST_SIZE && size <= GREATEST_SIZE
}

/// The bytes of a page.
const PAGE: usize = 2048;

/// A memory on the heap, of 4096 to 16,777,216 bytes, a multiple of 128.
///
/// The room is taken when the memory is made, and none later. Of it, the pages of 2048 bytes that were written since the
/// memory was made or cleared are stored, one behind another in the order of their first write; the others are zero. So
/// the host holds as much as those pages, and 256 bytes of a table for each quarter of a MiB that has one. An access costs as much as its
/// bytes, and the first write to a page as much as the page and 256 bytes; clearing costs no more than a few steps.
#[derive(Drop)]
pub struct FlatMem {
    // where each page is stored
    table: PageTable,
    // the bytes of the stored pages, in the order of their first write
    cells: Vec<u8>,
    size: usize,
}

impl Model for FlatMem {
    ghost use Rattle.std.specs.Prelude.{List, ℕ, ◌/◌, length, vec_capacity};
    ghost use Rattle.guest_memory.specs.Pages.{paged, IsPaged};

    ghost Value = { List ℕ };

    ghost view = { λ m. paged m.size m.table m.cells.items };

    ghost invariant = { λ m. IsPaged m.size m.table (length m.cells.items / 2048)
        (length m.cells.items) (vec_capacity m.cells) };
}

impl FlatMem {
    /// A memory of `size` zero bytes. A size outside the limits is [`Fault::BadMake`]; [`Fault::NoMemory`] comes only where
    /// the host refused the room.
    #[tactic(auto, using(crate::proofs::PagesLemmas::paged_none))]
    pub fn new(alloc: Global, size: u64) -> Result<FlatMem, Fault>
        ensures ok { IfOk result (λ m. m ≡ replicate size 0) }
        ensures bad_make { (result ≡ Err Fault.BadMake) ↔ (is_memory_size size ≡ false) }
        ensures no_memory { IfErr result (λ e. is_memory_size size ≡ true → e ≡ Fault.NoMemory) }
    {
        if !is_memory_size(size) {
            return Err(Fault::BadMake);
        }
        let size = size as usize;
        // one more than pages, so that an access of no bytes at the end needs no test
        let pages = size / PAGE + 1;
        let table = PageTable::new(alloc, pages)?;
        let cells = Vec::with_capacity(alloc, pages * PAGE)?;
        Ok(FlatMem { table, cells, size })
    }

    // A read within a page.
    #[inline]
    #[tactic(auto, using(crate::proofs::PagesLemmas::length_paged, crate::proofs::PagesLemmas::read_paged, crate::proofs::PagesLemmas::read_unstored))]
    fn read_page(&self, start: usize, out: &mut [u8])
        requires fits { start + length out.old ≤ length self.now }
        requires one { start % 2048 + length out.old ≤ 2048 }
        ensures { out.new ≡ slice_range self.now start (start + length out.old) }
    {
        let cells = self.cells.as_slice();
        let at = self.table.place(start / PAGE) as usize * PAGE + start % PAGE;
        if at < cells.len() {
            out.copy_from_slice(&cells[at..at + out.len()]);
        } else {
            blank(out);
        }
    }

    // The `count` bytes from `start` on, where they are bytes of one stored page.
    #[inline]
    #[tactic(auto, using(crate::proofs::PagesLemmas::length_paged, crate::proofs::PagesLemmas::read_paged))]
    fn stored_part(&self, start: usize, count: usize) -> Option<&[u8]>
        requires fits { start + count ≤ length self.now }
        ensures { IfSome result (λ part. part.now ≡ slice_range self.now start (start + count)) }
    {
        let cells = self.cells.as_slice();
        let at = self.table.place(start / PAGE) as usize * PAGE + start % PAGE;
        if start % PAGE + count <= PAGE && at < cells.len() {
            Some(&cells[at..at + count])
        } else {
            None
        }
    }

    // A word that isn't in one stored page.
    #[cold]
    #[inline(never)]
    #[tactic(auto, unfolding(crate::specs::Memory::word_at))]
    fn read_word_apart(&self, addr: u64) -> u64
        requires { addr + 8 ≤ length self.now }
        ensures value { result ≡ word_at addr self.now }
        ensures spelled { word_bytes result ≡ slice_range self.now addr (addr + 8) }
    {
        let mut word = [0u8; 8];
        self.read_pages(addr as usize, &mut word);
        word_of(&word)
    }

    // Two words that aren't in one stored page.
    #[cold]
    #[inline(never)]
    fn read_words_apart(&self, addr: u64) -> (u64, u64)
        requires { addr + 16 ≤ length self.now }
        ensures low { result.0 ≡ word_at addr self.now }
        ensures high { result.1 ≡ word_at (addr + 8) self.now }
        ensures both { two_words result.0 result.1 ≡ slice_range self.now addr (addr + 16) }
    {
        let mut words = [0u8; 16];
        self.read_pages(addr as usize, &mut words);
        words_of(&words)
    }

    // A write within a page.
    #[inline]
    #[tactic(auto, using(crate::proofs::PagesLemmas::length_paged, crate::proofs::PagesLemmas::write_paged, crate::proofs::PagesLemmas::is_paged_same))]
    fn write_page(&mut self, start: usize, source: &[u8])
        requires fits { start + length source.now ≤ length self.old }
        requires one { start % 2048 + length source.now ≤ 2048 }
        ensures { self.new ≡ overwrite start source.now self.old }
    {
        let page = start / PAGE;
        let place = self.table.place(page);
        if place == UNSTORED {
            store(&mut self.table, &mut self.cells, page, start % PAGE, source);
        } else {
            let at = place as usize * PAGE + start % PAGE;
            write_within(&mut self.cells, at, source);
        }
    }

    // A read across pages, or in one.
    #[cold]
    #[inline(never)]
    #[tactic(auto, using(crate::proofs::PagesLemmas::length_paged))]
    fn read_pages(&self, start: usize, out: &mut [u8])
        requires { start + length out.old ≤ length self.now }
        ensures { out.new ≡ slice_range self.now start (start + length out.old) }
    {
        let _size = self.size;
        let end = start + out.len();
        for page in start / PAGE..end.div_ceil(PAGE) {
            let from = start.max(page * PAGE);
            let to = end.min(page * PAGE + PAGE);
            self.read_page(from, &mut out[from - start..to - start]);
        }
    }

    // A write across pages, or in one.
    #[cold]
    #[inline(never)]
    #[tactic(auto, using(crate::proofs::PagesLemmas::length_paged))]
    fn write_pages(&mut self, start: usize, source: &[u8])
        requires { start + length source.now ≤ length self.old }
        ensures { self.new ≡ overwrite start source.now self.old }
    {
        let _size = self.size;
        let end = start + source.len();
        for page in start / PAGE..end.div_ceil(PAGE) {
            let from = start.max(page * PAGE);
            let to = end.min(page * PAGE + PAGE);
            self.write_page(from, &source[from - start..to - start]);
        }
    }
}

// Stores a page at the next place, with zeros but for `source` from `start` on. There is room, so nothing is allocated.
#[cold]
#[inline(never)]
fn store(table: &mut PageTable, cells: &mut Vec<u8>, page: usize, start: usize, source: &[u8])
    requires place { length cells.old.items / 2048 < 8193 }
    requires entry { page < length table.old }
    requires within { start + length source.now ≤ 2048 }
    requires cells { length cells.old.items + 2048 ≤ vec_capacity cells.old }
    ensures table { table.new ≡ set table.old page (length cells.old.items / 2048) }
    ensures cells { cells.new.items
        ≡ overwrite (length cells.old.items + start) source.now
        (cells.old.items ++ replicate 2048 0) }
    ensures len { length cells.new.items ≡ length cells.old.items + 2048 }
    ensures room { vec_capacity cells.old ≤ vec_capacity cells.new }
{
    table.set(page, (cells.len() / PAGE) as u16);
    write_first(cells, start, source);
}

// One page more, whose bytes are zero but for `source` from `start` on. There is room, so nothing is allocated.
fn write_first(cells: &mut Vec<u8>, start: usize, source: &[u8])
    requires within { start + length source.now ≤ 2048 }
    requires room { length cells.old.items + 2048 ≤ vec_capacity cells.old }
    ensures cells { cells.new.items
        ≡ overwrite (length cells.old.items + start) source.now
        (cells.old.items ++ replicate 2048 0) }
    ensures len { length cells.new.items ≡ length cells.old.items + 2048 }
    ensures capacity { vec_capacity cells.old ≤ vec_capacity cells.new }
{
    let count = cells.len();
    add_zeros(cells, PAGE);
    write_within(cells, count + start, source);
}

impl GuestMem for FlatMem {
    ghost bytes = { λ m. m };

    #[tactic(auto, using(crate::proofs::PagesLemmas::length_paged))]
    fn size(&self) -> u64 {
        self.size as u64
    }

    fn read_at(&self, addr: u64, out: &mut [u8]) {
        let start = addr as usize;
        if start % PAGE + out.len() <= PAGE {
            self.read_page(start, out);
        } else {
            self.read_pages(start, out);
        }
    }

    fn write_at(&mut self, addr: u64, source: &[u8]) {
        let start = addr as usize;
        if start % PAGE + source.len() <= PAGE {
            self.write_page(start, source);
        } else {
            self.write_pages(start, source);
        }
    }

    #[tactic(auto, unfolding(crate::specs::Memory::word_at))]
    fn read_word(&self, addr: u64) -> u64 {
        match self.stored_part(addr as usize, 8) {
            Some(word) => word_of(word),
            None => self.read_word_apart(addr),
        }
    }

    #[tactic(auto, using(crate::proofs::WordsLemmas::low_word, crate::proofs::WordsLemmas::high_word))]
    fn read_words(&self, addr: u64) -> (u64, u64) {
        match self.stored_part(addr as usize, 16) {
            Some(words) => words_of(words),
            None => self.read_words_apart(addr),
        }
    }

    #[tactic(auto, using(crate::proofs::PagesLemmas::length_paged, crate::proofs::PagesLemmas::write_stored, crate::proofs::PagesLemmas::is_paged_same, crate::proofs::WordsLemmas::length_word))]
    fn write_word(&mut self, addr: u64, word: u64) {
        let start = addr as usize;
        let place = self.table.place(start / PAGE);
        if place != UNSTORED && start % PAGE + 8 <= PAGE {
            let at = place as usize * PAGE + start % PAGE;
            write_word_within(&mut self.cells, at, word);
        } else {
            self.write_pages(start, &bytes_of(word));
        }
    }

    #[tactic(auto, using(crate::proofs::PagesLemmas::length_paged, crate::proofs::PagesLemmas::write_stored, crate::proofs::PagesLemmas::is_paged_same, crate::proofs::WordsLemmas::length_two))]
    fn write_words(&mut self, addr: u64, low: u64, high: u64) {
        let start = addr as usize;
        let place = self.table.place(start / PAGE);
        if place != UNSTORED && start % PAGE + 16 <= PAGE {
            let at = place as usize * PAGE + start % PAGE;
            write_words_within(&mut self.cells, at, low, high);
        } else {
            self.write_pages(start, &bytes_of_two(low, high));
        }
    }

    #[tactic(auto, using(crate::proofs::PagesLemmas::length_paged, crate::proofs::PagesLemmas::paged_none))]
    fn clear(&mut self) {
        self.table.clear();
        self.cells.clear();
    }
}

// Adds zeros to the cells. There is room, so nothing is allocated.
fn add_zeros(cells: &mut Vec<u8>, count: usize)
    requires { length cells.old.items + count ≤ vec_capacity cells.old }
    ensures cells { cells.new.items ≡ cells.old.items ++ replicate count 0 }
    ensures len { length cells.new.items ≡ length cells.old.items + count }
    ensures capacity { vec_capacity cells.old ≤ vec_capacity cells.new }
{
    match cells.resize(cells.len() + count, 0) {
        Ok(()) => {}
        Err(_) => unreachable!(),
    }
}

// Fills `out` with zeros.
#[cold]
#[inline(never)]
fn blank(out: &mut [u8])
    ensures { out.new ≡ replicate (length out.old) 0 }
{
    out.fill(0);
}

// Writes `source` over the cells from `start` on.
#[inline]
fn write_within(cells: &mut Vec<u8>, start: usize, source: &[u8])
    requires { start + length source.now ≤ length cells.old.items }
    ensures cells { cells.new.items ≡ overwrite start source.now cells.old.items }
    ensures len { length cells.new.items ≡ length cells.old.items }
    ensures capacity { vec_capacity cells.new ≡ vec_capacity cells.old }
{
    let cells = cells.as_mut_slice();
    cells[start..start + source.len()].copy_from_slice(source);
}

// Writes a word over the cells from `start` on.
#[inline]
fn write_word_within(cells: &mut Vec<u8>, start: usize, word: u64)
    requires { start + 8 ≤ length cells.old.items }
    ensures cells { cells.new.items ≡ overwrite start (word_bytes word) cells.old.items }
    ensures len { length cells.new.items ≡ length cells.old.items }
    ensures capacity { vec_capacity cells.new ≡ vec_capacity cells.old }
{
    let cells = cells.as_mut_slice();
    put_word(&mut cells[start..start + 8], word);
}

// Writes two words over the cells from `start` on.
#[inline]
fn write_words_within(cells: &mut Vec<u8>, start: usize, low: u64, high: u64)
    requires { start + 16 ≤ length cells.old.items }
    ensures cells { cells.new.items ≡ overwrite start (two_words low high) cells.old.items }
    ensures len { length cells.new.items ≡ length cells.old.items }
    ensures capacity { vec_capacity cells.new ≡ vec_capacity cells.old }
{
    let cells = cells.as_mut_slice();
    put_words(&mut cells[start..start + 16], low, high);
}
