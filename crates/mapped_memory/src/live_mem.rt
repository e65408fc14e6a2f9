//! The memory, and what maps its regions.
ghost use Rattle.std.specs.Prelude.{◌≡◌, ◌↔◌, ◌+◌, ◌≤◌, true, false, [], ◌∷◌, ◌++◌, length, replicate, map, Some, None, IfOk, IfErr, OnOk, MatchOption};
ghost use Rattle.std.proofs.lemmas.Bool.{true≢false};
ghost use Rattle.guest_memory.specs.Memory.{overwrite, is_memory_size};
ghost use Rattle.live_memory.specs.Clearing.{clearing};
ghost use Rattle.live_memory.specs.Trace.{Read, Wrote};
ghost use Rattle.mapped_memory.specs.Regions.{bytes_at, is_space, written, cleared};
ghost use Rattle.mapped_memory.specs.Whole.{bytes_whole};
ghost use Rattle.mapped_memory.specs.Mapping.{AreMapped, IsHome, next_from, refusal, with_part, bytes_from, parts_without};

use crate::map_error::{MapError, RefusedBytes};
use crate::region::Region;
use crate::scans::{
    clear_all, home_of, is_any_met, is_home, next_from, place_behind, place_of, read_all, write_all,
};
use guest_memory::is_memory_size;
use live_memory::{Dma, Shared, Step, Trace};
use std::alloc::Global;
use std::marker::Model;
use wire_frame::Fault;

/// How many regions may be mapped.
pub const MOST_REGIONS: usize = 64;

/// The most bytes of a memory: 64 TiB.
pub const MOST_SPACE: u64 = 1 << 46;

/// A memory of which up to 64 regions of bytes are mapped. It reads as zero where none is, and drops what is written there. No two
/// regions have an address in common. [`LiveMem::new`] makes one of 4096 to 16,777,216 bytes, a multiple of 128, as every memory of a
/// script has; [`LiveMem::for_guest`] one of any size up to [`MOST_SPACE`], none too.
///
/// In contracts it is its regions, in the order of their addresses, the bytes as a device knows them, zeros at first, and then what each
/// access read or wrote, wherever it was; and all those accesses. To map a region or to unmap it changes nothing of what a device knows.
///
/// An access whose bytes lie in one region costs a few steps beside its bytes, however many regions there are: that of the access
/// before is looked at first. One whose bytes lie in several regions, or in none, looks at each region once.
#[derive(Drop)]
pub struct LiveMem<'a> {
    size: u64,
    // in the order of their addresses
    regions: Vec<Region<'a>>,
    // the place of the region of the last access
    last: usize,
    // all since it was made
    accesses: Trace,
}

impl<'a> Model for LiveMem<'a> {
    ghost use Rattle.std.specs.Prelude.{◌≡◌, ◌≤◌, length, vec_capacity};
    ghost use Rattle.mapped_memory.specs.Regions.{MOST_SPACE, Regions};
    ghost use Rattle.mapped_memory.specs.Known.{known};

    ghost Value = { Regions };

    ghost use Rattle.mapped_memory.specs.Mapping.{AreMapped};

    ghost view = { λ m. record {
      parts = m.regions.items;
      seen = known m.size m.accesses.accesses;
      accesses = m.accesses.accesses;
    } };

    ghost invariant = { λ m. (m.size ≡ length (known m.size m.accesses.accesses)) × (m.size ≤ MOST_SPACE)
        × (length m.regions.items ≤ 64) × (64 ≤ vec_capacity m.regions)
        × AreMapped m.size m.regions.items };
}

impl<'a> LiveMem<'a> {
    /// A memory of `size` bytes with no region, and room for 64. A size outside the limits is [`Fault::BadMake`]; [`Fault::NoMemory`]
    /// comes only where the host refused the room. No later call takes memory.
    pub fn new(alloc: Global, size: u64) -> Result<LiveMem<'a>, Fault>
        ensures ok { IfOk result (λ m. m ≡ record { parts = []; seen = replicate size 0; accesses = [] }) }
        ensures bad_make { (result ≡ Err Fault.BadMake) ↔ (is_memory_size size ≡ false) }
        ensures no_memory { IfErr result (λ e. is_memory_size size ≡ true → e ≡ Fault.NoMemory) }
    {
        if !is_memory_size(size) {
            return Err(Fault::BadMake);
        }
        LiveMem::over(alloc, size)
    }

    /// The same, of any size up to [`MOST_SPACE`]: the address space of a guest, or no bytes at all for a function without one. A larger
    /// size is [`Fault::BadMake`].
    pub fn for_guest(alloc: Global, size: u64) -> Result<LiveMem<'a>, Fault>
        ensures ok { IfOk result (λ m. m ≡ record { parts = []; seen = replicate size 0; accesses = [] }) }
        ensures bad_make { (result ≡ Err Fault.BadMake) ↔ (is_space size ≡ false) }
        ensures no_memory { IfErr result (λ e. is_space size ≡ true → e ≡ Fault.NoMemory) }
    {
        if size > MOST_SPACE {
            return Err(Fault::BadMake);
        }
        LiveMem::over(alloc, size)
    }

    /// The memory as it was made: no region is mapped, and no access was made. It keeps its room, so that the next guest's memory takes none.
    #[tactic(auto, unfolding(crate::specs::Mapping::AreMapped, crate::specs::Known::with_accesses))]
    pub fn renewed(self) -> LiveMem<'a>
        ensures { result ≡ record { parts = []; seen = replicate (length self.entry.seen) 0; accesses = [] } }
    {
        let LiveMem {
            size,
            mut regions,
            ..
        } = self;
        regions.clear();
        LiveMem {
            size,
            regions,
            last: 0,
            accesses: Step::Begin.trace(),
        }
    }

    // A memory of so many bytes.
    #[tactic(auto, unfolding(crate::specs::Mapping::AreMapped, crate::specs::Known::with_accesses))]
    fn over(alloc: Global, size: u64) -> Result<LiveMem<'a>, Fault>
        requires { size ≤ 70368744177664 }
        ensures ok { IfOk result (λ m. m ≡ record { parts = []; seen = replicate size 0; accesses = [] }) }
        ensures no_memory { IfErr result (λ e. e ≡ Fault.NoMemory) }
    {
        let regions = Vec::with_capacity(alloc, MOST_REGIONS)?;
        Ok(LiveMem {
            size,
            regions,
            last: 0,
            accesses: Step::Begin.trace(),
        })
    }

    /// How many regions are mapped.
    pub fn regions(&self) -> usize
        ensures count { result ≡ length self.now.parts }
        ensures few { result ≤ 64 }
        ensures mapped { AreMapped (length self.now.seen) self.now.parts }
    {
        self.regions.len()
    }

    /// The first region that begins at address `at` or behind it: where it begins, and how many bytes it has. So a host finds what is
    /// still mapped, region by region.
    pub fn region_from(&self, at: u64) -> Option<(u64, usize)>
        ensures { result ≡ next_from at self.now.parts }
    {
        next_from(&self.regions, at)
    }

    /// Whether `count` bytes can be mapped from address `at` on, or the first reason why they can't.
    pub fn can_map(&self, at: u64, count: usize) -> Result<(), MapError>
        ensures ok { OnOk result (refusal self.now at count ≡ None) }
        ensures err { IfErr result (λ why. refusal self.now at count ≡ Some why) }
    {
        if count == 0 {
            return Err(MapError::NoBytes);
        }
        if at > self.size || count as u64 > self.size - at {
            return Err(MapError::PastEnd);
        }
        if is_any_met(&self.regions, at as usize, count) {
            return Err(MapError::Overlaps);
        }
        if self.regions.len() >= MOST_REGIONS {
            return Err(MapError::TooMany);
        }
        Ok(())
    }

    /// Maps bytes from address `at` on, which keep their values. A device's writes to a read-only region are dropped. Where they can't
    /// be mapped, as [`can_map`](LiveMem::can_map) tells, nothing changes and the error has the bytes.
    pub fn map(
        &mut self,
        at: u64,
        cells: &'a mut [u8],
        is_read_only: bool,
    ) -> Result<(), RefusedBytes<'a>>
        ensures can { OnOk result (refusal self.old at (length cells.old) ≡ None) }
        ensures mapped { OnOk result (self.new
            ≡ with_part self.old (record { at = at; bytes = cells.old; is_read_only = is_read_only })) }
        ensures why { IfErr result (λ refused. refusal self.old at (length cells.old) ≡ Some refused.why) }
        ensures given_back { IfErr result (λ refused. refused.cells.now ≡ cells.old) }
        ensures unchanged { IfErr result (λ refused. self.new ≡ self.old) }
    {
        if let Err(why) = self.can_map(at, cells.len()) {
            return Err(RefusedBytes { why, cells });
        }
        let place = place_behind(&self.regions, at as usize);
        let region = Region::new(at as usize, cells, is_read_only);
        match self.regions.insert(place, region) {
            Ok(()) => Ok(()),
            Err(_) => unreachable!(),
        }
    }

    /// Unmaps the region that begins at address `at`, and gives its bytes back, with what was written to them. `None`, and nothing
    /// changes, where none begins there.
    #[tactic(auto, using(crate::proofs::MapLemmas::bytes_found, crate::proofs::MapLemmas::others_found, crate::proofs::MapLemmas::bytes_missed, crate::proofs::MapLemmas::others_missed))]
    pub fn unmap(&mut self, at: u64) -> Option<&'a mut [u8]>
        ensures bytes { MatchOption result (bytes_from at self.old.parts ≡ None)
            (λ cells. bytes_from at self.old.parts ≡ Some cells.now) }
        ensures others { self.new ≡ record self.old { parts = parts_without at self.old.parts } }
    {
        let Some(place) = place_of(&self.regions, at) else {
            return None;
        };
        Some(self.regions.remove(place).into_cells())
    }

    // Copies the bytes from `addr` on into `out`: those of one region, where one has them all. That of the access before is looked at
    // first.
    #[inline]
    fn read_parts(&mut self, addr: usize, out: &mut [u8])
        requires { addr + length out.old ≤ length self.old.seen }
        ensures out { out.new ≡ bytes_at self.old.parts addr (length out.old) }
        ensures memory { self.new ≡ self.old }
    {
        let last = self.last;
        if is_home(&self.regions, last, addr, out.len()) {
            return self.read_home(last, addr, out);
        }
        self.read_elsewhere(addr, out);
    }

    // The same, where the region of the access before hasn't all of them. It isn't inlined, so that an access to that region is few
    // instructions.
    #[inline(never)]
    fn read_elsewhere(&mut self, addr: usize, out: &mut [u8])
        requires { addr + length out.old ≤ length self.old.seen }
        ensures out { out.new ≡ bytes_at self.old.parts addr (length out.old) }
        ensures memory { self.new ≡ self.old }
    {
        match home_of(&self.regions, addr, out.len()) {
            Some(place) => {
                self.last = place;
                self.read_home(place, addr, out);
            }
            None => read_all(&self.regions, addr, out),
        }
    }

    // The same, where the region at a place has all of them.
    #[inline]
    fn read_home(&self, place: usize, addr: usize, out: &mut [u8])
        requires space { addr + length out.old ≤ length self.now.seen }
        requires home { IsHome addr (length out.old) place self.now.parts }
        ensures { out.new ≡ bytes_at self.now.parts addr (length out.old) }
    {
        self.regions[place].read_own(addr, out);
    }

    // Writes `source` from `addr` on: into one region, where it has all of these addresses. That of the access before is looked at first.
    #[inline]
    fn write_parts(&mut self, addr: usize, source: &[u8])
        requires { addr + length source.now ≤ length self.old.seen }
        ensures { self.new
            ≡ record self.old { parts = map (written addr source.now) self.old.parts } }
    {
        let last = self.last;
        if is_home(&self.regions, last, addr, source.len()) {
            return self.write_home(last, addr, source);
        }
        self.write_elsewhere(addr, source);
    }

    // The same, where the region of the access before hasn't all of them. It isn't inlined either.
    #[inline(never)]
    fn write_elsewhere(&mut self, addr: usize, source: &[u8])
        requires { addr + length source.now ≤ length self.old.seen }
        ensures { self.new
            ≡ record self.old { parts = map (written addr source.now) self.old.parts } }
    {
        match home_of(&self.regions, addr, source.len()) {
            Some(place) => {
                self.last = place;
                self.write_home(place, addr, source);
            }
            None => write_all(&mut self.regions, addr, source),
        }
    }

    // The same, where the region at a place has all of these addresses.
    #[inline]
    fn write_home(&mut self, place: usize, addr: usize, source: &[u8])
        requires space { addr + length source.now ≤ length self.old.seen }
        requires home { IsHome addr (length source.now) place self.old.parts }
        ensures { self.new
            ≡ record self.old { parts = map (written addr source.now) self.old.parts } }
    {
        self.regions[place].write_own(addr, source);
    }
}

// What it answers is what the regions have. The contracts say of each access what it leaves in the regions, beside what the interface
// says.
impl Dma<Shared> for LiveMem<'_> {
    ghost shared = { true };

    ghost seen = { λ m. m.seen };

    ghost answer = { λ m at count. bytes_at m.parts at count };

    ghost noted = { λ m. m.accesses };

    ghost whole = { λ m at count fits. bytes_whole m.parts at count };

    ghost steady = { λ m at count not. absurd (true≢false not) };

    fn extent(&self) -> u64 {
        self.size
    }

    fn notes(&self) -> Trace
        ensures { result.accesses ≡ self.now.accesses }
    {
        Step::Rests(&self.accesses).trace()
    }

    #[tactic(auto, using(crate::proofs::KnownLemmas::read_last))]
    fn load(&mut self, addr: u64, out: &mut [u8])
        requires { addr + length out.old ≤ length self.old.seen }
        ensures out { out.new ≡ bytes_at self.old.parts addr (length out.old) }
        ensures seen { self.new.seen
            ≡ overwrite addr (bytes_at self.old.parts addr (length out.old)) self.old.seen }
        ensures size { length self.new.seen ≡ length self.old.seen }
        ensures noted { self.new.accesses
            ≡ self.old.accesses ++ Read addr (bytes_at self.old.parts addr (length out.old)) ∷ [] }
        ensures parts { self.new.parts ≡ self.old.parts }
    {
        self.read_parts(addr as usize, out);
        note_read(&mut self.accesses, addr, out);
    }

    #[tactic(auto, using(crate::proofs::KnownLemmas::written_last))]
    fn store(&mut self, addr: u64, source: &[u8])
        requires { addr + length source.now ≤ length self.old.seen }
        ensures seen { self.new.seen ≡ overwrite addr source.now self.old.seen }
        ensures size { length self.new.seen ≡ length self.old.seen }
        ensures noted { self.new.accesses ≡ self.old.accesses ++ Wrote addr source.now ∷ [] }
        ensures parts { self.new.parts ≡ map (written addr source.now) self.old.parts }
    {
        self.write_parts(addr as usize, source);
        note_written(&mut self.accesses, addr, source);
    }

    fn erase(&mut self)
        ensures seen { self.new.seen ≡ replicate (length self.old.seen) 0 }
        ensures size { length self.new.seen ≡ length self.old.seen }
        ensures noted { self.new.accesses ≡ self.old.accesses ++ clearing (length self.old.seen) }
        ensures parts { self.new.parts ≡ map cleared self.old.parts }
    {
        clear_all(&mut self.regions);
        note_cleared(&mut self.accesses, self.size);
    }
}

// One access more: these bytes were read from an address on.
#[inline]
fn note_read(trace: &mut Trace, addr: u64, bytes: &[u8])
    ensures { trace.new.accesses ≡ trace.old.accesses ++ Read addr bytes.now ∷ [] }
{
    *trace = Step::Reads(trace, addr, bytes).trace();
}

// One access more: these bytes were written from an address on.
#[inline]
fn note_written(trace: &mut Trace, addr: u64, bytes: &[u8])
    ensures { trace.new.accesses ≡ trace.old.accesses ++ Wrote addr bytes.now ∷ [] }
{
    *trace = Step::Writes(trace, addr, bytes).trace();
}

// One access more: zero was written over so many bytes, which are all.
#[inline]
fn note_cleared(trace: &mut Trace, size: u64)
    ensures { trace.new.accesses ≡ trace.old.accesses ++ clearing size }
{
    *trace = Step::Clears(trace, size).trace();
}
