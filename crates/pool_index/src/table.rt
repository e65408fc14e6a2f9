//! Tables of register words whose entries hold keys, each with an index of the keys.
ghost use Rattle.std.specs.Prelude.{◌≡◌, ℕ, ◌<◌, ◌≤◌, ◌^◌, ◌==◌, ◌&&◌, false, Some, IfSome};
ghost use Rattle.wire_frame.specs.Bits.{has_bit};
ghost use Rattle.pool_index.specs.Entries.{Entries, SaySame, is_given, IsAnswer};

use crate::PoolIndex;
use std::marker::Model;

/// Register words of which `N` entries hold a key each, and its pools. In contracts `entries` is what the words say of the
/// entries, and `after words offset value` the words after a write.
pub trait KeyedWords<const N: usize>: Drop {
    ghost entries: { Self → Entries };

    ghost after: { Self → ℕ → ℕ → Self };

    /// Whether an entry is valid.
    fn is_valid(&self, e: usize) -> bool
        requires { e < N }
        ensures { result ≡ (entries self.now).is_valid e };

    /// The key of an entry.
    fn key(&self, e: usize) -> u64
        requires { e < N }
        ensures { result ≡ (entries self.now).key e };

    /// The pools of an entry, as a mask with bit p for pool p.
    fn pools(&self, e: usize) -> u64
        requires { e < N }
        ensures { (p : ℕ) → p < 64 → has_bit result p ≡ (entries self.now).has_pool p e };

    /// Writes the word at an offset.
    fn write(&mut self, offset: u32, value: u32)
        ensures { self.new ≡ after self.old offset value };

    /// The entry of which the offset names a word. Of every other entry the words say the same after a write at the offset.
    fn entry_of(offset: u32) -> Option<usize>
        ensures below { IfSome result (λ e. e < N) }
        ensures others { (words : Self) (value e : ℕ) → (result ≡ Some e → ⊥)
            → SaySame (entries words) (entries (after words offset value)) e };
}

/// Register words, and an index of the keys that their valid entries hold.
#[derive(Drop)]
pub struct KeyedTable<W: KeyedWords<N>, const N: usize> {
    words: W,
    index: PoolIndex<N>,
}

impl<W: KeyedWords<N>, const N: usize> Model for KeyedTable<W, N> {
    ghost use Rattle.std.specs.Prelude.{◌<◌, ◌^◌};
    ghost use Rattle.pool_index.specs.Entries.{IsIndexOf};

    ghost Value = { W };

    ghost view = { λ t. t.words };

    ghost invariant = { λ t. (N < 2 ^ 32) × IsIndexOf t.index N (W.entries t.words) };
}

impl<W: KeyedWords<N>, const N: usize> KeyedTable<W, N> {
    /// A table of words of which no entry is valid. It has fewer than 2^32 entries, so that its size is a number.
    pub fn new(words: W) -> KeyedTable<W, N>
        requires few { N < 2 ^ 32 }
        requires empty { (e : ℕ) → (W.entries words).is_valid e ≡ false }
        ensures { result ≡ words }
    {
        KeyedTable {
            words,
            index: PoolIndex::new(),
        }
    }

    /// The words.
    #[inline]
    pub fn words(&self) -> &W
        ensures { result.now ≡ self.now }
    {
        &self.words
    }

    /// Writes the word at an offset, and brings up to date the key that the entry held and the one that it holds.
    ///
    /// The entries are scanned only where a valid entry's key changes, or it gives a pool no longer, or where it becomes valid or is no longer:
    /// one that gives more adds that to what is kept of its key, and one that isn't valid before or after is no matter to the index.
    pub fn write(&mut self, offset: u32, value: u32)
        ensures { self.new ≡ W.after self.old offset value }
    {
        let Some(e) = W::entry_of(offset) else {
            self.words.write(offset, value);
            return;
        };
        let was_valid = self.words.is_valid(e);
        let former = self.words.key(e);
        let gave = self.words.pools(e);
        self.words.write(offset, value);
        let is_valid = self.words.is_valid(e);
        let key = self.words.key(e);
        let gives = self.words.pools(e);
        if !was_valid && !is_valid {
            return;
        }
        if was_valid && is_valid && key == former && gave | gives == gives {
            self.index.add(key, gives);
            return;
        }
        self.index.set(former, found(&self.words, former));
        if key != former {
            self.index.set(key, found(&self.words, key));
        }
    }

    /// The pools of a key, as a mask with bit p for pool p: those of every valid entry that holds it; and how many of the
    /// kept keys were compared with it, no more than `N` has binary digits.
    #[inline]
    pub fn probe(&self, key: u64) -> (u64, u8)
        ensures pools { (p : ℕ) → p < 64
            → has_bit result.0 p ≡ is_given N (W.entries self.now) p key }
        ensures few { (digits : ℕ) → N < 2 ^ digits → result.1 ≤ digits }
    {
        self.index.probe(key)
    }
}

// The pools of all valid entries that hold the key; `None` where no valid entry does. It looks at every entry, and reads the words of each:
// without a branch it does several entries at once.
fn found<W: KeyedWords<N>, const N: usize>(words: &W, key: u64) -> Option<u64>
    ensures { IsAnswer result N (W.entries words.now) key }
{
    let mut is_held = false;
    let mut pools = 0;
    for e in 0..N {
        let holds = holds(words, e, key);
        let given = words.pools(e);
        is_held |= holds;
        pools |= if holds { given } else { 0 };
    }
    if is_held { Some(pools) } else { None }
}

// Whether an entry is valid and holds the key.
#[inline]
fn holds<W: KeyedWords<N>, const N: usize>(words: &W, e: usize, key: u64) -> bool
    requires { e < N }
    ensures { let t = W.entries words.now in result ≡ (t.is_valid e && (t.key e == key)) }
{
    words.is_valid(e) & (words.key(e) == key)
}
