//! Bytes that stand one after another.
ghost use Rattle.std.specs.Prelude.{◌≡◌, ◌≤◌, ◌+◌, ◌++◌, length, vec_len, vec_capacity};
ghost use Rattle.history.specs.Heads.{part};

/// Adds bytes, for which there is room.
#[inline]
pub fn append(store: &mut Vec<u8>, more: &[u8])
    requires { vec_len store.old + length more.now ≤ vec_capacity store.old }
    ensures items { store.new.items ≡ store.old.items ++ more.now }
    ensures len { vec_len store.new ≡ vec_len store.old + length more.now }
    ensures capacity { vec_capacity store.old ≤ vec_capacity store.new }
{
    match store.extend_from_slice(more) {
        Ok(()) => {}
        Err(_) => unreachable!(),
    }
}

/// So many bytes from a place on.
#[inline]
pub fn part(store: &[u8], start: usize, count: usize) -> &[u8]
    requires { start + count ≤ length store.now }
    ensures bytes { result.now ≡ part store.now start count }
    ensures len { length result.now ≡ count }
{
    &store[start..start + count]
}
