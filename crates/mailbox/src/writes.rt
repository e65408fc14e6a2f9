//! Writes to the physical function's registers.
ghost use Rattle.std.specs.Prelude.{◌≡◌, ◌+◌, ◌*◌, ◌^◌, ◌<◌, ◌≤◌, ◌++◌, [], ◌∷◌, length};
ghost use Rattle.mailbox.specs.Writes.{write_at, writes_where};

use arrayvec::ArrayVec;
use std::marker::Model;
use wire_frame::Row;

/// A write to a register of the physical function.
#[derive(Clone, Copy, Debug, Default, PartialEq, Eq)]
pub struct Write {
    /// The offset of the register.
    pub offset: u32,
    /// The word that is written.
    pub value: u32,
}

/// Writes in the order in which they are to be done, at most [`Writes::MOST`].
#[derive(Debug, Drop)]
pub struct Writes {
    list: ArrayVec<Write, 74>,
}

impl Model for Writes {
    ghost use Rattle.std.specs.Prelude.{List};
    ghost use Rattle.mailbox.specs.declared.writes.Write.{Write};

    ghost Value = { List Write };

    ghost view = { λ w. w.list.items };
}

impl Writes {
    /// The most that an answer gives: two receive address entries of three writes, VMOLR, VMVIR, a word each of PFVFRE and
    /// PFVFTE, and a word for each of 64 VLAN entries.
    pub const MOST: usize = 74;

    /// No writes.
    pub(crate) fn new() -> Writes
        ensures { result ≡ [] }
    {
        Writes {
            list: ArrayVec::new(),
        }
    }

    /// The writes.
    pub fn as_slice(&self) -> &[Write]
        ensures value { result.now ≡ self.now }
        ensures few { length result.now ≤ 74 }
    {
        self.list.as_slice()
    }

    /// One write more, of the row's word at a place.
    pub(crate) fn put(&mut self, row: Row, place: u32, value: u32)
        requires room { length self.old < 74 }
        requires fits { row.first + row.stride * place < 2 ^ 32 }
        ensures list { self.new ≡ self.old ++ write_at row place value ∷ [] }
        ensures more { length self.new ≡ length self.old + 1 }
    {
        self.list.push(Write {
            offset: row.first + row.stride * place,
            value,
        });
    }

    /// The same, where the test holds.
    pub(crate) fn put_if(&mut self, test: bool, row: Row, place: u32, value: u32)
        requires room { length self.old < 74 }
        requires fits { row.first + row.stride * place < 2 ^ 32 }
        ensures list { self.new ≡ self.old ++ writes_where (λ i. test) row (λ i. value) place 1 }
        ensures more { length self.new ≤ length self.old + 1 }
    {
        if test {
            self.put(row, place, value);
        }
    }
}
