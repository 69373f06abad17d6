ghost use Rattle.std.specs.Prelude.{◌≡◌, ◌<◌, [], length, nat_le};
ghost use Rattle.calendar.specs.Order.{placed};
ghost use Rattle.calendar.specs.Agenda.{before, first, rest};
ghost use Rattle.heap.specs.Piles.{Content};

use crate::sift::{sift_down, sift_up};
use calendar::entry::Entry;
use std::marker::Model;

// The first `len` of the entries are a heap.
// Kept as it is: the entries stand in a buffer that the caller lends, since nothing is allocated while a run advances.
#[derive(Drop)]
pub struct Pile<'a> {
    entries: &'a mut [Entry],
    len: usize,
}

impl<'a> Model for Pile<'a> {
    ghost use Rattle.std.specs.Prelude.{◌≤◌, length, take};
    ghost use Rattle.calendar.specs.Order.{in_order};
    ghost use Rattle.calendar.specs.Agenda.{before};
    ghost use Rattle.heap.specs.Heaps.{Heaped};
    ghost use Rattle.heap.specs.Piles.{Content};

    ghost Value = { Content };

    ghost view = { λ p. record { room = length p.entries.now; waiting = in_order before (take p.len p.entries.now) } };

    ghost invariant = { λ p. (p.len ≤ length p.entries.now) × Heaped before p.entries.now 0 p.len };
}

impl<'a> Pile<'a> {
    pub(crate) fn new(entries: &'a mut [Entry]) -> Pile<'a>
        ensures room { result.room ≡ length entries.old }
        ensures empty { result.waiting ≡ [] }
    {
        Pile { entries, len: 0 }
    }

    pub(crate) fn push(&mut self, e: Entry)
        requires { length self.old.waiting < self.old.room }
        ensures room { self.new.room ≡ self.old.room }
        ensures items { self.new.waiting ≡ placed before e self.old.waiting }
    {
        let n = self.len;
        self.entries[n] = e;
        sift_up(&mut self.entries[0..n + 1]);
        self.len = n + 1;
    }

    pub(crate) fn pop(&mut self) -> Option<Entry>
        ensures answer { result ≡ first self.old.waiting }
        ensures room { self.new.room ≡ self.old.room }
        ensures items { self.new.waiting ≡ rest self.old.waiting }
    {
        let last = self.len.checked_sub(1)?;
        self.entries.swap(0, last);
        sift_down(&mut self.entries[0..last]);
        self.len = last;
        Some(self.entries[last])
    }

    pub(crate) fn first(&self) -> Option<Entry>
        ensures { result ≡ first self.now.waiting }
    {
        self.entries[..self.len].first().copied()
    }

    pub(crate) fn is_full(&self) -> bool
        ensures { result ≡ nat_le self.now.room (length self.now.waiting) }
    {
        self.len == self.entries.len()
    }

    pub(crate) fn room(&self) -> usize
        ensures { result ≡ self.now.room }
    {
        self.entries.len()
    }
}
