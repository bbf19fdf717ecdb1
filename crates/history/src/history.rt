// Changes that can be taken back, and changes that were.
ghost use Rattle.std.specs.Prelude.{◌≡◌, ◌≤◌, length, slice_get, option_copied, IfOk, MatchOption};

use crate::kept::Kept;
use circular_buffer::HeapCircularBuffer;
use std::alloc::Global;
use std::marker::Model;
use wiki_base::Memory;

/// How many changes can be taken back: 100.
pub const MOST_ENTRIES: usize = 100;

/// The changes that can be taken back, at most `MOST_ENTRIES`, and those that were taken back and can be done again. It is seen
/// as two lists of what stood before each, the newest first. No call but `new` takes memory.
#[derive(Drop)]
pub struct History {
    past: HeapCircularBuffer<Kept>,
    future: HeapCircularBuffer<Kept>,
}

impl Model for History {
    ghost use Rattle.std.specs.Prelude.{◌≡◌, ◌≤◌, ◌+◌, length};
    ghost use Rattle.history.specs.Entries.{Entries, entries_code};
    ghost use Rattle.history.specs.contracts.kept.Kept as kept;
    ghost use Rattle.history.specs.declared.history.TheConstants.{MOST_ENTRIES};

    ghost Value = { Entries };

    ghost coded = { entries_code kept.the_row.coded };

    ghost view = { λ h. record { past = h.past.items; future = h.future.items } };

    ghost invariant = { λ h. (h.past.capacity ≡ MOST_ENTRIES) × (h.future.capacity ≡ MOST_ENTRIES)
        × (length h.past.items + length h.future.items ≤ MOST_ENTRIES) };
}

impl History {
    ghost use Rattle.std.specs.Prelude.{◌+◌};
    ghost use Rattle.history.specs.Entries.{no_entries, with_change, taken_back, done_again};

    /// No changes yet, with room for all that may come.
    pub fn new(alloc: Global) -> Result<History, Memory>
        ensures { IfOk result (λ history. history ≡ no_entries) }
    {
        Ok(History {
            past: HeapCircularBuffer::with_capacity(alloc, MOST_ENTRIES)?,
            future: HeapCircularBuffer::with_capacity(alloc, MOST_ENTRIES)?,
        })
    }

    /// Notes what stood before a change that was done. The oldest change is forgotten where there are more than
    /// `MOST_ENTRIES`, and none can be done again.
    pub fn note(&mut self, before: Kept)
        ensures { self.new ≡ with_change before self.old }
    {
        self.future.clear();
        let _ = self.past.push_front(before);
    }

    /// What stood before the newest change.
    pub fn last(&self) -> Option<&Kept>
        ensures entry { option_copied result ≡ slice_get self.now.past 0 }
        ensures few { length self.now.past + length self.now.future ≤ MOST_ENTRIES }
    {
        self.past.front()
    }

    /// What stood before the newest change was taken back.
    pub fn next(&self) -> Option<&Kept>
        ensures { option_copied result ≡ slice_get self.now.future 0 }
    {
        self.future.front()
    }

    /// Takes the newest change back: gives what stood before it, and keeps what stands now. Without a change nothing is kept.
    pub fn undone(&mut self, now: Kept) -> Option<Kept>
        ensures entry { result ≡ slice_get self.old.past 0 }
        ensures history { MatchOption result (self.new ≡ self.old) (λ _. self.new ≡ taken_back now self.old) }
    {
        let before = self.past.pop_front()?;
        let _ = self.future.push_front(now);
        Some(before)
    }

    /// Does the newest change that was taken back again: gives what stood after it, and keeps what stands now. Where none was
    /// taken back nothing is kept.
    pub fn redone(&mut self, now: Kept) -> Option<Kept>
        ensures entry { result ≡ slice_get self.old.future 0 }
        ensures history { MatchOption result (self.new ≡ self.old) (λ _. self.new ≡ done_again now self.old) }
    {
        let after = self.future.pop_front()?;
        let _ = self.past.push_front(now);
        Some(after)
    }

    /// Forgets all changes.
    pub fn clear(&mut self)
        ensures { self.new ≡ no_entries }
    {
        self.past.clear();
        self.future.clear();
    }
}
