// A list over a lent slice: entries in the order in which they came.
ghost use Rattle.std.specs.Prelude.{◌≡◌, ◌<◌, ◌≤◌, [], ◌∷◌, ◌++◌, length, take, MatchResult};
ghost use Rattle.std.specs.List.{slice_get};
ghost use Rattle.table.specs.Logged.{logged, capacity};

use crate::Full;

// A slice with a length, since the memory is the caller's; no heap is used. No ghost field says that `used` is within, since `take` asks for nothing.
#[derive(Drop)]
pub struct Log<'a, E: Copy> {
    pub(crate) slots: &'a mut [E],
    pub(crate) used: usize,
}

impl<'a, E: Copy> Log<'a, E> {
    // An empty list over lent memory, whatever that holds.
    pub fn over(slots: &'a mut [E]) -> Log<'a, E>
        ensures logged { logged result ≡ [] }
        ensures capacity { capacity result ≡ length slots.old }
    {
        Log { slots, used: 0 }
    }

    // The entries, in the order in which they came.
    pub fn entries(&self) -> &[E]
        ensures logged { result.now ≡ logged self.now }
        ensures within { length result.now ≤ capacity self.now }
    {
        &self.slots[..self.used.min(self.capacity())]
    }

    pub fn len(&self) -> usize
        ensures count { result ≡ length (logged self.now) }
        ensures within { result ≤ capacity self.now }
    {
        self.entries().len()
    }

    // How many entries there are places for.
    pub fn capacity(&self) -> usize
        ensures { result ≡ capacity self.now }
    {
        self.slots.len()
    }

    pub fn get(&self, i: usize) -> Option<E>
        ensures { result ≡ slice_get (logged self.now) i }
    {
        self.entries().get(i).copied()
    }

    // Puts an entry at the end; with no place left nothing changes.
    pub fn push(&mut self, e: E) -> Result<(), Full>
        ensures logged { MatchResult result (λ _. (length (logged self.old) < capacity self.old) × (logged self.new ≡ logged self.old ++ e ∷ [])) (λ _. (length (logged self.old) ≡ capacity self.old) × (logged self.new ≡ logged self.old)) }
        ensures capacity { capacity self.new ≡ capacity self.old }
    {
        // Tested and written by index: of what a `get_mut` lends, a caller does not know which entry it is.
        let used = self.len();
        if used >= self.capacity() {
            return Err(Full);
        }
        self.slots[used] = e;
        self.used = used + 1;
        Ok(())
    }

    // Forgets the entries from place `n` on.
    pub fn truncate(&mut self, n: usize)
        ensures logged { logged self.new ≡ take n (logged self.old) }
        ensures capacity { capacity self.new ≡ capacity self.old }
    {
        self.used = self.used.min(n);
    }
}
