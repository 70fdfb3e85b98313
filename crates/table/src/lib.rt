// A table over a lent slice that keeps each entry once.
#![tactic(auto)]

ghost use Rattle.std.specs.Prelude.{◌≡◌, ◌≤◌, [], length, take, MatchResult};
ghost use Rattle.std.specs.List.{slice_get};
ghost use Rattle.table.specs.Contents.{kept, places};
ghost use Rattle.table.specs.Keeping.{answer, index, keep_in};
ghost use Rattle.table.specs.Theorems.{KeepsFirstAppearances, RoomSuffices};
ghost use Rattle.table.specs.Sameness.{first, Apart, Stands, FirstIsTheOne};

pub mod log;

use log::Log;

// The place of the first entry that is equal to `e`; where entries are apart, the only one.
// A search from the front, since the memory is lent: there is none for an index.
pub fn first_same<E: Eq>(entries: &[E], e: &E) -> Option<usize>
    ensures first { result ≡ first E.eq entries.now e.now }
    ensures only { FirstIsTheOne E.eq }
{
    entries.iter().position(|x| x == e)
}

#[derive(Drop)]
pub struct Table<'a, E: Copy> {
    log: Log<'a, E>,
}

// Where an entry is kept: where one that is equal stood already, or at the end. Neither is a failure, so this is no Result.
#[derive(Clone, Copy, PartialEq, Eq, Debug)]
pub enum Place {
    Found(usize),
    Added(usize),
}

impl Place {
    pub fn index(self) -> usize
        ensures { result ≡ index self }
    {
        match self {
            Place::Found(i) | Place::Added(i) => i,
        }
    }
}

// No place is left.
#[derive(Clone, Copy, PartialEq, Eq, Debug)]
pub struct Full;

impl<'a, E: Copy> Table<'a, E> {
    // An empty table over lent memory, whatever that holds.
    pub fn over(slots: &'a mut [E]) -> Table<'a, E>
        ensures kept { kept result ≡ [] }
        ensures places { places result ≡ length slots.old }
    {
        Table {
            log: Log::over(slots),
        }
    }

    // The entries kept, in the order in which they came.
    pub fn entries(&self) -> &[E]
        ensures kept { result.now ≡ kept self.now }
        ensures within { length result.now ≤ places self.now }
    {
        self.log.entries()
    }

    // How many entries are kept.
    pub fn len(&self) -> usize
        ensures count { result ≡ length (kept self.now) }
        ensures within { result ≤ places self.now }
    {
        self.log.len()
    }

    // How many there are places for.
    pub fn room(&self) -> usize
        ensures { result ≡ places self.now }
    {
        self.log.capacity()
    }

    pub fn get(&self, i: usize) -> Option<E>
        ensures { result ≡ slice_get (kept self.now) i }
    {
        self.log.get(i)
    }
}

impl<'a, E: Copy + Eq> Table<'a, E> {
    // The place of the entry that is equal to `e`.
    pub fn find(&self, e: &E) -> Option<usize>
        ensures first { result ≡ first E.eq (kept self.now) e.now }
        ensures only { FirstIsTheOne E.eq }
    {
        first_same(self.entries(), e)
    }

    // Keeps `e`, unless one that is equal is kept already; with no place left nothing changes.
    pub fn keep(&mut self, e: E) -> Result<Place, Full>
        ensures answer { result ≡ answer E.eq (places self.old) (kept self.old) e }
        ensures kept { kept self.new ≡ keep_in E.eq (places self.old) (kept self.old) e }
        ensures places { places self.new ≡ places self.old }
        ensures stands { MatchResult result (λ p. Stands E.eq (kept self.new) e (index p)) (λ _. length (kept self.old) ≡ places self.old) }
        ensures apart { Apart E.eq (kept self.old) → Apart E.eq (kept self.new) }
    {
        if let Some(at) = self.find(&e) {
            return Ok(Place::Found(at));
        }
        let end = self.len();
        self.log.push(e)?;
        Ok(Place::Added(end))
    }

    // Forgets the entries from place `n` on.
    pub fn truncate(&mut self, n: usize)
        ensures kept { kept self.new ≡ take n (kept self.old) }
        ensures places { places self.new ≡ places self.old }
        ensures apart { Apart E.eq (kept self.old) → Apart E.eq (kept self.new) }
    {
        self.log.truncate(n)
    }
}

// Keeping each of any entries, from an empty table on, keeps each once, in the order of first appearance.
#[tactic(auto, using(crate::proofs::Keepings::keeps_first_appearances))]
pub fn keeping_each_keeps_first_appearances<E: Eq>()
    ensures { KeepsFirstAppearances E.eq }
{}

// Where there is room, a table keeps as if it had no end.
#[tactic(auto, using(crate::proofs::Keepings::room_suffices))]
pub fn room_suffices<E: Eq>()
    ensures { RoomSuffices E.eq }
{}

#[cfg(test)]
mod tests;
