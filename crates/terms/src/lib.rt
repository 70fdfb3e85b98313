// Terms of every class, each kept once.
#![tactic(auto)]

ghost use Rattle.std.specs.Prelude.{◌^◌, ◌<◌, length};
ghost use Rattle.table.specs.Contents.{kept};
ghost use Rattle.terms.specs.Meaning.{Sound};
ghost use Rattle.terms.specs.Sounds.{sound_prop};

pub mod checked;
pub mod plan_symbols;
pub mod records;
mod theorems;
mod written;

use records::{Binary, Class, Entry, Kind, Leaf, Record, Unary, of_binary, of_leaf, of_unary};
use table::{Full, Table};
pub use theorems::{
    heads_tell_the_class, meanings_last, refused_exactly_for_want_of_room,
    terms_are_kept_once_with_their_parts,
};

// The largest size of a term that is kept, written out.
pub const LARGEST: u32 = 20_000;

// How deep `forall` may be nested in what an instance from outside is made of, and in what is concluded or stated.
pub const DEEPEST: u32 = 32;

// The terms kept over lent memory, each under the index at which it came.
#[derive(Drop)]
pub struct Terms<'a> {
    table: Table<'a, Entry>,
    pub ghost sound: { Sound (kept table) } by { sound_prop (kept table) },
    pub ghost few: { length (kept table) < 2 ^ 32 },
}

impl<'a> Terms<'a> {
    ghost use Rattle.std.specs.Prelude.{◌≡◌, [], length};
    ghost use Rattle.terms.specs.Outcome.{room, trees};

    // No terms yet, whatever the memory holds.
    pub fn over(slots: &'a mut [Entry]) -> Terms<'a>
        ensures none { trees result ≡ [] }
        ensures room { room result ≡ length slots.old }
    {
        Terms {
            table: Table::over(slots),
        }
    }
}

impl Terms<'_> {
    ghost use Rattle.std.specs.Prelude.{◌≡◌, ◌+◌, ◌^◌, ◌<◌, ◌≤◌, take};
    ghost use Rattle.logic.specs.Tree.{leaf, unary, binary, size, open_indices, open_hypotheses, foralls, assumptions, raise_tree, put_tree, put_late, put_size, stands};
    ghost use Rattle.terms.specs.Classes.{tree_class};
    ghost use Rattle.terms.specs.Heads.{kind_head, leaf_head, unary_head, binary_head};
    ghost use Rattle.terms.specs.Meaning.{largest, Measures};
    ghost use Rattle.terms.specs.Nodes.{node, after};
    ghost use Rattle.terms.specs.Outcome.{count, entries, room, tree, trees, Did};

    // That an index is one of the table is asked where it is used: no type of a number says so of a table that grows.

    // How many terms are kept.
    pub fn len(&self) -> usize
        ensures { result ≡ count self.now }
    {
        self.table.len()
    }

    // The record at an index, with the measures of its term.
    fn get(&self, i: u32) -> Entry
        requires within { i < count self.now }
        ensures means { tree self.now i ≡ node (tree self.now) result.record }
        ensures earlier { after result.record ≤ i }
        ensures measures { Measures (tree self.now i) result }
        ensures small { size (tree self.now i) ≤ largest }
    {
        self.table.get(i as usize).unwrap()
    }

    pub fn record(&self, i: u32) -> Record
        requires within { i < count self.now }
        ensures means { tree self.now i ≡ node (tree self.now) result }
        ensures earlier { after result ≤ i }
    {
        self.get(i).record
    }

    // The class of a term, by its head.
    pub fn class(&self, i: u32) -> Class
        requires within { i < count self.now }
        ensures { result ≡ tree_class (tree self.now i) }
    {
        self.record(i).class()
    }

    // Each measure has a call of its own: a caller wants one, and each says another fact.

    // The size of the term written out.
    pub fn size(&self, i: u32) -> u32
        requires within { i < count self.now }
        ensures exact { result ≡ size (tree self.now i) }
        ensures small { result ≤ largest }
    {
        self.get(i).size
    }

    // The least number above each open index, 0 if there is none.
    pub fn indices(&self, i: u32) -> u32
        requires within { i < count self.now }
        ensures { result ≡ open_indices (tree self.now i) }
    {
        self.get(i).indices
    }

    // The least number above each open hypothesis, 0 if there is none.
    pub fn hypotheses(&self, i: u32) -> u32
        requires within { i < count self.now }
        ensures { result ≡ open_hypotheses (tree self.now i) }
    {
        self.get(i).hypotheses
    }

    // How deep `forall` is nested.
    pub fn foralls(&self, i: u32) -> u32
        requires within { i < count self.now }
        ensures { result ≡ foralls (tree self.now i) }
    {
        self.get(i).foralls
    }

    // How deep `assume` is nested.
    pub fn assumptions(&self, i: u32) -> u32
        requires within { i < count self.now }
        ensures { result ≡ assumptions (tree self.now i) }
    {
        self.get(i).assumptions
    }

    // Forgets the terms from index `n` on.
    pub fn truncate(&mut self, n: usize)
        ensures entries { entries self.new ≡ take n (entries self.old) }
        ensures trees { trees self.new ≡ take n (trees self.old) }
        ensures room { room self.new ≡ room self.old }
    {
        self.table.truncate(n)
    }

    // Where as many are kept as 32 bits count, only what is kept already has an index.
    // Never inlined: each call of it would copy its entry twice, once for that search.
    #[inline(never)]
    fn keep(&mut self, entry: Entry) -> Result<u32, Full>
        requires earlier { after entry.record ≤ count self.old }
        requires measures { Measures (node (tree self.old) entry.record) entry }
        requires small { size (node (tree self.old) entry.record) ≤ largest }
        ensures { Did self.old self.new (node (tree self.old) entry.record) result }
    {
        if self.len() >= u32::MAX as usize {
            let at = self.table.find(&entry).ok_or(Full)?;
            return Ok(at as u32);
        }
        let place = self.table.keep(entry)?;
        Ok(place.index() as u32)
    }

    // Keeps a leaf.
    pub fn leaf(&mut self, head: Leaf) -> Result<u32, Full>
        requires indices { open_indices (leaf (leaf_head head)) < 2 ^ 32 }
        requires hypotheses { open_hypotheses (leaf (leaf_head head)) < 2 ^ 32 }
        ensures { Did self.old self.new (leaf (leaf_head head)) result }
    {
        self.keep(of_leaf(head))
    }

    // Keeps a head over one operand.
    pub fn unary(&mut self, head: Unary, a: u32) -> Result<u32, Full>
        requires within { a < count self.old }
        requires small { size (unary (unary_head head) (tree self.old a)) ≤ largest }
        ensures { Did self.old self.new (unary (unary_head head) (tree self.old a)) result }
    {
        let operand = self.get(a);
        self.keep(of_unary(head, a, operand))
    }

    // Keeps a head over two operands.
    pub fn binary(&mut self, head: Binary, a: u32, b: u32) -> Result<u32, Full>
        requires left { a < count self.old }
        requires right { b < count self.old }
        requires small { size (binary (binary_head head) (tree self.old a) (tree self.old b)) ≤ largest }
        ensures { Did self.old self.new (binary (binary_head head) (tree self.old a) (tree self.old b)) result }
    {
        let left = self.get(a);
        let right = self.get(b);
        self.keep(of_binary(head, a, b, left, right))
    }

    // Keeps a thing with each index `by` more; a closed one stays as it is.
    pub fn raise(&mut self, thing: u32, by: u32) -> Result<u32, Full>
        requires within { thing < count self.old }
        requires unbound { foralls (tree self.old thing) ≡ 0 }
        requires fits { open_indices (tree self.old thing) + by < 2 ^ 32 }
        ensures { Did self.old self.new (raise_tree by (tree self.old thing)) result }
    {
        if self.indices(thing) == 0 {
            return Ok(thing);
        }
        match self.record(thing) {
            Record::Leaf(Leaf::Var(i)) => self.leaf(Leaf::Var(i + by)),
            Record::Leaf(_) => Ok(thing),
            Record::Unary(head, a) => {
                let a = self.raise(a, by)?;
                self.unary(head, a)
            }
            Record::Binary(head, a, b) => {
                let a = self.raise(a, by)?;
                let b = self.raise(b, by)?;
                self.binary(head, a, b)
            }
        }
    }

    // Keeps a term with index `depth` replaced by a thing, which is raised by as many binders, and higher indices lowered.
    // That a thing has no `forall` is asked here and in the calls beside: it is a fact of the tree at an index, as that it is there.
    pub fn substitute(&mut self, term: u32, depth: u32, thing: u32) -> Result<u32, Full>
        requires within { term < count self.old }
        requires thing { thing < count self.old }
        requires unbound { foralls (tree self.old thing) ≡ 0 }
        requires fits { open_indices (tree self.old thing) + (depth + foralls (tree self.old term)) < 2 ^ 32 }
        requires small { put_size depth (size (tree self.old thing)) (tree self.old term) ≤ largest }
        ensures { Did self.old self.new (put_late depth (tree self.old thing) (tree self.old term)) result }
    {
        if self.indices(term) <= depth {
            return Ok(term);
        }
        match self.record(term) {
            Record::Leaf(Leaf::Var(i)) => {
                if i == depth {
                    self.raise(thing, depth)
                } else {
                    self.leaf(Leaf::Var(i - 1))
                }
            }
            Record::Leaf(_) => Ok(term),
            Record::Unary(head, a) => {
                let a = self.substitute(a, head.under(depth), thing)?;
                self.unary(head, a)
            }
            Record::Binary(head, a, b) => {
                let a = self.substitute(a, depth, thing)?;
                let b = self.substitute(b, depth, thing)?;
                self.binary(head, a, b)
            }
        }
    }

    // Keeps φ[t]: index 0 of a term replaced by a thing.
    pub fn instance(&mut self, term: u32, thing: u32) -> Result<u32, Full>
        requires within { term < count self.old }
        requires thing { thing < count self.old }
        requires unbound { foralls (tree self.old thing) ≡ 0 }
        requires fits { open_indices (tree self.old thing) + foralls (tree self.old term) < 2 ^ 32 }
        requires small { put_size 0 (size (tree self.old thing)) (tree self.old term) ≤ largest }
        ensures { Did self.old self.new (put_tree 0 (tree self.old thing) (tree self.old term)) result }
    {
        self.substitute(term, 0, thing)
    }

    // The size that a term has after index `depth` is replaced by a thing of size `n`; nothing is kept.
    pub fn size_after(&self, term: u32, depth: u32, n: u32) -> u32
        requires within { term < count self.now }
        requires fits { depth + foralls (tree self.now term) < 2 ^ 32 }
        requires small { n ≤ largest }
        ensures { result ≡ put_size depth n (tree self.now term) }
    {
        if self.indices(term) <= depth {
            return self.size(term);
        }
        match self.record(term) {
            Record::Leaf(Leaf::Var(i)) if i == depth => n,
            Record::Leaf(_) => 1,
            Record::Unary(head, a) => self.size_after(a, head.under(depth), n) + 1,
            Record::Binary(_, a, b) => self.size_after(a, depth, n)
                + self.size_after(b, depth, n)
                + 1,
        }
    }

    // Whether a symbol of the kind stands in a term.
    pub fn stands(&self, k: Kind, symbol: u32, term: u32) -> bool
        requires within { term < count self.now }
        ensures { result ≡ stands (kind_head k) symbol (tree self.now term) }
    {
        match self.record(term) {
            Record::Leaf(_) => false,
            Record::Unary(head, a) => head.applies(k, symbol) || self.stands(k, symbol, a),
            Record::Binary(_, a, b) => self.stands(k, symbol, a) || self.stands(k, symbol, b),
        }
    }
}

#[cfg(test)]
mod tests;
