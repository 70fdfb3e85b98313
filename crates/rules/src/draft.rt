// Terms that are to be made over terms that are kept: their measures, and keeping them.
ghost use Rattle.std.specs.Prelude.{◌≡◌, ℕ, ◌-◌, ◌^◌, ◌<◌, ◌≤◌, min, true};
ghost use Rattle.std.proofs.Common.{refl, ap, ap₂, ◌∙◌};
ghost use Rattle.logic.specs.Tree.{Tree, leaf, unary, binary, size, foralls, open_indices, open_hypotheses, put_tree};
ghost use Rattle.terms.specs.Heads.{leaf_head, unary_head, binary_head};
ghost use Rattle.terms.specs.Meaning.{largest};
ghost use Rattle.terms.specs.Outcome.{count, tree, Did};
ghost use Rattle.rules.specs.Drafts.{Stated};
ghost use Rattle.rules.specs.Forms.{closed_thing, small};

use crate::refusal::Reason;
use table::Full;
use terms::records::{Binary, Connective, Leaf, Unary};
use terms::{DEEPEST, LARGEST, Terms};

pub(crate) const IMPLIES: Binary = Binary::Connect(Connective::Implication);

// A term that is to be made.
pub(crate) trait Draft: Copy {
    // The tree that it becomes, over the trees of the terms that are kept.
    ghost drawn: { (ℕ → Tree) → Self → Tree };

    // Each kept term that it names is among the first n, and only closed things are put for an index.
    // Asked in each method, since it speaks of a table that grows: no type of a draft says it.
    ghost within: { ℕ → (ℕ → Tree) → Self → Type 0 };

    // Its size written out, or the largest number where that is larger.
    fn size(&self, terms: &Terms) -> u32
        requires operands { within (count terms.now) (tree terms.now) self.now }
        ensures { result ≡ min (size (drawn (tree terms.now) self.now)) (2 ^ 32 - 1) };

    // How deep `forall` is nested in it, or the largest number where that is larger.
    fn nesting(&self, terms: &Terms) -> u32
        requires operands { within (count terms.now) (tree terms.now) self.now }
        ensures { result ≡ min (foralls (drawn (tree terms.now) self.now)) (2 ^ 32 - 1) };

    // Whether it is within the limits.
    final fn fits(&self, terms: &Terms) -> bool
        requires operands { within (count terms.now) (tree terms.now) self.now }
        ensures { result ≡ small (drawn (tree terms.now) self.now) }
    {
        self.size(terms) <= LARGEST && self.nesting(terms) <= DEEPEST
    }

    fn keep(self, terms: &mut Terms) -> Result<u32, Full>
        requires operands { within (count terms.old) (tree terms.old) self }
        requires small { size (drawn (tree terms.old) self) ≤ largest }
        ensures { Did terms.old terms.new (drawn (tree terms.old) self) result };

    // In a table that has grown it may be kept too, and it becomes the same tree.
    ghost still_within: { (m n : ℕ) (f g : ℕ → Tree) → ((i : ℕ) → i < m → i < n) → ((i : ℕ) → i < m → g i ≡ f i) → (d : Self) → within m f d → within n g d };

    ghost still_drawn: { (n : ℕ) (f g : ℕ → Tree) → ((i : ℕ) → i < n → g i ≡ f i) → (d : Self) → within n f d → drawn g d ≡ drawn f d };
}

// A term that is kept.
#[derive(Clone, Copy)]
pub(crate) struct Kept(pub u32);

impl Draft for Kept {
    ghost drawn = { λ f d. f d.0 };

    ghost within = { λ n _ d. d.0 < n };

    ghost still_within = { λ _ _ _ _ later _ d w. later d.0 w };

    ghost still_drawn = { λ _ _ _ same d w. same d.0 w };

    fn size(&self, terms: &Terms) -> u32 {
        terms.size(self.0)
    }

    fn nesting(&self, terms: &Terms) -> u32 {
        terms.foralls(self.0)
    }

    fn keep(self, _: &mut Terms) -> Result<u32, Full> {
        Ok(self.0)
    }
}

// A kept term with a kept thing put for index 0.
#[derive(Clone, Copy)]
pub(crate) struct Put {
    pub term: u32,
    pub thing: u32,
}

impl Draft for Put {
    ghost drawn = { λ f d. put_tree 0 (f d.thing) (f d.term) };

    ghost within = { λ n f d. (d.term < n) × (d.thing < n) × (closed_thing (f d.thing) ≡ true) };

    ghost still_within = { λ _ _ _ _ later same d w. (later d.term w.0, later d.thing w.1, ap closed_thing (same d.thing w.1) ∙ w.2) };

    ghost still_drawn = { λ _ _ _ same d w. ap₂ (put_tree 0) (same d.thing w.1) (same d.term w.0) };

    fn size(&self, terms: &Terms) -> u32 {
        terms.size_after(self.term, 0, terms.size(self.thing))
    }

    // A closed thing has no `forall`.
    fn nesting(&self, terms: &Terms) -> u32 {
        terms.foralls(self.term)
    }

    fn keep(self, terms: &mut Terms) -> Result<u32, Full> {
        terms.instance(self.term, self.thing)
    }
}

// A head over no operand.
#[derive(Clone, Copy)]
pub(crate) struct Zero(pub Leaf);

impl Draft for Zero {
    ghost drawn = { λ _ d. leaf (leaf_head d.0) };

    ghost within = { λ _ _ d. (open_indices (leaf (leaf_head d.0)) < 2 ^ 32) × (open_hypotheses (leaf (leaf_head d.0)) < 2 ^ 32) };

    ghost still_within = { λ _ _ _ _ _ _ _ w. w };

    ghost still_drawn = { λ _ _ _ _ _ _. refl };

    fn size(&self, _: &Terms) -> u32 {
        1
    }

    fn nesting(&self, _: &Terms) -> u32 {
        0
    }

    fn keep(self, terms: &mut Terms) -> Result<u32, Full> {
        terms.leaf(self.0)
    }
}

// A head over one.
#[derive(Clone, Copy)]
pub(crate) struct One<D>(pub Unary, pub D);

impl<D: Draft> Draft for One<D> {
    ghost drawn = { λ f d. unary (unary_head d.0) (D.drawn f d.1) };

    ghost within = { λ n f d. D.within n f d.1 };

    ghost still_within = { λ m n f g later same d w. D.still_within m n f g later same d.1 w };

    ghost still_drawn = { λ n f g same d w. ap (unary (unary_head d.0)) (D.still_drawn n f g same d.1 w) };

    fn size(&self, terms: &Terms) -> u32 {
        self.1.size(terms).saturating_add(1)
    }

    fn nesting(&self, terms: &Terms) -> u32 {
        let nesting = self.1.nesting(terms);
        match self.0 {
            Unary::Forall => nesting.saturating_add(1),
            _ => nesting,
        }
    }

    fn keep(self, terms: &mut Terms) -> Result<u32, Full> {
        let operand = self.1.keep(terms)?;
        terms.unary(self.0, operand)
    }
}

// A head over two.
#[derive(Clone, Copy)]
pub(crate) struct Two<L, R>(pub Binary, pub L, pub R);

impl<L: Draft, R: Draft> Draft for Two<L, R> {
    ghost drawn = { λ f d. binary (binary_head d.0) (L.drawn f d.1) (R.drawn f d.2) };

    ghost within = { λ n f d. (L.within n f d.1) × (R.within n f d.2) };

    ghost still_within = { λ m n f g later same d w. (L.still_within m n f g later same d.1 w.0, R.still_within m n f g later same d.2 w.1) };

    ghost still_drawn = { λ n f g same d w. ap₂ (binary (binary_head d.0)) (L.still_drawn n f g same d.1 w.0) (R.still_drawn n f g same d.2 w.1) };

    fn size(&self, terms: &Terms) -> u32 {
        let left = self.1.size(terms);
        let right = self.2.size(terms);
        left.saturating_add(right).saturating_add(1)
    }

    fn nesting(&self, terms: &Terms) -> u32 {
        self.1.nesting(terms).max(self.2.nesting(terms))
    }

    fn keep(self, terms: &mut Terms) -> Result<u32, Full> {
        let left = self.1.keep(terms)?;
        let right = self.2.keep(terms)?;
        terms.binary(self.0, left, right)
    }
}

// Keeps a draft that is not too large: refused where there is no room for it.
pub(crate) fn keep_small<D: Draft>(terms: &mut Terms, draft: D) -> Result<u32, Reason>
    requires operands { D.within (count terms.old) (tree terms.old) draft }
    requires small { size (D.drawn (tree terms.old) draft) ≤ largest }
    ensures { Stated terms.old terms.new (D.drawn (tree terms.old) draft) result }
{
    Ok(draft.keep(terms)?)
}

// Keeps a draft of this size, as the fact that states it has counted it: refused where it is too large, and where there is no room for it.
pub(crate) fn state<D: Draft>(terms: &mut Terms, draft: D, counted: u32) -> Result<u32, Reason>
    requires operands { D.within (count terms.old) (tree terms.old) draft }
    requires counted { counted ≡ min (size (D.drawn (tree terms.old) draft)) (2 ^ 32 - 1) }
    ensures { Stated terms.old terms.new (D.drawn (tree terms.old) draft) result }
{
    if counted > LARGEST {
        return Err(Reason::Oversized);
    }
    keep_small(terms, draft)
}
