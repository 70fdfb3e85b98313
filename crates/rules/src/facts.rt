// What facts state of terms that are kept, in any arithmetic.
ghost use Rattle.std.specs.Prelude.{◌≡◌, ◌<◌, true};
ghost use Rattle.logic.specs.Arithmetic.{Arithmetic as Meaning};
ghost use Rattle.logic.specs.Facts.{sum, atmost, cancel, swap, eqleq, leqtrans, pair};
ghost use Rattle.logic.specs.Syntax.{Number, Formula};
ghost use Rattle.logic.specs.Tree.{number_tree, formula_tree, literals_pass};
ghost use Rattle.terms.specs.Outcome.{count, tree};
ghost use Rattle.rules.specs.Answering.{Answered};

use crate::draft::{Draft, IMPLIES, Kept, One, Two, Zero, keep_small, state};
use crate::refusal::Reason;
use crate::shapes::{added, compared, total};
use arithmetic::Arithmetic;
use terms::Terms;
use terms::records::{Binary, Leaf, Unary};

// That an index is of the table is asked at each call here: no type of a number says so of a table that grows.

// a + -a = 0
pub fn cancel(terms: &mut Terms, a: u32) -> Result<u32, Reason>
    requires within { a < count terms.old }
    ensures { (M : Meaning) (x : Number) → tree terms.old a ≡ number_tree x → Answered M terms.old terms.new (cancel x) result }
{
    let minus = One(Unary::Minus, Kept(a));
    let sum = Two(Binary::Add, Kept(a), minus);
    let cancelled = Two(Binary::Eq, sum, Zero(Leaf::Lit(0)));
    let counted = cancelled.size(terms);
    state(terms, cancelled, counted)
}

// a + b = b + a
pub fn swap(terms: &mut Terms, a: u32, b: u32) -> Result<u32, Reason>
    requires left { a < count terms.old }
    requires right { b < count terms.old }
    ensures { (M : Meaning) (x y : Number) → tree terms.old a ≡ number_tree x → tree terms.old b ≡ number_tree y → Answered M terms.old terms.new (swap x y) result }
{
    let sum = Two(Binary::Add, Kept(a), Kept(b));
    let swapped = Two(Binary::Add, Kept(b), Kept(a));
    let equation = Two(Binary::Eq, sum, swapped);
    let counted = equation.size(terms);
    state(terms, equation, counted)
}

// a = b → a ≤ b
pub fn eqleq(terms: &mut Terms, a: u32, b: u32) -> Result<u32, Reason>
    requires left { a < count terms.old }
    requires right { b < count terms.old }
    ensures { (M : Meaning) (x y : Number) → tree terms.old a ≡ number_tree x → tree terms.old b ≡ number_tree y → Answered M terms.old terms.new (eqleq x y) result }
{
    let equal = Two(Binary::Eq, Kept(a), Kept(b));
    let at_most = Two(Binary::Leq, Kept(a), Kept(b));
    let formula = Two(IMPLIES, equal, at_most);
    let counted = formula.size(terms);
    state(terms, formula, counted)
}

// a ≤ b → b ≤ c → a ≤ c
pub fn leqtrans(terms: &mut Terms, a: u32, b: u32, c: u32) -> Result<u32, Reason>
    requires first { a < count terms.old }
    requires second { b < count terms.old }
    requires third { c < count terms.old }
    ensures { (M : Meaning) (x y z : Number) → tree terms.old a ≡ number_tree x → tree terms.old b ≡ number_tree y → tree terms.old c ≡ number_tree z → Answered M terms.old terms.new (leqtrans x y z) result }
{
    let first = Two(Binary::Leq, Kept(a), Kept(b));
    let second = Two(Binary::Leq, Kept(b), Kept(c));
    let both = Two(Binary::Leq, Kept(a), Kept(c));
    let chain = Two(IMPLIES, first, Two(IMPLIES, second, both));
    let counted = chain.size(terms);
    state(terms, chain, counted)
}

// a + b = n, of literals
pub fn sum<A: Arithmetic>(terms: &mut Terms, a: u32, b: u32) -> Result<u32, Reason>
    requires left { a < count terms.old }
    requires right { b < count terms.old }
    ensures { (x y : Number) → tree terms.old a ≡ number_tree x → tree terms.old b ≡ number_tree y → literals_pass A.meaning.admits (number_tree x) ≡ true → literals_pass A.meaning.admits (number_tree y) ≡ true → Answered A.meaning terms.old terms.new (sum x y) result }
{
    let n = total::<A>(terms, a, b)?;
    let both = Two(Binary::Add, Kept(a), Kept(b));
    keep_small(terms, Two(Binary::Eq, both, Zero(Leaf::Lit(n))))
}

// a ≤ b or not a ≤ b, of literals
pub fn at_most<A: Arithmetic>(terms: &mut Terms, a: u32, b: u32) -> Result<u32, Reason>
    requires left { a < count terms.old }
    requires right { b < count terms.old }
    ensures { (x y : Number) → tree terms.old a ≡ number_tree x → tree terms.old b ≡ number_tree y → Answered A.meaning terms.old terms.new (atmost x y) result }
{
    let bound = Two(Binary::Leq, Kept(a), Kept(b));
    if compared::<A>(terms, a, b)? {
        keep_small(terms, bound)
    } else {
        keep_small(terms, One(Unary::Neg, bound))
    }
}

// a + b ≤ m → -a + c ≤ n → b + c ≤ m + n, where sums are carried
pub fn pair<A: Arithmetic>(terms: &mut Terms, premise: u32, other: u32) -> Result<u32, Reason>
    requires premise { premise < count terms.old }
    requires other { other < count terms.old }
    ensures { (φ ψ : Formula) → tree terms.old premise ≡ formula_tree φ → tree terms.old other ≡ formula_tree ψ → literals_pass A.meaning.admits (formula_tree φ) ≡ true → literals_pass A.meaning.admits (formula_tree ψ) ≡ true → Answered A.meaning terms.old terms.new (pair φ ψ) result }
{
    let sum = added::<A>(terms, premise, other)?;
    let summands = Two(Binary::Add, Kept(sum.first), Kept(sum.second));
    let bound = Two(Binary::Leq, summands, Zero(Leaf::Lit(sum.limit)));
    let rest = Two(IMPLIES, Kept(other), bound);
    let added_up = Two(IMPLIES, Kept(premise), rest);
    let counted = added_up.size(terms);
    state(terms, added_up, counted)
}
