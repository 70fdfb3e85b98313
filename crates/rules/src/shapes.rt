// What a fact reads off its operands.
ghost use Rattle.std.specs.Prelude.{◌≡◌, ◌<◌};
ghost use Rattle.terms.specs.Outcome.{count, tree};
ghost use Rattle.rules.specs.Shapes.{literal, literals, bounded, sum_within, seen, SeenBelow, total, compared, is_minus, added, added_seen, AddedBelow};

use crate::conclusions::same;
use crate::refusal::Reason;
use arithmetic::Arithmetic;
use terms::Terms;
use terms::records::{Binary, Leaf, Record, Unary};

// first + second ≤ limit
#[derive(Clone, Copy)]
pub struct Bound {
    pub first: u32,
    pub second: u32,
    pub limit: i64,
}

// That an index is of the table is asked at each call here: no type of a number says so of a table that grows.

// The number, if the term is a literal.
pub(crate) fn literal(terms: &Terms, a: u32) -> Option<i64>
    requires within { a < count terms.now }
    ensures { result ≡ literal (tree terms.now a) }
{
    match terms.record(a) {
        Record::Leaf(Leaf::Lit(n)) => Some(n),
        _ => None,
    }
}

// The sum that a term is, if it is one, bounded by a literal.
fn sum_within(terms: &Terms, sum: u32, most: u32) -> Option<Bound>
    requires left { sum < count terms.now }
    requires right { most < count terms.now }
    ensures is { seen (tree terms.now) result ≡ sum_within (tree terms.now sum) (literal (tree terms.now most)) }
    ensures below { SeenBelow (count terms.now) result }
{
    match terms.record(sum) {
        Record::Binary(Binary::Add, first, second) => {
            let limit = literal(terms, most)?;
            Some(Bound {
                first,
                second,
                limit,
            })
        }
        _ => None,
    }
}

// The bound that a formula is, if it is one.
pub(crate) fn bound_of(terms: &Terms, formula: u32) -> Option<Bound>
    requires within { formula < count terms.now }
    ensures is { seen (tree terms.now) result ≡ bounded (tree terms.now formula) }
    ensures below { SeenBelow (count terms.now) result }
{
    match terms.record(formula) {
        Record::Binary(Binary::Leq, sum, most) => sum_within(terms, sum, most),
        _ => None,
    }
}

// The numbers, if both terms are literals.
fn literals(terms: &Terms, a: u32, b: u32) -> Result<(i64, i64), Reason>
    requires left { a < count terms.now }
    requires right { b < count terms.now }
    ensures { result ≡ literals (literal (tree terms.now a)) (literal (tree terms.now b)) }
{
    let m = literal(terms, a).ok_or(Reason::Unfounded)?;
    let n = literal(terms, b).ok_or(Reason::Unfounded)?;
    Ok((m, n))
}

// The sum of two literals, or why there is none.
pub(crate) fn total<A: Arithmetic>(terms: &Terms, a: u32, b: u32) -> Result<i64, Reason>
    requires left { a < count terms.now }
    requires right { b < count terms.now }
    ensures { result ≡ total A.meaning (literal (tree terms.now a)) (literal (tree terms.now b)) }
{
    let (m, n) = literals(terms, a, b)?;
    A::sum(m, n).ok_or(Reason::Unadmitted)
}

// Whether one literal is at most another.
pub(crate) fn compared<A: Arithmetic>(terms: &Terms, a: u32, b: u32) -> Result<bool, Reason>
    requires left { a < count terms.now }
    requires right { b < count terms.now }
    ensures { result ≡ compared A.meaning (literal (tree terms.now a)) (literal (tree terms.now b)) }
{
    let (m, n) = literals(terms, a, b)?;
    Ok(A::at_most(m, n))
}

// Whether a term is minus another.
fn is_minus(terms: &Terms, i: u32, a: u32) -> bool
    requires left { i < count terms.now }
    requires right { a < count terms.now }
    ensures { result ≡ is_minus (tree terms.now i) (tree terms.now a) }
{
    matches!(terms.record(i), Record::Unary(Unary::Minus, t) if same(terms, t, a))
}

// b + c ≤ m + n, from a + b ≤ m and -a + c ≤ n, where sums are carried.
pub(crate) fn added<A: Arithmetic>(terms: &Terms, premise: u32, other: u32) -> Result<Bound, Reason>
    requires premise { premise < count terms.now }
    requires other { other < count terms.now }
    ensures is { added_seen (tree terms.now) result ≡ added A.meaning (bounded (tree terms.now premise)) (bounded (tree terms.now other)) }
    ensures below { AddedBelow (count terms.now) result }
{
    if !A::carries_sums() {
        return Err(Reason::Uncarried);
    }
    let x = bound_of(terms, premise).ok_or(Reason::Unfounded)?;
    let y = bound_of(terms, other).ok_or(Reason::Unfounded)?;
    if !is_minus(terms, y.first, x.first) {
        return Err(Reason::Unfounded);
    }
    let limit = A::sum(x.limit, y.limit).ok_or(Reason::Unadmitted)?;
    Ok(Bound {
        first: x.second,
        second: y.second,
        limit,
    })
}
