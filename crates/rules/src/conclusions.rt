// What a proof concludes, sub-proof by sub-proof.
ghost use Rattle.std.specs.Prelude.{◌≡◌, ℕ, ◌+◌, ◌^◌, ◌<◌, ◌≤◌};
ghost use Rattle.logic.specs.Tree.{Tree, size, same_tree};
ghost use Rattle.rules.specs.Hypotheses.{IndexBelow};
ghost use Rattle.rules.specs.Stack.{named};
ghost use Rattle.terms.specs.Outcome.{count, most, tree, trees, Did};
ghost use Rattle.terms.specs.Heads.{connective, one_premise, two_premises};
ghost use Rattle.terms.specs.Meaning.{largest};
ghost use Rattle.rules.specs.Forms.{form, is_falsity, closed_thing, connective_form, inner, from_one, from_two, absurdity, instantiated, replaced, small};
ghost use Rattle.rules.specs.Building.{built, shaped, Below, Buildable, chosen, Choosable};
ghost use Rattle.rules.specs.Walk.{settled, Answers};

use crate::draft::{Draft, IMPLIES, Kept, One, Put, Two, Zero};
use crate::refusal::{Reason, Refused};
use table::Full;
use terms::Terms;
use terms::records::{Binary, Class, Connective, Leaf, OnePremise, Record, TwoPremises, Unary};

// The shape of a formula, as far as a rule looks at it; a denial is an implication of falsity.
#[derive(Clone, Copy)]
pub enum Shape {
    Falsity,
    Implies(u32, u32),
    Denial(u32, u32),
    And(u32, u32),
    Or(u32, u32),
    Neg(u32),
    Eq(u32, u32),
    Forall(u32),
    Other,
}

// What a rule concludes, by what is to be kept: a term that is there, a head over such terms, or a term with things put for index 0.
#[derive(Clone, Copy)]
pub enum Conclusion {
    Stands(u32),
    Falsity,
    Negation(u32),
    Doubled(u32),
    Implication(u32, u32),
    Exclusion(u32, u32),
    Equation(u32, u32),
    Instance(u32, u32),
    Replacement(u32, u32, u32),
}

// What a sub-proof concludes, and the position after its own.
#[derive(Clone, Copy)]
pub struct Concluded {
    pub formula: u32,
    pub next: u32,
}

// A formula that is there, as a conclusion.
pub fn standing(index: Option<u32>) -> Option<Conclusion>
    ensures is { (f : ℕ → Tree) → chosen f result ≡ named f index }
    ensures below { (f : ℕ → Tree) (n : ℕ) → IndexBelow n index → Choosable n f result }
{
    index.map(Conclusion::Stands)
}

// That an index is of the table is asked at each call here: no type of a number says so of a table that grows.

fn is_falsity(terms: &Terms, i: u32) -> bool
    requires within { i < count terms.now }
    ensures { result ≡ is_falsity (tree terms.now i) }
{
    matches!(terms.record(i), Record::Leaf(Leaf::False))
}

// Whether two terms are the same: each is kept once. Not `==` at each place, since the contract says why indices may be compared.
pub(crate) fn same(terms: &Terms, i: u32, j: u32) -> bool
    requires left { i < count terms.now }
    requires right { j < count terms.now }
    ensures { result ≡ same_tree (tree terms.now i) (tree terms.now j) }
{
    i == j
}

fn closed_thing(terms: &Terms, i: u32) -> bool
    requires within { i < count terms.now }
    ensures { result ≡ closed_thing (tree terms.now i) }
{
    terms.class(i) == Class::Thing && terms.indices(i) == 0 && terms.foralls(i) == 0
}

// The shape of the formula at an index.
fn shape_of(terms: &Terms, i: u32) -> Shape
    requires within { i < count terms.now }
    ensures is { shaped (tree terms.now) result ≡ form (tree terms.now i) }
    ensures below { Below (count terms.now) result }
{
    match terms.record(i) {
        Record::Leaf(Leaf::False) => Shape::Falsity,
        Record::Unary(Unary::Neg, a) => Shape::Neg(a),
        Record::Unary(Unary::Forall, a) => Shape::Forall(a),
        Record::Binary(Binary::Eq, a, b) => Shape::Eq(a, b),
        Record::Binary(Binary::Connect(c), a, b) => connected(terms, c, a, b),
        _ => Shape::Other,
    }
}

fn connected(terms: &Terms, c: Connective, a: u32, b: u32) -> Shape
    requires left { a < count terms.now }
    requires right { b < count terms.now }
    ensures is { shaped (tree terms.now) result ≡ connective_form (connective c) (tree terms.now a) (tree terms.now b) }
    ensures below { Below (count terms.now) result }
{
    match c {
        Connective::Implication => {
            if is_falsity(terms, b) {
                Shape::Denial(a, b)
            } else {
                Shape::Implies(a, b)
            }
        }
        Connective::Conjunction => Shape::And(a, b),
        Connective::Disjunction => Shape::Or(a, b),
    }
}

// The shape of what is denied.
fn inner_of(terms: &Terms, outer: Shape) -> Shape
    requires below { Below (count terms.now) outer }
    ensures is { shaped (tree terms.now) result ≡ inner (shaped (tree terms.now) outer) }
    ensures below { Below (count terms.now) result }
{
    match outer {
        Shape::Denial(a, _) => shape_of(terms, a),
        _ => Shape::Other,
    }
}

// What a rule concludes from the premise x, if it fits.
pub fn from_one(terms: &Terms, rule: OnePremise, x: u32) -> Option<Conclusion>
    requires within { x < count terms.now }
    ensures is { chosen (tree terms.now) result ≡ from_one (one_premise rule) (tree terms.now x) }
    ensures choosable { Choosable (count terms.now) (tree terms.now) result }
{
    let outer = shape_of(terms, x);
    match (rule, outer, inner_of(terms, outer)) {
        (OnePremise::Nnpp, _, Shape::Denial(a, _)) => Some(Conclusion::Stands(a)),
        (OnePremise::Eqsymm, Shape::Eq(t, u), _) => Some(Conclusion::Equation(u, t)),
        (OnePremise::And1, Shape::And(a, _), _) => Some(Conclusion::Stands(a)),
        (OnePremise::And2, Shape::And(_, b), _) => Some(Conclusion::Stands(b)),
        (OnePremise::Orimp, Shape::Or(a, b), _) => Some(Conclusion::Exclusion(a, b)),
        (OnePremise::Addneg, _, _) => Some(Conclusion::Doubled(x)),
        (OnePremise::Intro, Shape::Denial(a, _), _) => Some(Conclusion::Negation(a)),
        (OnePremise::Elimnot, _, Shape::Neg(a)) => Some(Conclusion::Stands(a)),
        _ => None,
    }
}

// What a rule concludes from the premises x and y, if they fit.
pub fn from_two(terms: &Terms, rule: TwoPremises, x: u32, y: u32) -> Option<Conclusion>
    requires left { x < count terms.now }
    requires right { y < count terms.now }
    ensures is { chosen (tree terms.now) result ≡ from_two (two_premises rule) (tree terms.now x) (tree terms.now y) }
    ensures choosable { Choosable (count terms.now) (tree terms.now) result }
{
    match (rule, shape_of(terms, x), shape_of(terms, y)) {
        (TwoPremises::Mp, Shape::Implies(a, b) | Shape::Denial(a, b), _) if same(terms, a, y) => {
            Some(Conclusion::Stands(b))
        }
        (TwoPremises::Eqtrans, Shape::Eq(t, u), Shape::Eq(v, w)) if same(terms, u, v) => Some(
            Conclusion::Equation(t, w),
        ),
        (TwoPremises::Negelim, Shape::Neg(a), _) if same(terms, a, y) => Some(Conclusion::Falsity),
        _ => None,
    }
}

// Any formula follows from falsity.
pub fn from_falsity(terms: &Terms, x: u32, formula: u32) -> Option<Conclusion>
    requires premise { x < count terms.now }
    requires formula { formula < count terms.now }
    ensures is { chosen (tree terms.now) result ≡ absurdity (form (tree terms.now x)) (tree terms.now formula) }
    ensures choosable { Choosable (count terms.now) (tree terms.now) result }
{
    match shape_of(terms, x) {
        Shape::Falsity => Some(Conclusion::Stands(formula)),
        _ => None,
    }
}

// The instance at a closed thing, from a `forall`.
pub fn from_all(terms: &Terms, x: u32, thing: u32) -> Option<Conclusion>
    requires premise { x < count terms.now }
    requires thing { thing < count terms.now }
    ensures is { chosen (tree terms.now) result ≡ instantiated (form (tree terms.now x)) (tree terms.now thing) }
    ensures choosable { Choosable (count terms.now) (tree terms.now) result }
{
    match shape_of(terms, x) {
        Shape::Forall(a) if closed_thing(terms, thing) => Some(Conclusion::Instance(a, thing)),
        _ => None,
    }
}

// From an equation of closed things: a formula at the one implies the formula at the other.
pub fn from_equation(terms: &Terms, x: u32, formula: u32) -> Option<Conclusion>
    requires premise { x < count terms.now }
    requires formula { formula < count terms.now }
    ensures is { chosen (tree terms.now) result ≡ replaced (form (tree terms.now x)) (tree terms.now formula) }
    ensures choosable { Choosable (count terms.now) (tree terms.now) result }
{
    match shape_of(terms, x) {
        Shape::Eq(t, u) if closed_thing(terms, t) && closed_thing(terms, u) => Some(
            Conclusion::Replacement(formula, t, u),
        ),
        _ => None,
    }
}

// Calls a method of the draft of a conclusion. A macro, since each variant's draft has a type of its own, and a closure takes one type.
macro_rules! by_draft {
    ($conclusion:expr, $method:ident, $terms:expr) => {
        match $conclusion {
            Conclusion::Stands(a) => Kept(a).$method($terms),
            Conclusion::Falsity => Zero(Leaf::False).$method($terms),
            Conclusion::Negation(a) => One(Unary::Neg, Kept(a)).$method($terms),
            Conclusion::Doubled(a) => One(Unary::Neg, One(Unary::Neg, Kept(a))).$method($terms),
            Conclusion::Implication(a, b) => Two(IMPLIES, Kept(a), Kept(b)).$method($terms),
            Conclusion::Exclusion(a, b) => {
                Two(IMPLIES, One(Unary::Neg, Kept(a)), Kept(b)).$method($terms)
            }
            Conclusion::Equation(a, b) => Two(Binary::Eq, Kept(a), Kept(b)).$method($terms),
            Conclusion::Instance(term, thing) => Put { term, thing }.$method($terms),
            Conclusion::Replacement(term, t, u) => {
                Two(IMPLIES, Put { term, thing: t }, Put { term, thing: u }).$method($terms)
            }
        }
    };
}

// Whether a conclusion is within the limits.
pub fn within_limits(terms: &Terms, conclusion: Conclusion) -> bool
    requires buildable { Buildable (count terms.now) (tree terms.now) conclusion }
    ensures { result ≡ small (built (tree terms.now) conclusion) }
{
    by_draft!(conclusion, fits, terms)
}

// Keeps a conclusion.
pub fn build(terms: &mut Terms, conclusion: Conclusion) -> Result<u32, Full>
    requires buildable { Buildable (count terms.old) (tree terms.old) conclusion }
    requires small { size (built (tree terms.old) conclusion) ≤ largest }
    ensures { Did terms.old terms.new (built (tree terms.old) conclusion) result }
{
    by_draft!(conclusion, keep, terms)
}

// Keeps what the sub-proof at a position concludes: refused if it does not fit, is over a limit, or has no space.
pub fn settle(terms: &mut Terms, decided: Option<Conclusion>, at: u32) -> Result<Concluded, Refused>
    requires choosable { Choosable (count terms.old) (tree terms.old) decided }
    requires fits { at + 1 < 2 ^ 32 }
    ensures { Answers terms.old terms.new (settled (most terms.old) at (trees terms.old) (chosen (tree terms.old) decided)) result }
{
    let conclusion = decided.ok_or(Reason::Unfounded.at(at))?;
    if !within_limits(terms, conclusion) {
        return Err(Reason::Oversized.at(at));
    }
    let formula = build(terms, conclusion).map_err(|full| Reason::from(full).at(at))?;
    Ok(Concluded {
        formula,
        next: at + 1,
    })
}
