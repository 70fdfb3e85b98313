// The walk over a proof: every sub-proof concludes in order, operands before heads, left to right, written out.
ghost use Rattle.std.specs.Prelude.{◌≡◌, ◌+◌, ◌^◌, ◌<◌, ◌≤◌, length, IfOk};
ghost use Rattle.logic.specs.Tree.{size, assumptions};
ghost use Rattle.terms.specs.Outcome.{count, most, tree, trees};
ghost use Rattle.rules.specs.Hypotheses.{made_at, Handed, StackKept};
ghost use Rattle.rules.specs.Stack.{stacked};
ghost use Rattle.rules.specs.Walk.{walk, Answers};

use crate::conclusions::{
    Concluded, Conclusion, from_all, from_equation, from_falsity, from_one, from_two, settle,
    standing,
};
use crate::hypotheses::{Depth, Guard, hypothesis, made};
use crate::refusal::{Reason, Refused};
use terms::Terms;
use terms::records::{Binary, Leaf, Record, Unary};

// What the proof at an index concludes, its first sub-proof at the position.
pub fn conclude(
    terms: &mut Terms,
    known: &[Option<u32>],
    cells: &mut [u32],
    depth: &mut Depth,
    proof: u32,
    at: u32,
) -> Result<Concluded, Refused>
    requires within { proof < count terms.old }
    requires handed { Handed (count terms.old) known.now cells.old depth.old.height }
    requires deep { depth.old.height + assumptions (tree terms.old proof) ≤ length cells.old }
    requires fits { at + size (tree terms.old proof) < 2 ^ 32 }
    ensures answers { Answers terms.old terms.new (walk (most terms.old) (made_at (tree terms.old) known.now) (stacked (tree terms.old) cells.old depth.old.height) (tree terms.old proof) at (trees terms.old)) result }
    ensures next { IfOk result (λ f. f.next ≤ at + size (tree terms.old proof)) }
    ensures height { depth.new.height ≡ depth.old.height }
    ensures stack { StackKept cells.old cells.new depth.old.height }
{
    match terms.record(proof) {
        Record::Leaf(Leaf::Hyp(i)) => {
            let decided = standing(hypothesis(&cells[..depth.height], i));
            settle(terms, decided, at)
        }
        Record::Leaf(Leaf::Known(k)) => settle(terms, standing(made(known, k)), at),
        Record::Unary(Unary::Eqrefl, t) => settle(terms, Some(Conclusion::Equation(t, t)), at),
        Record::Unary(Unary::From(rule), p) => {
            let x = conclude(terms, known, cells, depth, p, at)?;
            let decided = from_one(terms, rule, x.formula);
            settle(terms, decided, x.next)
        }
        Record::Binary(Binary::Assume, formula, p) => {
            let height = depth.height;
            let guard = Guard(depth, height);
            cells[height] = formula;
            guard.0.height = height + 1;
            let x = conclude(terms, known, cells, &mut *guard.0, p, at)?;
            settle(
                terms,
                Some(Conclusion::Implication(formula, x.formula)),
                x.next,
            )
        }
        Record::Binary(Binary::Absurd, p, formula) => {
            let x = conclude(terms, known, cells, depth, p, at)?;
            let decided = from_falsity(terms, x.formula, formula);
            settle(terms, decided, x.next)
        }
        Record::Binary(Binary::Eqsub, p, formula) => {
            let x = conclude(terms, known, cells, depth, p, at)?;
            let decided = from_equation(terms, x.formula, formula);
            settle(terms, decided, x.next)
        }
        Record::Binary(Binary::Inst, thing, p) => {
            let x = conclude(terms, known, cells, depth, p, at)?;
            let decided = from_all(terms, x.formula, thing);
            settle(terms, decided, x.next)
        }
        Record::Binary(Binary::FromBoth(rule), p, q) => {
            let x = conclude(terms, known, cells, depth, p, at)?;
            let y = conclude(terms, known, cells, depth, q, x.next)?;
            let decided = from_two(terms, rule, x.formula, y.formula);
            settle(terms, decided, y.next)
        }
        Record::Leaf(Leaf::Var(_) | Leaf::Nil | Leaf::Lit(_) | Leaf::False | Leaf::Id)
        | Record::Unary(
            Unary::Application(_, _) | Unary::Minus | Unary::Neg | Unary::Forall | Unary::Step(_),
            _,
        )
        | Record::Binary(
            Binary::Cons
            | Binary::Add
            | Binary::Connect(_)
            | Binary::Eq
            | Binary::Leq
            | Binary::Fork(_),
            _,
            _,
        ) => Err(Reason::Unfounded.at(at)),
    }
}
