// Substitution on small tables: what is kept, with room for exactly that, and with one record too few.
ghost use Rattle.std.specs.Prelude.{◌≡◌};
ghost use Rattle.terms.specs.Outcome.{room};

use super::*;
use crate::checked::{Unkept, instance, make, make_each};
use crate::plan_symbols::{PlanSymbol, note};
use crate::records::BLANK;

// r(v1, v0) under a `forall`, at index 7, and f(v0) at index 3.
fn relation(terms: &mut Terms) -> Result<(), Unkept>
    ensures { room terms.new ≡ room terms.old }
{
    let records = [
        Record::Leaf(Leaf::Nil),
        Record::Leaf(Leaf::Var(0)),
        Record::Binary(Binary::Cons, 1, 0),
        Record::Unary(Unary::Application(Kind::Thing, 0), 2),
        Record::Leaf(Leaf::Var(1)),
        Record::Binary(Binary::Cons, 4, 2),
        Record::Unary(Unary::Application(Kind::Predicate, 1), 5),
        Record::Unary(Unary::Forall, 6),
    ];
    make_each(terms, &records)
}

// The inserted thing is raised under the binder: f(v0) for index 0 gives forall r(f(v1), v0).
#[test]
fn a_thing_is_raised_under_a_binder(rt: HostRuntime) {
    let mut slots = [BLANK; 13];
    let mut terms = Terms::over(&mut slots);
    assert_eq!(rt; relation(&mut terms), Ok(()));
    assert_eq!(rt; instance(&mut terms, 7, 3), Ok(12));
    assert_eq!(rt; make(&mut terms, Record::Binary(Binary::Cons, 4, 0)), Ok(8));
    assert_eq!(rt;
        make(
            &mut terms,
            Record::Unary(Unary::Application(Kind::Thing, 0), 8),
        ),
        Ok(9)
    );
    assert_eq!(rt;
        make(&mut terms, Record::Binary(Binary::Cons, 9, 2)),
        Ok(10)
    );
    assert_eq!(rt;
        make(
            &mut terms,
            Record::Unary(Unary::Application(Kind::Predicate, 1), 10),
        ),
        Ok(11)
    );
    assert_eq!(rt; make(&mut terms, Record::Unary(Unary::Forall, 11)), Ok(12));
    assert_eq!(rt; terms.len(), 13);
}

#[test]
fn one_record_too_few(rt: HostRuntime) {
    let mut slots = [BLANK; 12];
    let mut terms = Terms::over(&mut slots);
    assert_eq!(rt; relation(&mut terms), Ok(()));
    let used = terms.len();
    assert_eq!(rt; instance(&mut terms, 7, 3), Err(Unkept::Full));
    assert_eq!(rt; terms.len(), 12);
    terms.truncate(used);
    assert_eq!(rt; terms.len(), 8);
}

// q(v2, v0) under a `forall`, at index 7, and the closed thing d at index 1: a closed thing is not copied, and v2 is lowered.
#[test]
fn higher_indices_are_lowered_and_lower_ones_stay(rt: HostRuntime) {
    let mut slots = [BLANK; 12];
    let mut terms = Terms::over(&mut slots);
    let records = [
        Record::Leaf(Leaf::Nil),
        Record::Unary(Unary::Application(Kind::Thing, 0), 0),
        Record::Leaf(Leaf::Var(0)),
        Record::Binary(Binary::Cons, 2, 0),
        Record::Leaf(Leaf::Var(2)),
        Record::Binary(Binary::Cons, 4, 3),
        Record::Unary(Unary::Application(Kind::Predicate, 1), 5),
        Record::Unary(Unary::Forall, 6),
    ];
    assert_eq!(rt; make_each(&mut terms, &records), Ok(()));
    assert_eq!(rt; instance(&mut terms, 7, 1), Ok(11));
    assert_eq!(rt; make(&mut terms, Record::Leaf(Leaf::Var(1))), Ok(8));
    assert_eq!(rt; make(&mut terms, Record::Binary(Binary::Cons, 8, 3)), Ok(9));
    assert_eq!(rt;
        make(
            &mut terms,
            Record::Unary(Unary::Application(Kind::Predicate, 1), 9),
        ),
        Ok(10)
    );
    assert_eq!(rt; make(&mut terms, Record::Unary(Unary::Forall, 10)), Ok(11));
}

// The measures, the class and the symbols of forall r(v1, v0).
#[test]
fn measures_are_kept_beside_records(rt: HostRuntime) {
    let mut slots = [BLANK; 8];
    let mut terms = Terms::over(&mut slots);
    assert_eq!(rt; relation(&mut terms), Ok(()));
    assert_eq!(rt; terms.len(), 8);
    assert_eq!(rt; terms.size(7), 7);
    assert_eq!(rt; terms.indices(6), 2);
    assert_eq!(rt; terms.indices(7), 1);
    assert_eq!(rt; terms.foralls(7), 1);
    assert_eq!(rt; terms.class(3), Class::Thing);
    assert_eq!(rt; terms.class(7), Class::Formula);
}

#[test]
fn sizes_and_symbols_are_written_out(rt: HostRuntime) {
    let mut slots = [BLANK; 8];
    let mut terms = Terms::over(&mut slots);
    assert_eq!(rt; relation(&mut terms), Ok(()));
    assert_eq!(rt; terms.len(), 8);
    assert_eq!(rt; terms.foralls(7), 1);
    assert_eq!(rt; terms.size_after(7, 0, 4), 10);
    assert!(rt; terms.stands(Kind::Predicate, 1, 7));
    assert!(rt; !terms.stands(Kind::Thing, 1, 7));
}

// assume false (assume false (hyp 2)): two nested, and hypothesis 2 is the first outside.
#[test]
fn hypotheses_are_counted_outwards(rt: HostRuntime) {
    let mut slots = [BLANK; 4];
    let mut terms = Terms::over(&mut slots);
    let records = [
        Record::Leaf(Leaf::False),
        Record::Leaf(Leaf::Hyp(2)),
        Record::Binary(Binary::Assume, 0, 1),
        Record::Binary(Binary::Assume, 0, 2),
    ];
    assert_eq!(rt; make_each(&mut terms, &records), Ok(()));
    assert_eq!(rt; terms.len(), 4);
    assert_eq!(rt; terms.hypotheses(3), 1);
    assert_eq!(rt; terms.assumptions(3), 2);
}

// A symbol that a plan names twice is new once; a third finds no place.
#[test]
fn plan_symbols_are_kept_once(rt: HostRuntime) {
    let mut slots = [PlanSymbol { symbol: 9 }; 2];
    let mut symbols = Table::over(&mut slots);
    assert_eq!(rt; note(&mut symbols, 9), Ok(true));
    assert_eq!(rt; note(&mut symbols, 4), Ok(true));
    assert_eq!(rt; note(&mut symbols, 9), Ok(false));
    assert_eq!(rt; note(&mut symbols, 5), Err(Full));
}
