// The theorems of the load check's logic: each function's contract is one of them.
#![tactic(auto)]

ghost use Rattle.std.specs.Prelude.{◌≡◌};
ghost use Rattle.logic.specs.Examples.{ExamplesComeOut};
ghost use Rattle.logic.specs.Mistakes.{BoundsOverCountsDoNotAdd, UnraisedSubstitutionIsWrong, SharedSkolemSymbolIsWrong};
ghost use Rattle.logic.specs.Shown.{shown_examples};
ghost use Rattle.logic.specs.Theorems.{SubstitutionCommutesWithTruth, ConclusionsHold, FactsHold, PlansHoldAfterRereading, RefutedHoldsNowhere, FunctionsAreTheRules, ProofsFitWhereEachPartFits, ClosednessIsKept, ArithmeticsAreLawful, TreesStandForTerms};

// φ[t] is true where φ is true of the value of t.
#[tactic(auto, using(crate::proofs::Theorems::that_substitution_commutes_with_truth))]
pub fn substitution_commutes_with_truth()
    ensures { SubstitutionCommutesWithTruth }
{}

// What a proof concludes holds in each world where its hypotheses and the known formulas hold.
#[tactic(auto, using(crate::proofs::Theorems::that_conclusions_hold))]
pub fn conclusions_hold()
    ensures { ConclusionsHold }
{}

// What a fact states holds in each world over a lawful arithmetic.
#[tactic(auto, using(crate::proofs::Theorems::that_facts_hold))]
pub fn facts_hold()
    ensures { FactsHold }
{}

// Where a formula holds, what a plan with fresh symbols turns it into holds after a re-reading of just those symbols.
pub fn plans_hold_after_rereading()
    ensures { PlansHoldAfterRereading }
{}

// What has a refutation holds in no finite world.
pub fn refuted_holds_nowhere()
    ensures { RefutedHoldsNowhere }
{}

// The functions for proofs, plans and facts compute what the rules relate.
#[tactic(auto, using(crate::proofs::Theorems::that_functions_are_the_rules))]
pub fn functions_are_the_rules()
    ensures { FunctionsAreTheRules }
{}

// A proof concludes something exactly if each of its sub-proofs does.
#[tactic(auto, using(crate::proofs::Theorems::that_proofs_fit_where_each_part_fits))]
pub fn proofs_fit_where_each_part_fits()
    ensures { ProofsFitWhereEachPartFits }
{}

// Closed proofs and plans keep formulas closed, and a closed formula needs no environment.
#[tactic(auto, using(crate::proofs::Theorems::that_closedness_is_kept))]
pub fn closedness_is_kept()
    ensures { ClosednessIsKept }
{}

// Whole numbers and counts meet the laws of an arithmetic.
#[tactic(auto, using(crate::proofs::Theorems::that_arithmetics_are_lawful))]
pub fn arithmetics_are_lawful()
    ensures { ArithmeticsAreLawful }
{}

// A term is determined by its tree, and substitution is the same on both.
#[tactic(auto, using(crate::proofs::Theorems::that_trees_stand_for_terms))]
pub fn trees_stand_for_terms()
    ensures { TreesStandForTerms }
{}

// The worked examples come out as they are written.
#[tactic(auto, using(crate::proofs::Examples::that_examples_come_out))]
pub fn examples_come_out()
    ensures { ExamplesComeOut }
{}

// Adding bounds over counts is wrong.
#[tactic(auto, using(crate::proofs::Mistakes::that_bounds_over_counts_do_not_add))]
pub fn bounds_over_counts_do_not_add()
    ensures { BoundsOverCountsDoNotAdd }
{}

// Not raising the inserted thing under an inner binder is wrong.
#[tactic(auto, using(crate::proofs::Mistakes::that_unraised_substitution_is_wrong))]
pub fn unraised_substitution_is_wrong()
    ensures { UnraisedSubstitutionIsWrong }
{}

// Counting a shared Skolem symbol once is wrong.
#[tactic(auto, using(crate::proofs::Mistakes::that_shared_Skolem_symbol_is_wrong))]
pub fn shared_skolem_symbol_is_wrong()
    ensures { SharedSkolemSymbolIsWrong }
{}

// The worked examples as text, a line for each: what is asked, and what the rules answer.
pub fn worked_examples() -> &'static str
    ensures { result.now ≡ shown_examples }
{
    "\
with and(p, neg(p)) known, negelim(and2(known), and1(known)) concludes false\n\
with and(p, neg(p)) known, negelim(and1(known), and2(known)) does not fit at sub-proof 5\n\
skip(skol(f, id)) turns forall(neg(forall(q(v1, v0)))) into forall(neg(q(v0, f(v0))))\n\
skip(skip(skol(g, id))) turns forall(forall(neg(forall(r(v2, v1, v0))))) into forall(forall(neg(r(v1, v0, g(v0, v1)))))\n\
skip(skol(f, recnn(id))) turns forall(neg(forall(neg(forall(r(v2, v1, v0)))))) into forall(forall(r(v1, f(v1), v0)))\n\
with forall(forall(q(v1, v0))) known, inst(d, known) concludes forall(q(d, v0))\n\
counts: sum(65535, 1) states eq(add(65535, 1), 0)\n\
whole numbers: sum(65535, 1) states eq(add(65535, 1), 65536)\n\
counts: 65536 is no literal\n\
counts: -1 is no literal\n\
whole numbers: pair(leq(add(x, y), 5), leq(add(minus(x), z), 7)) states implies(leq(add(x, y), 5), implies(leq(add(minus(x), z), 7), leq(add(y, z), 12)))\n\
counts: pair(leq(add(x, y), 5), leq(add(minus(x), z), 7)) states nothing, since sums are not carried\n\
recand(skol(f, id), skol(f, id)) has a Skolem symbol twice\n\
    "
}
