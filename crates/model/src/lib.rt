// The theorems of the session: each function's contract is one of them.
#![tactic(auto)]

ghost use Rattle.model.specs.Examples.{ExamplesComeOut, ExampleStands};
ghost use Rattle.model.specs.Standing.{SessionsStand};
ghost use Rattle.model.specs.Theorems.{KnownFormulasHold, InitialFormulasHoldAfterRereading, RefutedQueriesHoldNowhere, RunsAreFolds, AcceptedQueriesHoldNowhere, LetAndInitialAreExact, RefusalsArePlain, SessionsAreTidy};
ghost use Rattle.model.specs.Writer.{RefutationsCanBeWrittenOut};
ghost use Rattle.model.specs.Written.{RefutationsAreAccepted};

// Whatever commands a fresh session was given, every known formula holds in each finite world where the initial formula holds.
#[tactic(auto, using(crate::proofs::Soundness::that_known_formulas_hold))]
pub fn known_formulas_hold()
    ensures { KnownFormulasHold }
{}

// Once `initial` is accepted, each finite world of the query can be re-read at the plan's Skolem symbols so that the initial formula holds.
#[tactic(auto, using(crate::proofs::Soundness::that_initial_formulas_hold_after_rereading))]
pub fn initial_formulas_hold_after_rereading()
    ensures { InitialFormulasHoldAfterRereading }
{}

// Once a `final` is accepted, the query holds in no finite world.
#[tactic(auto, using(crate::proofs::Soundness::that_refuted_queries_hold_nowhere))]
pub fn refuted_queries_hold_nowhere()
    ensures { RefutedQueriesHoldNowhere }
{}

// A run's state is that of the commands that it took, one after the other, and it accepts only with a session that a `final` closed.
#[tactic(auto, using(crate::proofs::Runs::that_runs_are_folds))]
pub fn runs_are_folds()
    ensures { RunsAreFolds }
{}

// What a run accepts holds in no finite world.
#[tactic(auto, using(crate::proofs::Runs::that_accepted_queries_hold_nowhere))]
pub fn accepted_queries_hold_nowhere()
    ensures { AcceptedQueriesHoldNowhere }
{}

// Every refutation written out that fits is accepted at the line of `final`.
#[tactic(auto, using(crate::proofs::Accepting::that_refutations_are_accepted))]
pub fn refutations_are_accepted()
    ensures { RefutationsAreAccepted }
{}

// Every refutation given as trees is written out by the writer, each distinct term once, and is accepted if that fits.
pub fn refutations_can_be_written_out()
    ensures { RefutationsCanBeWrittenOut }
{}

// `let` and `initial` make known exactly what the rules give, and are refused for their rule exactly where the rules give nothing.
pub fn let_and_initial_are_exact()
    ensures { LetAndInitialAreExact }
{}

// Refused commands change nothing, and name a position only where one is to be named.
#[tactic(auto, using(crate::proofs::Refusing::that_refusals_are_plain))]
pub fn refusals_are_plain()
    ensures { RefusalsArePlain }
{}

// The terms kept stand once each, operands before heads, with all their parts.
pub fn sessions_are_tidy()
    ensures { SessionsAreTidy }
{}

// The terms that a session's results hold are typed, proper and within the limits, and what it knows and its query are closed.
#[tactic(auto, using(crate::proofs::Standing::standing_after))]
pub fn sessions_stand()
    ensures { SessionsStand }
{}

// The worked examples, of the rules and of sessions, come out as they are written.
#[tactic(auto, using(crate::proofs::Examples::that_examples_come_out))]
pub fn examples_come_out()
    ensures { ExamplesComeOut }
{}

// The accepted example is a refutation written out, fits, and is what the writer makes of its trees.
#[tactic(auto, using(crate::proofs::Examples::that_example_stands))]
pub fn accepted_example_is_a_refutation()
    ensures { ExampleStands }
{}
