// What holds of each table of terms: each function's contract is one theorem.
ghost use Rattle.terms.specs.Theorems.{ClassByHead, KeptOnce, MeaningsLast, RefusedForWantOfRoom};

// Each kept term stands under one index, and with it all its parts.
#[tactic(auto, using(crate::proofs::Forgetting::kept_once))]
pub fn terms_are_kept_once_with_their_parts()
    ensures { KeptOnce }
{}

// A term is made by its record from the terms at its operands, and appending entries changes no term.
#[tactic(auto, using(crate::proofs::Forgetting::meanings_last))]
pub fn meanings_last()
    ensures { MeaningsLast }
{}

// A call that keeps a term is refused exactly when its parts do not fit, and cutting the table back gives back the old terms.
#[tactic(auto, using(crate::proofs::Forgetting::refused_for_want_of_room))]
pub fn refused_exactly_for_want_of_room()
    ensures { RefusedForWantOfRoom }
{}

// The class that a head tells is that of the typed term.
#[tactic(auto, using(crate::proofs::ClassIs::class_is))]
pub fn heads_tell_the_class()
    ensures { ClassByHead }
{}
