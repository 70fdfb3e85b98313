// Arithmetics: which numbers may be written as literals, how two literals are summed and compared,
// and whether bounds may be added.
#![tactic(auto)]

ghost use Rattle.std.specs.Prelude.{◌≡◌, Bool};
ghost use Rattle.logic.specs.Arithmetic.{Arithmetic as Meaning, Lawful};
ghost use Rattle.arithmetic.specs.Literals.{literal_sum};

mod counting;
mod whole;

pub use counting::Counts;
pub use whole::WholeNumbers;

// An arithmetic's functions stand alone: no value of it is needed.
pub trait Arithmetic {
    // Its numbers, their sum, negative and order, its literals, and whether it carries sums.
    ghost meaning: { Meaning };

    // Whether n ≤ m and j ≤ k give n + j ≤ m + k.
    const CARRIES: bool;

    ghost CARRIES: { Bool };

    // Whether n may be written as a literal.
    fn admits(n: i64) -> bool
        ensures { result ≡ meaning.admits n };

    // The sum of two literals, refused exactly where it is none; what is no literal has no sum.
    fn sum(a: i64, b: i64) -> Option<i64>
        ensures { result ≡ literal_sum meaning a b };

    // Each arithmetic writes its own, though both compare alike: another one's order may be another.
    fn at_most(a: i64, b: i64) -> bool
        ensures { result ≡ meaning.atmost a b };

    ghost lawful: { Lawful meaning };

    ghost carries_as_meant: { CARRIES ≡ meaning.carries };

    final fn carries_sums() -> bool
        ensures { result ≡ meaning.carries }
    {
        Self::CARRIES
    }
}

#[cfg(test)]
mod tests;
