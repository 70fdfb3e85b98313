ghost use Rattle.std.specs.Prelude.{false, refl};
ghost use Rattle.logic.specs.Arithmetics.{counts};
ghost use Rattle.logic.proofs.Arithmetics.{counts_lawful};

use crate::Arithmetic;

// The counts 0 to 65,535, summed modulo 65,536; each is a literal.
pub struct Counts;

impl Arithmetic for Counts {
    ghost meaning = { counts };

    const CARRIES: bool = false;

    ghost CARRIES = { false };

    ghost lawful = { counts_lawful };

    ghost carries_as_meant = { refl };

    fn admits(n: i64) -> bool {
        (0..=65_535).contains(&n)
    }

    fn sum(a: i64, b: i64) -> Option<i64> {
        a.checked_add(b)
            .filter(|_| Self::admits(a) && Self::admits(b))
            .map(|c| c % 65_536)
    }

    fn at_most(a: i64, b: i64) -> bool {
        a <= b
    }
}
