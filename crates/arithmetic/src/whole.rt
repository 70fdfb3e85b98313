ghost use Rattle.std.specs.Prelude.{true, refl};
ghost use Rattle.logic.specs.Arithmetics.{whole};
ghost use Rattle.logic.proofs.Arithmetics.{whole_lawful};

use crate::Arithmetic;

// The whole numbers, of which −10^15 to 10^15 are literals.
pub struct WholeNumbers;

impl Arithmetic for WholeNumbers {
    ghost meaning = { whole };

    const CARRIES: bool = true;

    ghost CARRIES = { true };

    ghost lawful = { whole_lawful };

    ghost carries_as_meant = { refl };

    fn admits(n: i64) -> bool {
        (-1_000_000_000_000_000..=1_000_000_000_000_000).contains(&n)
    }

    fn sum(a: i64, b: i64) -> Option<i64> {
        a.checked_add(b)
            .filter(|c| Self::admits(a) && Self::admits(b) && Self::admits(*c))
    }

    fn at_most(a: i64, b: i64) -> bool {
        a <= b
    }
}
