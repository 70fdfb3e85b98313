ghost use Rattle.std.specs.Prelude.{◌≡◌, true, ℤ, IfSome};

use super::*;

const LARGEST: i64 = 1_000_000_000_000_000;

#[test]
fn whole_numbers(rt: HostRuntime) {
    assert_eq!(rt; WholeNumbers::sum(65_535, 1), Some(65_536));
    assert_eq!(rt; WholeNumbers::sum(-LARGEST, LARGEST), Some(0));
    assert_eq!(rt; WholeNumbers::sum(LARGEST, 1), None);
    assert_eq!(rt; WholeNumbers::sum(-LARGEST, -1), None);
    assert!(rt; WholeNumbers::admits(LARGEST) && WholeNumbers::admits(-LARGEST));
    assert!(rt; !WholeNumbers::admits(LARGEST + 1) && !WholeNumbers::admits(-LARGEST - 1));
    assert!(rt; WholeNumbers::at_most(-1, 0) && !WholeNumbers::at_most(0, -1));
    assert!(rt; WholeNumbers::carries_sums());
}

#[test]
fn counts(rt: HostRuntime) {
    assert_eq!(rt; Counts::sum(65_535, 1), Some(0));
    assert_eq!(rt; Counts::sum(65_535, 65_535), Some(65_534));
    assert_eq!(rt; Counts::sum(65_536, 0), None);
    assert_eq!(rt; Counts::sum(0, -1), None);
    assert!(rt; Counts::admits(0) && Counts::admits(65_535));
    assert!(rt; !Counts::admits(65_536) && !Counts::admits(-1));
    assert!(rt; Counts::at_most(7, 7) && !Counts::at_most(8, 7));
    assert!(rt; !Counts::carries_sums());
}

// The ends of 64 bits are literals of neither, and summing them is refused and not wrapped.
fn refuses_extremes<A: Arithmetic>() -> bool {
    let none_admitted = !A::admits(i64::MAX) && !A::admits(i64::MIN);
    let none_summed = A::sum(i64::MAX, i64::MAX).is_none() && A::sum(i64::MIN, i64::MIN).is_none();
    none_admitted && none_summed && A::at_most(i64::MIN, i64::MAX)
}

#[test]
fn extremes(rt: HostRuntime) {
    assert!(rt; refuses_extremes::<WholeNumbers>());
    assert!(rt; refuses_extremes::<Counts>());
}

// A bound of a sum from bounds of its parts, over any arithmetic; none where sums are not carried.
fn bound_of_sum<A: Arithmetic>(m: i64, n: i64) -> Option<i64>
    ensures { IfSome result (λ k. (a b : ℤ) → A.meaning.has a ≡ true → A.meaning.has b ≡ true → A.meaning.atmost a m ≡ true → A.meaning.atmost b n ≡ true → A.meaning.atmost (A.meaning.sum a b) k ≡ true) }
{
    if A::carries_sums() {
        A::sum(m, n)
    } else {
        None
    }
}

#[test]
fn bounds_add_up_where_sums_are_carried(rt: HostRuntime) {
    assert_eq!(rt; bound_of_sum::<WholeNumbers>(5, 7), Some(12));
    assert_eq!(rt; bound_of_sum::<Counts>(5, 7), None);
}
