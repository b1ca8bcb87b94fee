//! The order of reaches, and what is made of them.

use cert_graph::Reach::{Any, No, UpTo};
use cert_graph::{Reach, reach_at};

// Each reach with one that is further.
const PAIRS: [(Reach, Reach); 6] = [
    (No, UpTo(0)),
    (No, Any),
    (UpTo(0), UpTo(1)),
    (UpTo(1), UpTo(3)),
    (UpTo(1), Any),
    (UpTo(u32::MAX), Any),
];

#[test]
fn two_are_compared(rt: HostRuntime) {
    for (lower, further) in PAIRS {
        assert!(rt; lower < further && lower.is_at_most(further) && !further.is_at_most(lower));
        assert!(rt; lower.is_at_most(lower) && further.is_at_most(further));
        assert!(rt; lower.lesser(further) == lower && further.lesser(lower) == lower);
        assert!(rt; lower.greater(further) == further && further.greater(lower) == further);
    }
}

#[test]
fn counts_are_taken_and_passed_on(rt: HostRuntime) {
    assert!(rt; UpTo(2).takes(2) && !UpTo(2).takes(3) && !No.takes(0) && Any.takes(usize::MAX));
    assert!(rt; UpTo(0).passed_by(false) == No && UpTo(3).passed_by(false) == UpTo(2));
    assert!(rt; UpTo(3).passed_by(true) == UpTo(3) && Any.passed_by(false) == Any);
    assert!(rt; Reach::of_limit(None) == Any && Reach::of_limit(Some(4)) == UpTo(4));
    assert!(rt; reach_at(&[Any], 0) == Any && reach_at(&[Any], 1) == No);
}
