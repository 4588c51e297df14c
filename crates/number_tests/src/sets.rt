//! Sets of integers by themselves.
use crate::traits::{has_bounds, has_congruence, has_numbers, is_empty, is_long, is_single};
use ival_core::Ival;

const LIMIT: i128 = 1 << 120;

#[test]
fn holds_what_it_was_made_of(rt: HostRuntime) {
    let none = Ival::empty();
    assert!(rt; !none.contains(0));
    assert!(rt; is_empty(&none));
    assert!(rt; none.as_single().is_none());
    let least = Ival::single(-LIMIT);
    assert!(rt; least.contains(-LIMIT));
    assert!(rt; !least.contains(LIMIT));
    assert!(rt; has_bounds(&least, -LIMIT, -LIMIT));
    assert!(rt; has_congruence(&least, 0, 1));
    assert!(rt; is_single(&least.copy(), -LIMIT));
}

#[test]
fn ranges_with_a_remainder(rt: HostRuntime) {
    assert!(rt; has_numbers(&Ival::range(-10, 10, 1, 3), &[-8, -5, -2, 1, 4, 7, 10]));
    let ten = Ival::range(-20, 20, 2, 4);
    assert!(rt; has_bounds(&ten, -18, 18));
    assert!(rt; has_congruence(&ten, 2, 4));
    assert!(rt; ten.contains(-2));
    assert!(rt; !ten.contains(0));
    assert!(rt; is_long(&ten));
    let wide = Ival::range(-LIMIT, LIMIT, 0, LIMIT / 4);
    assert!(rt; has_bounds(&wide, -LIMIT, LIMIT));
    assert!(rt; has_congruence(&wide, 0, LIMIT / 4));
    assert!(rt; is_empty(&Ival::range(5, 7, 0, 4)));
}

#[test]
fn joins_are_least(rt: HostRuntime) {
    assert!(rt; has_numbers(&Ival::single(5).join(&Ival::single(-1)), &[-1, 5]));
    let eights = Ival::range(0, 80, 0, 8);
    let fours = eights.join(&Ival::single(84));
    assert!(rt; has_bounds(&fours, 0, 84));
    assert!(rt; has_congruence(&fours, 0, 4));
    let ones = Ival::single(3).join(&eights);
    assert!(rt; has_bounds(&ones, 0, 80));
    assert!(rt; has_congruence(&ones, 0, 1));
    let both = eights.join(&Ival::range(-60, 60, 0, 12));
    assert!(rt; has_bounds(&both, -60, 80));
    assert!(rt; has_congruence(&both, 0, 4));
    let nine = Ival::range(0, 21, 0, 3).join(&Ival::single(-9));
    assert!(rt; has_bounds(&nine, -9, 21));
    assert!(rt; has_congruence(&nine, 0, 3));
}

#[test]
fn meets_are_exact(rt: HostRuntime) {
    let thirds = Ival::range(0, 100, 1, 3);
    let seven = thirds.meet(&Ival::range(0, 100, 2, 5));
    assert!(rt; has_numbers(&seven, &[7, 22, 37, 52, 67, 82, 97]));
    let long = Ival::range(-1000, 1000, 1, 3).meet(&Ival::range(0, 2000, 2, 5));
    assert!(rt; has_bounds(&long, 7, 997));
    assert!(rt; has_congruence(&long, 7, 15));
    assert!(rt; is_empty(&Ival::range(0, 100, 1, 4).meet(&Ival::range(0, 100, 0, 6))));
    let eighths = Ival::range(-LIMIT, LIMIT, 1, LIMIT / 8);
    let one = eighths.meet(&Ival::range(-LIMIT, LIMIT, 1, LIMIT / 8 - 1));
    assert!(rt; is_single(&one, 1));
    assert!(rt; is_single(&thirds.meet(&Ival::single(4)), 4));
}

#[test]
fn inclusion_looks_at_strides(rt: HostRuntime) {
    let eights = Ival::range(0, 160, 0, 8);
    let fours = Ival::range(0, 160, 0, 4);
    assert!(rt; eights.included(&fours));
    assert!(rt; !fours.included(&eights));
    assert!(rt; Ival::single(8).included(&eights));
    assert!(rt; !Ival::single(4).included(&eights));
    assert!(rt; !eights.included(&Ival::single(8)));
}

#[test]
fn widening_goes_to_marks(rt: HostRuntime) {
    let marks = [-5, 10, 90];
    let up = Ival::single(0).widen(&Ival::single(3), &marks);
    assert!(rt; has_bounds(&up, 0, 10));
    assert!(rt; has_bounds(&up.widen(&Ival::single(-7), &marks), -LIMIT, 10));
    assert!(rt; has_bounds(&up.widen(&Ival::single(4), &marks), 0, 10));
    let inward = Ival::range(0, 80, 0, 8).widen(&Ival::single(84), &marks);
    assert!(rt; has_bounds(&inward, 0, 88));
    assert!(rt; has_congruence(&inward, 0, 4));
    assert!(rt; is_single(&Ival::empty().widen(&Ival::single(3), &marks), 3));
}
