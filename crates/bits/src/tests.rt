use crate::bitvec::*;

#[test]
fn wraps_at_the_ends(rt: HostRuntime) {
    assert_eq!(rt; neg(i64::MIN), i64::MIN);
    assert_eq!(rt; add(i64::MAX, 1), i64::MIN);
    assert_eq!(rt; sub(i64::MIN, 1), i64::MAX);
    assert_eq!(rt; mul(i64::MIN, -1), i64::MIN);
    assert_eq!(rt; mul(4294967296, 4294967297), 4294967296);
    assert!(rt; slt(-1, 0) && !slt(0, 0) && sle(0, 0));
}

#[test]
fn overflows_just_past_the_ends(rt: HostRuntime) {
    assert!(rt; neg_overflows(-9223372036854775808) && !neg_overflows(-9223372036854775807));
    assert!(rt; add_overflows(i64::MAX, 1) && !add_overflows(i64::MAX, 0));
    assert!(rt; add_overflows(i64::MIN, -1) && !add_overflows(i64::MIN, i64::MAX));
    assert!(rt; sub_overflows(0, i64::MIN) && !sub_overflows(-1, i64::MIN));
    assert!(rt; mul_overflows(3037000500, 3037000500) && !mul_overflows(3037000499, 3037000499));
    assert!(rt; mul_overflows(i64::MIN, -1) && !mul_overflows(i64::MIN, 1));
}
