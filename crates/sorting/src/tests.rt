ghost use Rattle.std.specs.Ordering.{nat_cmp};

use crate::sort::*;
use std::cmp::Ordering;

#[derive(Clone, Copy, PartialEq, Eq, Debug)]
struct Byte(u8);

impl Ranked<()> for Byte {
    ghost rank = { λ _ a b. nat_cmp a.0 b.0 };

    fn compare(&self, other: &Byte, _context: &()) -> Ordering {
        self.0.cmp(&other.0)
    }
}

#[test]
fn each_item_comes_once_and_in_order(rt: HostRuntime) {
    let items = [Byte(5), Byte(2), Byte(5), Byte(9), Byte(2), Byte(0)];
    let mut out = [Byte(7); 5];
    assert!(rt; sort_into(&(), &items, &mut out) == Some(4));
    assert!(rt; out == [Byte(0), Byte(2), Byte(5), Byte(9), Byte(7)]);
}

#[test]
fn nothing_comes_of_no_room(rt: HostRuntime) {
    let items = [Byte(5), Byte(2), Byte(5)];
    let mut out = [Byte(7); 1];
    assert!(rt; sort_into(&(), &items, &mut out) == None);
    let mut none: [Byte; 0] = [];
    assert!(rt; sort_into(&(), &none, &mut out) == Some(0));
    assert!(rt; sort_into(&(), &items, &mut none) == None);
}
