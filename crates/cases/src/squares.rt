// Request 6: profile 8, and f1 and f2.
use super::looks::MARK;
use super::{new_set, show_one, show_walk, test_set, walk_five};
use laws::Way;
use sets::{Factors, Set};
use system::System;

fn factors(first: u32, second: u32) -> Factors {
    Factors {
        first,
        second,
        third: 0,
        fourth: 0,
    }
}

fn lte_set(k: u32, f1: u32, f2: u32) -> Set {
    Set {
        factors: factors(f1, f2),
        ..new_set(8, 1, k)
    }
}

// f1 and f2 of a set of another profile, which does not read them.
fn unread() -> Set {
    Set {
        factors: factors(4294967295, 0),
        ..new_set(3, 1, 48)
    }
}

// A stream that there is not, and numbers that there are not.
fn strayed() -> Set {
    Set {
        stream: 2,
        ..lte_set(40, 0, 40)
    }
}

// The tests of f1 and f2: 11 after 16, and 10 after 11. 5 divides 40 and not 8; 5 divides 40 and 5; 520 is no size.
pub fn test_factors(system: System) {
    test_set(system, lte_set(40, 3, 10));
    test_set(system, lte_set(6144, 263, 480));
    test_set(system, lte_set(40, 0, 10));
    test_set(system, lte_set(40, 3, 0));
    test_set(system, lte_set(40, 40, 10));
    test_set(system, lte_set(40, 3, 40));
    test_set(system, lte_set(40, 0, 8));
    test_set(system, lte_set(40, 3, 8));
    test_set(system, lte_set(40, 5, 10));
    test_set(system, lte_set(520, 3, 10));
    test_set(system, strayed());
    test_set(system, unread());
}

fn walk_seven(system: System, set: Set, cell: u32) {
    let mut slots = [MARK; 7];
    show_walk(system, Way::Interleaver, set, cell, &mut slots);
}

// K 40 with 3 and 10, by hand: 3·t + 10·t² is 0, 13, 46, 99, 172 for t from 0 to 4, and modulo 40 that is 0, 13, 6, 19, 12. From cell 7: 3·7 + 10·49 is
// 511, which leaves 31; then 664, 837 and 1,030 leave 24, 37 and 30.
pub fn show_squares(system: System) {
    let lte = lte_set(40, 3, 10);
    walk_five(system, Way::Interleaver, lte, 0);
    walk_seven(system, lte, 7);
    walk_five(system, Way::Interleaver, lte, 38);
    walk_five(system, Way::Interleaver, lte, 40);
    walk_five(system, Way::Interleaver, lte, 41);
    walk_five(system, Way::Deinterleaver, lte, 0);
    walk_five(system, Way::Interleaver, lte_set(40, 3, 8), 41);
    show_one(system, Way::Interleaver, lte, 4);
    show_one(system, Way::Deinterleaver, lte, 12);
    show_one(system, Way::Deinterleaver, lte, 40);
    show_one(system, Way::Interleaver, lte_set(6144, 263, 480), 6143);
}
