// Request 12: profile 9, P0 to P3, and blocks of couples. A list and a block are worked by hand.
use super::looks::MARK;
use super::{show_block, show_one, show_walk, stream_set, tell_moved, test_set, walk_five, words};
use laws::Way;
use sets::{Factors, Set};
use system::System;

fn four(first: u32, second: u32, third: u32, fourth: u32) -> Factors {
    Factors {
        first,
        second,
        third,
        fourth,
    }
}

fn set_of(profile: u32, bits: u32, n: u32, stream: u32, factors: Factors) -> Set {
    Set {
        factors,
        ..stream_set(profile, bits, n, stream)
    }
}

fn couples(n: u32, p0: u32, p1: u32, p2: u32, p3: u32) -> Set {
    set_of(9, 1, n, 1, four(p0, p1, p2, p3))
}

// The set that the request works out.
fn least_set() -> Set {
    couples(24, 5, 0, 0, 0)
}

// The sets that pass, and 10. The four numbers P0·b + Q(b) of N 24 with 5, 0, 0, 0 are 1, 5 + 13, 10 + 1 and 15 + 13, which leave 1, 2, 3, 0 modulo
// 4, and 5 has no divisor with 24/4 = 6. N 28 with 2, 1, 2, 3: 1, 2 + 16, 4 + 3, 6 + 18 leave 1, 2, 3, 0, and 2 has none with 7. N 24 with 5, 1, 0,
// 0: 5 + 14 leaves 3, as 10 + 1 does. N 36 with 3, 0, 0, 0: 3 divides 9. With P0 = 0 outputs 0 and 4 both have couple 1.
fn test_apart(system: System) {
    test_set(system, least_set());
    test_set(system, couples(28, 2, 1, 2, 3));
    test_set(system, couples(2400, 53, 66, 24, 2));
    test_set(system, couples(24, 5, 1, 0, 0));
    test_set(system, couples(36, 3, 0, 0, 0));
    test_set(system, couples(24, 0, 0, 0, 0));
}

// 11 for each of the four, and before 10.
fn test_below(system: System) {
    test_set(system, couples(24, 24, 0, 0, 0));
    test_set(system, couples(24, 5, 24, 0, 0));
    test_set(system, couples(24, 5, 0, 24, 0));
    test_set(system, couples(24, 5, 0, 0, 24));
    test_set(system, couples(24, 5, 0, 0, 4294967295));
    test_set(system, couples(24, 0, 0, 0, 24));
}

// What goes before the four numbers, and a profile that does not read them.
pub fn test_numbers(system: System) {
    test_apart(system);
    test_below(system);
    test_set(system, set_of(9, 1, 24, 2, four(24, 0, 0, 0)));
    test_set(system, couples(20, 5, 0, 0, 0));
    test_set(system, couples(26, 24, 0, 0, 0));
    test_set(system, couples(2404, 5, 0, 0, 0));
    test_set(system, set_of(9, 2, 24, 1, four(5, 0, 0, 0)));
    test_set(system, set_of(10, 1, 24, 1, four(5, 0, 0, 0)));
    test_set(
        system,
        set_of(8, 1, 40, 1, four(3, 10, 4294967295, 4294967295)),
    );
}

fn walk_eight(system: System, set: Set, cell: u32) {
    let mut slots = [MARK; 8];
    show_walk(system, Way::Interleaver, set, cell, &mut slots);
}

// N 24 with 5, 0, 0, 0, by hand. 5·j is 0, 5, 10, 15, 20, 25, 30, 35 for j from 0 to 7; with 1 more at even j and 13 more at odd ones that is 1, 18,
// 11, 28, 21, 38, 31, 48, and modulo 24 it is 1, 18, 11, 4, 21, 14, 7, 0. From cell 7: 0, then 41, 58, 51, 68, 61, 78 and 71 leave 17, 10, 3, 20, 13,
// 6 and 23. Cell 23: 115 + 13 leaves 8. N 2400 with 53, 66, 24, 2 at 2399, which leaves 3 modulo 4: 53 times -1, 1 + 1200 and 2 are 1150.
pub fn show_couples(system: System) {
    let set = least_set();
    walk_eight(system, set, 0);
    walk_eight(system, set, 7);
    walk_five(system, Way::Interleaver, set, 23);
    walk_five(system, Way::Interleaver, set, 24);
    walk_five(system, Way::Interleaver, set, 25);
    walk_five(system, Way::Deinterleaver, set, 0);
    walk_five(system, Way::Interleaver, couples(24, 5, 1, 0, 0), 25);
    show_one(system, Way::Interleaver, set, 4);
    show_one(system, Way::Deinterleaver, set, 18);
    show_one(system, Way::Interleaver, set, 24);
    show_one(system, Way::Deinterleaver, set, 24);
    show_one(system, Way::Interleaver, couples(2400, 53, 66, 24, 2), 2399);
}

// N couples are 2N symbols: a block of N is too short, as input and as output.
pub fn show_blocks(system: System, way: Way) {
    let short = [1u8; 24];
    let whole = [1u8; 48];
    let mut a = [0u8; 48];
    let mut b = [0u8; 24];
    let mut c = [0u8; 24];
    let mut d = [0u8; 48];
    show_block(system, way, least_set(), &short, &mut a);
    show_block(system, way, least_set(), &whole, &mut b);
    show_block(system, way, least_set(), &short, &mut c);
    show_block(system, way, least_set(), &whole, &mut d);
}

// Each symbol its own number.
fn number_all(block: &mut [u8; 48]) {
    for (i, symbol) in block.iter_mut().enumerate() {
        *symbol = i as u8;
    }
}

fn show_moved(system: System, way: Way, src: &[u8; 48], dst: &mut [u8; 48]) {
    let m = blocks::move_block(way, least_set(), src, dst);
    words::either(system, way, b"interleave bytes,", b"deinterleave bytes,");
    words::set(system, least_set());
    tell_moved(system, m);
    words::symbols(system, dst);
}

// Symbols 0 to 47 interleaved and brought back, by hand: output couple 0 is couple 1, which is odd, so its B, 3, stands before its A, 2; couple 18 is
// even, 36 and 37; then come 11, with 23 and 22, and 4, with 8 and 9.
pub fn show_symbols(system: System) {
    let mut src = [0u8; 48];
    let mut dst = [0u8; 48];
    let mut back = [0u8; 48];
    number_all(&mut src);
    show_moved(system, Way::Interleaver, &src, &mut dst);
    show_moved(system, Way::Deinterleaver, &dst, &mut back);
}

// 96 couples of soft values.
pub fn show_softs(system: System) {
    super::show_softs(system, couples(96, 7, 48, 24, 72));
}
