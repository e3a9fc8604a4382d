// What is printed: plain words and numbers.
use laws::Way;
use sets::{Factors, Refusal, Set};
use system::System;

pub fn text(system: System, words: &[u8]) {
    let _ = system.print(words);
}

pub fn number(system: System, words: &[u8], n: u64) {
    let _ = system.print(words);
    let mut digits = [0u8; 20];
    let k = io::decimal(n, &mut digits);
    let _ = system.print(&digits[..k]);
}

// The last number of a line.
pub fn last(system: System, words: &[u8], n: u64) {
    number(system, words, n);
    text(system, b"\n");
}

// What is called, by its way.
pub fn either(system: System, way: Way, there: &[u8], again: &[u8]) {
    match way {
        Way::Interleaver => text(system, there),
        Way::Deinterleaver => text(system, again),
    }
}

// f1 and f2 where they are not 0, and the numbers behind them likewise.
fn pair(system: System, f: Factors) {
    if (f.first != 0) | (f.second != 0) {
        number(system, b" f1 ", f.first as u64);
        number(system, b" f2 ", f.second as u64);
    }
    if (f.third != 0) | (f.fourth != 0) {
        number(system, b" then ", f.third as u64);
        number(system, b" and ", f.fourth as u64);
    }
}

fn four(system: System, f: Factors) {
    number(system, b" P0 ", f.first as u64);
    number(system, b" P1 ", f.second as u64);
    number(system, b" P2 ", f.third as u64);
    number(system, b" P3 ", f.fourth as u64);
}

// The numbers beside the size and the stream, as the profile reads them.
fn factors(system: System, s: Set) {
    if s.profile == 9 {
        four(system, s.factors);
    } else {
        pair(system, s.factors);
    }
}

// A parameter set, in the middle of a line: the stream where it is not 1.
pub fn set(system: System, s: Set) {
    number(system, b" profile ", s.profile as u64);
    number(system, b" bits ", s.bits as u64);
    number(system, b" N ", s.n as u64);
    if s.stream != 1 {
        number(system, b" stream ", s.stream as u64);
    }
    factors(system, s);
}

pub fn refused(system: System, x: Refusal) {
    number(system, b": refused ", x.number as u64);
    if x.number == 3 {
        number(system, b" ", x.size as u64);
    }
}

// The first n addresses of a slice.
pub fn addresses(system: System, slots: &[u16], n: u32) {
    for a in slots.iter().take(n as usize) {
        number(system, b" ", u64::from(*a));
    }
}

// All symbols of a block, as the last of a line.
pub fn symbols(system: System, block: &[u8]) {
    text(system, b"; symbols");
    for b in block {
        number(system, b" ", u64::from(*b));
    }
    text(system, b"\n");
}
