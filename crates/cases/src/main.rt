// The cases of document 01 that no proved table states, two lists of request 4 and one of requests 6 and 12 each that are worked by hand, and some
// refusals, by the public calls: each is printed with its outcome.
#![tactic(auto)]

mod coupled;
mod looks;
mod nothing;
mod squares;
mod turned;
mod words;

use kinds::Stream;
use laws::Way;
use looks::MARK;
use sets::{Set, Verdict};
use system::System;
use tables::Moved;
use walks::{Found, Walk, Walked};

fn new_set(profile: u32, bits: u32, n: u32) -> Set {
    stream_set(profile, bits, n, 1)
}

fn stream_set(profile: u32, bits: u32, n: u32, stream: u32) -> Set {
    Set {
        profile,
        bits,
        n,
        stream,
        factors: sets::NO_FACTORS,
    }
}

fn tell_verdict(system: System, v: Verdict) {
    match v {
        Ok(()) => words::text(system, b": accepted"),
        Err(x) => words::refused(system, x),
    }
}

// The test of a set.
fn test(system: System, profile: u32, bits: u32, n: u32) {
    test_set(system, new_set(profile, bits, n));
}

fn test_set(system: System, set: Set) {
    words::text(system, b"test");
    words::set(system, set);
    tell_verdict(system, sets::test(set));
    words::text(system, b"\n");
}

fn tests(system: System) {
    test(system, 5, 1, 39);
    test(system, 5, 1, 40);
    test(system, 5, 1, 5114);
    test(system, 5, 1, 5115);
    test(system, 3, 4, 96);
    test(system, 3, 4, 100);
    test(system, 3, 4, 192);
    test(system, 3, 4, 193);
    test(system, 2, 1, 48);
    test(system, 1, 6, 1152);
    test(system, 1, 6, 1153);
    test(system, 0, 1, 48);
    test(system, 10, 1, 48);
}

fn tell_written(system: System, slots: &[u16], written: u32) {
    if written == 0 {
        return;
    }
    words::text(system, b", addresses");
    words::addresses(system, slots, written);
}

fn tell_walked(system: System, r: Walked, slots: &[u16]) {
    match r {
        Err(x) => words::refused(system, x),
        Ok(values) => {
            words::number(system, b": done, written ", values.written as u64);
            words::number(system, b", next ", values.next.cell as u64);
            words::number(system, b", cells ", values.cells as u64);
            tell_written(system, slots, values.written);
        }
    }
}

// A walk into marked slots.
fn show_walk(system: System, way: Way, set: Set, cell: u32, slots: &mut [u16]) {
    words::either(system, way, b"walk for L,", b"walk for M,");
    words::set(system, set);
    words::number(system, b" from cell ", cell as u64);
    words::number(system, b" room ", slots.len() as u64);
    let r = walks::walk_by(way, Walk { set, cell }, slots);
    tell_walked(system, r, slots);
    words::last(system, b"; slots kept ", looks::kept(slots));
}

fn walk_none(system: System, set: Set, cell: u32) {
    let mut slots = [MARK; 0];
    show_walk(system, Way::Interleaver, set, cell, &mut slots);
}

fn walk_five(system: System, way: Way, set: Set, cell: u32) {
    let mut slots = [MARK; 5];
    show_walk(system, way, set, cell, &mut slots);
}

fn show_walks(system: System) {
    let turbo = new_set(5, 1, 41);
    let carrier = new_set(3, 4, 192);
    walk_five(system, Way::Deinterleaver, turbo, 0);
    walk_five(system, Way::Interleaver, turbo, 51);
    walk_five(system, Way::Interleaver, turbo, 50);
    walk_none(system, turbo, 5);
    walk_five(system, Way::Interleaver, turbo, 0);
    walk_five(system, Way::Interleaver, turbo, 5);
    walk_five(system, Way::Deinterleaver, carrier, 0);
    walk_five(system, Way::Deinterleaver, carrier, 190);
    walk_five(system, Way::Deinterleaver, carrier, 193);
    walk_five(system, Way::Interleaver, new_set(3, 4, 96), 193);
}

fn tell_found(system: System, f: Found) {
    match f {
        Ok(a) => words::number(system, b": ", a as u64),
        Err(x) => words::refused(system, x),
    }
}

// One address.
fn show_one(system: System, way: Way, set: Set, i: u32) {
    words::either(system, way, b"L,", b"M,");
    words::set(system, set);
    words::number(system, b" of ", i as u64);
    tell_found(system, walks::address_by(way, set, i));
    words::text(system, b"\n");
}

fn show_ones(system: System) {
    let turbo = new_set(5, 1, 40);
    let carrier = new_set(3, 4, 192);
    show_one(system, Way::Interleaver, turbo, 39);
    show_one(system, Way::Interleaver, turbo, 40);
    show_one(system, Way::Deinterleaver, turbo, 40);
    show_one(system, Way::Interleaver, carrier, 192);
    show_one(system, Way::Deinterleaver, carrier, 191);
    show_one(system, Way::Deinterleaver, carrier, 192);
}

fn tell_moved(system: System, m: Moved) {
    match m {
        Ok(()) => words::text(system, b": done"),
        Err(x) => words::refused(system, x),
    }
}

// A block of bytes 1 into one of bytes 0, so that every byte that is written shows.
fn show_block(system: System, way: Way, set: Set, src: &[u8], dst: &mut [u8]) {
    words::either(system, way, b"interleave bytes,", b"deinterleave bytes,");
    words::set(system, set);
    words::number(system, b" input ", src.len() as u64);
    words::number(system, b" output ", dst.len() as u64);
    tell_moved(system, blocks::move_block(way, set, src, dst));
    words::last(system, b"; bytes written ", looks::written(dst));
}

fn show_blocks(system: System, way: Way) {
    let set = new_set(1, 1, 12);
    let short = [1u8; 11];
    let whole = [1u8; 12];
    let mut a = [0u8; 12];
    let mut b = [0u8; 11];
    let mut c = [0u8; 11];
    let mut d = [0u8; 12];
    show_block(system, way, set, &short, &mut a);
    show_block(system, way, set, &whole, &mut b);
    show_block(system, way, set, &short, &mut c);
    show_block(system, way, set, &whole, &mut d);
}

// The soft block moved from src to dst, which is then held against the input.
fn show_soft(
    system: System,
    way: Way,
    set: Set,
    input: &[f32; 192],
    src: &[f32; 192],
    dst: &mut [f32; 192],
) {
    let m = blocks::move_block(way, set, src, dst);
    words::either(
        system,
        way,
        b"interleave soft values,",
        b"deinterleave soft values,",
    );
    words::set(system, set);
    tell_moved(system, m);
    words::last(
        system,
        b"; positions whose bits differ from the input ",
        looks::differing_bits(input, dst),
    );
}

// Zeros and minus zeros, interleaved and brought back.
fn show_softs(system: System, set: Set) {
    let mut input = [0.0f32; 192];
    let mut sent = [0.0f32; 192];
    let mut back = [0.0f32; 192];
    words::last(
        system,
        b"soft block of 192, minus zeros ",
        looks::zeros(&mut input),
    );
    show_soft(system, Way::Interleaver, set, &input, &input, &mut sent);
    show_soft(system, Way::Deinterleaver, set, &input, &sent, &mut back);
}

fn main(rt: HostRuntime) {
    let system = System::of(rt);
    tests(system);
    turned::test_streams(system);
    squares::test_factors(system);
    coupled::test_numbers(system);
    show_walks(system);
    turned::show_turned(system);
    show_ones(system);
    turned::show_ones(system);
    squares::show_squares(system);
    coupled::show_couples(system);
    show_blocks(system, Way::Interleaver);
    show_blocks(system, Way::Deinterleaver);
    coupled::show_blocks(system, Way::Interleaver);
    coupled::show_blocks(system, Way::Deinterleaver);
    coupled::show_symbols(system);
    show_softs(system, new_set(3, 4, 192));
    coupled::show_softs(system);
    nothing::feeds(system, Stream::DVB, Way::Interleaver);
    nothing::feeds(system, Stream::DVB, Way::Deinterleaver);
    nothing::feeds(system, Stream::ATSC, Way::Interleaver);
    nothing::feeds(system, Stream::ATSC, Way::Deinterleaver);
}
