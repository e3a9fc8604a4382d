// A feed of nothing into nothing, of either kind and either way: done, and nothing moves.
use super::{looks, words};
use kinds::Stream;
use kinds::sizes::Sizes;
use laws::Way;
use streams::Answer;
use system::System;

// The record after a start and a feed of the input. (A refused start gives one of kind 0, which every feed refuses.)
fn fed(kind: u32, way: Way, store: &mut [u8], input: &[u8], out: &mut [u8]) -> Stream {
    let begun = streams::start(kind, store, 165);
    let s = begun.stream;
    let got = streams::feed(way, s, store, input, out);
    got.stream
}

fn tell_kind(system: System, kind: u32) {
    if kind == Stream::DVB {
        words::text(system, b"DVB ");
    } else {
        words::text(system, b"ATSC ");
    }
}

// What a feed from record s says.
fn tell_next(system: System, got: Answer, s: Stream) {
    let next = got.stream;
    match got.said {
        Err(k) => words::number(system, b": refused ", k as u64),
        Ok(()) => {
            words::number(system, b": done, branch ", s.branch as u64);
            words::number(system, b" moved to ", next.branch as u64);
            words::number(
                system,
                b", places moved ",
                looks::differing(&s.places, &next.places),
            );
        }
    }
}

fn tell_fed(system: System, way: Way, got: Answer, s: Stream, bytes: u64, changed: u64) {
    tell_kind(system, s.kind);
    words::either(system, way, b"interleaver", b"deinterleaver");
    words::text(system, b", feed of nothing into nothing");
    tell_next(system, got, s);
    words::number(system, b", ", bytes);
    words::last(system, b" bytes; store bytes changed ", changed);
}

// A feed of nothing, after a start and a feed of the input; a second store had the same but for the feed of nothing.
fn feed_nothing(
    system: System,
    kind: u32,
    way: Way,
    store: &mut [u8],
    second: &mut [u8],
    input: &[u8],
    out: &mut [u8],
) {
    let nothing = [0u8; 0];
    let mut nowhere = [0u8; 0];
    let s = fed(kind, way, store, input, out);
    fed(kind, way, second, input, out);
    let got = streams::feed(way, s, store, &nothing, &mut nowhere);
    tell_fed(
        system,
        way,
        got,
        s,
        nothing.len() as u64,
        looks::differing(second, store),
    );
}

// The same in stores of the kind's length.
fn in_rooms(system: System, kind: u32, way: Way, input: &[u8], out: &mut [u8]) {
    let mut room = [0u8; Stream::ATSC_STORE];
    let mut second = [0u8; Stream::ATSC_STORE];
    let n = Sizes::of(kind).store;
    feed_nothing(
        system,
        kind,
        way,
        &mut room[..n],
        &mut second[..n],
        input,
        out,
    );
}

pub fn feeds(system: System, kind: u32, way: Way) {
    let none = [7u8; 0];
    let some = [7u8; 53];
    let mut a = [0u8; 0];
    let mut b = [0u8; 53];
    in_rooms(system, kind, way, &none, &mut a);
    in_rooms(system, kind, way, &some, &mut b);
}
