// Feeds 40,000 bytes through the interleaver of each kind, and what comes out through a deinterleaver, cut raggedly and with refused calls between:
// every ring turns three times or more. Every byte is compared with the closed form, which divides and shares nothing with
// the feed. Once from a start, and once from a record in the middle, with a filled store. Then bursts in the channel of a deinterleaver, from each
// byte of two turns on: each byte is looked for in what comes out, and its place compared with where its queue lets it out.
#![tactic(auto)]

mod bursts; // bursts.rt: bursts, and where they are found again
mod calls; // calls.rt: calls on one machine, done and refused
mod closed; // closed.rt: what is fed, and what must come out
mod standards; // standards.rt: the kinds, by their numbers
mod tally; // tally.rt: the calls, counted

ghost use Rattle.std.specs.Prelude.{◌≤◌};

use bursts::Seen;
use closed::Path;
use kinds::Stream;
use laws::Way;
use system::System;
use tally::Tally;

fn plus(a: u64, b: u64) -> u64 {
    a.wrapping_add(b)
}

// How a machine begins: from a start or in the middle, with a store full of f.
#[derive(Clone, Copy)]
pub struct Begun {
    pub kind: u32,
    pub middle: bool,
    pub f: u8,
}

// The store filled, and the record.
fn begin(b: Begun, store: &mut [u8]) -> Stream {
    let answer = streams::start(b.kind, store, b.f);
    if b.middle {
        return standards::middle(b.kind);
    }
    answer.stream
}

// The branch.
fn branch(b: Begun) -> usize {
    if b.middle {
        return standards::later_branch(b.kind);
    }
    0
}

fn text(system: System, words: &[u8]) {
    let _ = system.print(words);
}

fn number(system: System, words: &[u8], n: u64) {
    text(system, words);
    let mut digits = [0u8; 20];
    let k = io::decimal(n, &mut digits);
    let _ = system.print(&digits[..k]);
}

fn name(system: System, kind: u32) {
    if kind == 1 {
        text(system, b"DVB");
    } else {
        text(system, b"ATSC");
    }
}

fn report(system: System, way: Way, t: Tally, checksum: u64, differences: u64) {
    match way {
        Way::Interleaver => text(system, b"interleaver"),
        Way::Deinterleaver => text(system, b"deinterleaver"),
    }
    number(system, b" calls ", t.calls);
    number(system, b" refused 7 ", t.seven);
    number(system, b" 9 ", t.nine);
    number(system, b" 6 ", t.six);
    number(system, b" other ", t.other);
    number(system, b" bytes ", t.bytes);
    number(system, b" checksum ", checksum);
    number(system, b" differences ", differences);
    text(system, b"\n");
}

// The number of a machine's first call: each is cut in its own way.
fn first_call(way: Way) -> usize {
    match way {
        Way::Interleaver => 0,
        Way::Deinterleaver => 23,
    }
}

fn path(way: Way) -> Path {
    match way {
        Way::Interleaver => Path::There,
        Way::Deinterleaver => Path::Back,
    }
}

// Feeds one machine in a store of its kind's length.
fn feed_in(
    way: Way,
    b: Begun,
    from: usize,
    store: &mut [u8],
    input: &[u8],
    out: &mut [u8],
) -> Tally {
    let s = begin(b, store);
    calls::run(way, from, s, store, input, out)
}

// Feeds one machine in a store of its own.
fn feed(way: Way, b: Begun, from: usize, input: &[u8], out: &mut [u8]) -> Tally {
    let mut room = [0u8; 5304];
    let n = standards::store(b.kind);
    feed_in(way, b, from, &mut room[..n], input, out)
}

// One machine; what comes out is compared with what its input makes due.
fn machine(system: System, way: Way, b: Begun, input: &[u8], out: &mut [u8]) {
    let tally = feed(way, b, first_call(way), input, out);
    let wrong = closed::differences(b.kind, path(way), branch(b), input, out, b.f);
    report(system, way, tally, closed::checksum(out), wrong);
}

// Both machines, the deinterleaver cut in its own way; what comes back is compared with what went in, too.
fn both(system: System, b: Begun) {
    let mut input = [0u8; 40000];
    let mut sent = [0u8; 40000];
    let mut back = [0u8; 40000];
    closed::samples(&mut input);
    machine(system, Way::Interleaver, b, &input, &mut sent);
    machine(system, Way::Deinterleaver, b, &sent, &mut back);
    let wrong = closed::differences(b.kind, Path::Both, branch(b), &input, &back, b.f);
    number(system, b"there and back differences ", wrong);
    text(system, b"\n");
}

// Both machines of a kind from a start, and from the middle.
fn both_begun(system: System, kind: u32) {
    let start = Begun {
        kind,
        middle: false,
        f: 165,
    };
    let middle = Begun {
        kind,
        middle: true,
        f: 60,
    };
    name(system, kind);
    text(system, b" from a start\n");
    both(system, start);
    name(system, kind);
    number(
        system,
        b" from the middle, at branch ",
        branch(middle) as u64,
    );
    text(system, b"\n");
    both(system, middle);
}

// A burst of n bytes from byte `at` on through a deinterleaver, and what is found of it.
fn burst(kind: u32, at: usize, n: usize, seen: Seen) -> Seen
    requires { at ≤ 104 }
{
    let mut input = [0u8; 10900];
    let mut out = [0u8; 10900];
    let b = Begun {
        kind,
        middle: false,
        f: 0,
    };
    bursts::channel(at, n, &mut input);
    feed(Way::Deinterleaver, b, at, &input, &mut out);
    seen.look(kind, at, &out)
}

// Bursts of n bytes, from each byte of two turns on.
fn spread(system: System, kind: u32, n: usize) {
    let mut seen = Seen::none();
    for at in 0..standards::branches(kind) * 2 {
        seen = burst(kind, at, n, seen);
    }
    tell_spread(system, kind, n, seen);
}

fn tell_spread(system: System, kind: u32, n: usize, seen: Seen) {
    name(system, kind);
    number(system, b" bursts of ", n as u64);
    number(system, b" found ", seen.found);
    number(system, b" not at their place ", seen.wrong);
    number(system, b" least distance ", seen.nearest);
    text(system, b"\n");
}

fn main(rt: HostRuntime) {
    let system = System::of(rt);
    both_begun(system, 1);
    both_begun(system, 2);
    spread(system, 1, 12);
    spread(system, 1, 13);
    spread(system, 2, 52);
    spread(system, 2, 53);
}
