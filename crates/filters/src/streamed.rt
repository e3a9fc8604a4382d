// A byte stream of DVB or ATSC from standard input to standard output.
use super::{read_some, refused, write_out};
use kinds::Stream;
use kinds::sizes::Sizes;
use laws::Way;
use system::System;

// Passes what came through the machine, and writes it. Answers the record, where it goes on.
fn send(
    system: System,
    way: Way,
    s: Stream,
    store: &mut [u8],
    input: &[u8],
    out: &mut [u8],
) -> Option<Stream> {
    let answer = streams::feed(way, s, store, input, out);
    match answer.said {
        Ok(()) => write_out(system, out).then_some(answer.stream),
        Err(number) => {
            refused(system, number, 0);
            None
        }
    }
}

// Reads once, and passes on what came.
fn turn(
    system: System,
    way: Way,
    s: Stream,
    store: &mut [u8],
    room: &mut [u8],
    out: &mut [u8],
) -> Option<Stream> {
    let n = read_some(system, room);
    // (the two rooms are alike, so that no more comes than goes out)
    if n == 0 || n > out.len() {
        return None;
    }
    send(system, way, s, store, &room[..n], &mut out[..n])
}

fn turns(
    system: System,
    way: Way,
    first: Stream,
    store: &mut [u8],
    room: &mut [u8],
    out: &mut [u8],
) {
    let mut now = first;
    for _ in 0..u64::MAX {
        match turn(system, way, now, store, room, out) {
            Some(next) => now = next,
            None => return,
        }
    }
}

// The stream through a machine in a store of its kind's length.
fn started(system: System, way: Way, kind: u32, fill: u8, store: &mut [u8]) {
    let mut room = io::large_buffer();
    let mut out = io::large_buffer();
    let answer = streams::start(kind, store, fill);
    match answer.said {
        Ok(()) => turns(system, way, answer.stream, store, &mut room, &mut out),
        Err(number) => refused(system, number, 0),
    }
}

// The same, with the store in the first bytes of a room, which has as many as any kind takes.
fn in_room(system: System, way: Way, kind: u32, fill: u8, room: &mut [u8]) {
    if let Some(store) = room.get_mut(..Sizes::of(kind).store) {
        started(system, way, kind, fill, store);
    }
}

// `dvb interleave`, `atsc interleave` and the way back of each: the output is as long as the input.
pub fn through(system: System, way: Way, kind: u32, fill: u8) {
    let mut room = [0u8; Stream::ATSC_STORE];
    in_room(system, way, kind, fill, &mut room);
}
