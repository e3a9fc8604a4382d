// The two kinds by the numbers of their standards, written down a second time: nothing here is asked of the library. 1 is DVB, and any other ATSC.
ghost use Rattle.std.specs.Prelude.{◌*◌, ◌<◌, ◌≤◌};

use kinds::Stream;

pub fn branches(kind: u32) -> usize
    ensures { (12 ≤ result) × (result ≤ 52) }
{
    if kind == 1 { 12 } else { 52 }
}

// What whole turns leave of t bytes.
pub fn rest(t: usize, branches: usize) -> usize
    requires { 0 < branches }
    ensures { result < branches }
{
    t % branches
}

// The bytes of a store.
pub fn store(kind: u32) -> usize
    ensures { (0 < result) × (result ≤ 5304) }
{
    if kind == 1 { 1122 } else { 5304 }
}

// How long the queue of ring x is.
pub fn queue(kind: u32, x: usize) -> usize
    requires { x ≤ 51 }
    ensures { (4 * x ≤ result) × (result ≤ 17 * x) }
{
    if kind == 1 { 17 * x } else { 4 * x }
}

// How late the bytes of ring x are.
pub fn delay(kind: u32, x: usize) -> usize
    requires { x ≤ 51 }
{
    if kind == 1 { 204 * x } else { 208 * x }
}

// The place of ring x is below this: the queue's length, or 1 where the kind lacks the ring.
pub fn limit(kind: u32, x: usize) -> u32
    requires { x ≤ 51 }
    ensures { result ≤ 867 }
{
    if x < branches(kind) {
        return queue(kind, x) as u32;
    }
    1
}

// Near its end.
fn high(kind: u32, x: usize) -> u32
    requires { x ≤ 51 }
{
    let end = limit(kind, x);
    if end < 4 { 0 } else { end - 1 - x as u32 % 4 }
}

// A branch in the middle.
pub fn later_branch(kind: u32) -> usize
    ensures { result ≤ 52 }
{
    branches(kind) - 5
}

// A record that stands there, with each place near its end.
pub fn middle(kind: u32) -> Stream {
    let mut places = [0u32; 51];
    for (i, place) in places.iter_mut().enumerate() {
        *place = high(kind, i + 1);
    }
    Stream {
        kind,
        branch: later_branch(kind) as u32,
        places,
    }
}

// The record with the place of ring x at its limit.
pub fn misplaced(s: Stream, x: usize) -> Stream
    requires { (0 < x) × (x ≤ 51) }
{
    let mut places = s.places;
    places[x - 1] = limit(s.kind, x);
    Stream { places, ..s }
}
