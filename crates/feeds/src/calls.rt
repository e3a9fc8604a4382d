// Calls on one machine, one after the other: each that is done has one before it that is refused.
ghost use Rattle.std.specs.Prelude.{◌≤◌};

use super::standards;
use super::tally::Tally;
use kinds::Stream;
use laws::Way;
use streams::Answer;

// The length of call k, from 0 up, each fourth a long one; never more than is left.
fn length_of(k: usize, left: usize) -> usize
    ensures { result ≤ left }
{
    if k % 4 == 3 {
        return left.min(k % 300 * 4);
    }
    left.min(k % 29)
}

// The way of the k-th call that is to be refused.
fn way_of(k: usize) -> Way {
    if k % 2 == 0 {
        return Way::Deinterleaver;
    }
    Way::Interleaver
}

// A kind that there is not.
fn no_kind(k: usize) -> u32 {
    if k % 2 == 0 { 0 } else { 3 }
}

// The record of the k-th call that is to be refused: of an unknown kind, at the branch behind the last, with the place of one ring after the other at
// its limit, or the machine's own.
fn asked(k: usize, s: Stream) -> Stream {
    match k % 5 {
        1 => Stream {
            kind: no_kind(k),
            ..s
        },
        2 => Stream {
            branch: standards::branches(s.kind) as u32,
            ..s
        },
        3 => standards::misplaced(s, k / 5 % 51 + 1),
        _ => s,
    }
}

// The k-th call that is to be refused, of either way: the store is a byte short, or the input is. An unknown kind is told before the one, and a
// record out of its range before the other.
fn refused(k: usize, s: Stream, store: &mut [u8], input: &[u8], out: &mut [u8]) -> Answer {
    let way = way_of(k);
    let record = asked(k, s);
    let short = store.len().saturating_sub(1);
    let less = input.len().saturating_sub(1);
    if k % 5 < 2 {
        return streams::feed(way, record, &mut store[..short], input, out);
    }
    streams::feed(way, record, store, &input[..less], out)
}

// The record after it: a refused call hands its own back as it came, and what was wrong with it is put right.
fn kept(k: usize, handed: Stream, s: Stream) -> Stream {
    let mut put_right = handed;
    let x = k / 5 % 51;
    match k % 5 {
        1 => put_right.kind = s.kind,
        2 => put_right.branch = s.branch,
        3 => put_right.places[x] = s.places[x],
        _ => {}
    }
    put_right
}

// A machine part way: its record, how many bytes it took, and its tally.
#[derive(Clone, Copy)]
pub struct Going {
    pub s: Stream,
    pub at: usize,
    pub tally: Tally,
}

// The k-th call that is done.
fn step(way: Way, k: usize, now: Going, store: &mut [u8], input: &[u8], out: &mut [u8]) -> Going {
    let s = now.s;
    let all = input.len().min(out.len());
    let at = now.at.min(all);
    let n = length_of(k, all - at);
    let e = at + n;
    let got = streams::feed(way, s, store, &input[at..e], &mut out[at..e]);
    Going {
        s: got.stream,
        at: e,
        tally: now.tally.add(got.said, n as u64),
    }
}

// The k-th call that is refused, and then the k-th that is done.
fn turn(way: Way, k: usize, now: Going, store: &mut [u8], input: &[u8], out: &mut [u8]) -> Going {
    let s = now.s;
    let at = now.at;
    let got = refused(k, s, store, input, out);
    let own = kept(k, got.stream, s);
    let tally = now.tally.add(got.said, 0);
    step(way, k, Going { s: own, at, tally }, store, input, out)
}

// Every byte of the input, from the record and the store, the first call that with the number from.
pub fn run(
    way: Way,
    from: usize,
    s: Stream,
    store: &mut [u8],
    input: &[u8],
    out: &mut [u8],
) -> Tally {
    let tally = Tally::default();
    let mut now = Going { s, at: 0, tally };
    for k in from % 100..300 {
        now = turn(way, k, now, store, input, out);
    }
    now.tally
}
