// The byte interleavers and deinterleavers of DVB and ATSC: a record by value, a lent store. A call is refused with a number, and then it touches
// nothing, or it is done.
#![tactic(auto)]

ghost use Rattle.std.specs.Prelude.{◌≡◌, true, length, replicate};
ghost use Rattle.laws.specs.declared.Way.TheVariants.{Interleaver, Deinterleaver};
ghost use Rattle.kinds.specs.Kinds.{sizes_of, in_range};
ghost use Rattle.streams.specs.Fed.{Runs};
ghost use Rattle.streams.specs.Answers.{say, started_of, started_record, started_store};
ghost use Rattle.streams.specs.Answers.{call, says, record_after, store_after, output_after};

use kinds::Stream;
use kinds::sizes::Sizes;
use laws::Way;

// What a start or a feed says: it is done, or refused with a number.
pub type Said = Result<(), u32>;

// What it answers, a record beside either: a feed that is done hands the next record on, and one that is refused its own as it came; a start that
// is refused gives zeros.
#[derive(Clone, Copy)]
pub struct Answer {
    pub said: Said,
    pub stream: Stream,
}

// A refusal, with the record that goes with it.
fn refusal(k: u32, stream: Stream) -> Answer
    ensures { result ≡ record { said = Err k; stream = stream } }
{
    Answer {
        said: Err(k),
        stream,
    }
}

// The bytes of a slice, ring by ring: bytes of different rings never meet, so the order of the rings does not matter. One division tells how many
// whole turns there are, and so how many bytes each ring has.
fn run(way: Way, s: Stream, store: &mut [u8], input: &[u8], out: &mut [u8]) -> Stream
    requires { (length store.old ≡ (sizes_of s.kind).store) × (in_range s ≡ true) × (length out.old ≡ length input.now) }
    ensures { Runs way s store.old input.now result store.new out.new }
{
    let z = Sizes::of(s.kind);
    let turns = input.len() / z.branches;
    let rest = input.len() % z.branches;
    let none = s.lead(way, 0);
    rings::pass(z.branches, none, input, out);
    let mut places = s.places;
    let mut first = 0;
    let mut size = z.step;
    for x in 1..z.branches {
        let last = first + size;
        let i = s.lead(way, x);
        let left = rings::left_of(turns, rest, i);
        let place = first + Stream::slot(&places, x) as usize;
        let next = rings::turn(z.branches, first, last, i, place, left, store, input, out);
        places[x - 1] = (next - first) as u32;
        first = last;
        size += z.step;
    }
    Stream {
        kind: s.kind,
        branch: s.branch_after(rest),
        places,
    }
}

// Feeds a machine, of either way. Refusals 9, 7, 9, 6.
pub fn feed(way: Way, s: Stream, store: &mut [u8], input: &[u8], out: &mut [u8]) -> Answer
    ensures answer { say result ≡ says (call way s store.old input.now out.old) }
    ensures stream { result.stream ≡ record_after (call way s store.old input.now out.old) }
    ensures store { store.new
        ≡ store_after (call way s store.old input.now out.old) }
    ensures output { out.new
        ≡ output_after (call way s store.old input.now out.old) }
{
    if !Sizes::known(s.kind) {
        return refusal(9, s);
    }
    if store.len() != Sizes::of(s.kind).store {
        return refusal(7, s);
    }
    if !s.in_range() {
        return refusal(9, s);
    }
    if out.len() != input.len() {
        return refusal(6, s);
    }
    let stream = run(way, s, store, input, out);
    Answer {
        said: Ok(()),
        stream,
    }
}

// Fills a store with f.
fn fill(store: &mut [u8], f: u8)
    ensures { store.new ≡ replicate (length store.old) f }
{
    for byte in store.iter_mut() {
        *byte = f;
    }
}

// Starts a machine of a kind, of either way, in a lent store. Refusals 9, 7.
pub fn start(kind: u32, store: &mut [u8], f: u8) -> Answer
    ensures answer { say result ≡ started_of kind store.old }
    ensures stream { result.stream ≡ started_record kind store.old }
    ensures store { store.new ≡ started_store kind f store.old }
{
    if !Sizes::known(kind) {
        return refusal(9, Stream::new(0));
    }
    if store.len() != Sizes::of(kind).store {
        return refusal(7, Stream::new(0));
    }
    fill(store, f);
    Answer {
        said: Ok(()),
        stream: Stream::new(kind),
    }
}

// Feeds the interleaver.
pub fn interleave(s: Stream, store: &mut [u8], input: &[u8], out: &mut [u8]) -> Answer
    ensures answer { say result ≡ says (call Interleaver s store.old input.now out.old) }
    ensures stream { result.stream
        ≡ record_after (call Interleaver s store.old input.now out.old) }
    ensures store { store.new
        ≡ store_after (call Interleaver s store.old input.now out.old) }
    ensures output { out.new
        ≡ output_after (call Interleaver s store.old input.now out.old) }
{
    feed(Way::Interleaver, s, store, input, out)
}

// Feeds the deinterleaver.
pub fn deinterleave(s: Stream, store: &mut [u8], input: &[u8], out: &mut [u8]) -> Answer
    ensures answer { say result ≡ says (call Deinterleaver s store.old input.now out.old) }
    ensures stream { result.stream
        ≡ record_after (call Deinterleaver s store.old input.now out.old) }
    ensures store { store.new
        ≡ store_after (call Deinterleaver s store.old input.now out.old) }
    ensures output { out.new
        ≡ output_after (call Deinterleaver s store.old input.now out.old) }
{
    feed(Way::Deinterleaver, s, store, input, out)
}
