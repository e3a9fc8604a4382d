// The record of a byte stream for C: its numbers in a row.
ghost use Rattle.std.specs.Prelude.{◌≡◌};
ghost use Rattle.streams.specs.Answers.{say};
ghost use Rattle.flat.specs.Flat.{stream_of, stream_list, stream_number_of, stream_out};

use kinds::Stream;
use streams::Answer;

// How many numbers a record is: kind, branch, and the places.
pub const STREAM: usize = 53;

// The record that is lent.
pub fn record_of(stream: &[u32; STREAM]) -> Stream
    ensures { result ≡ stream_of stream.now }
{
    let mut places = [0u32; Stream::RINGS];
    for i in 0..Stream::RINGS {
        places[i] = stream[i + 2];
    }
    Stream {
        kind: stream[0],
        branch: stream[1],
        places,
    }
}

// The numbers of a record.
fn numbers_of(s: Stream) -> [u32; STREAM]
    ensures { result ≡ stream_list s }
{
    let places = s.places;
    let mut row = [0u32; STREAM];
    row[0] = s.kind;
    row[1] = s.branch;
    for i in 0..Stream::RINGS {
        row[i + 2] = places[i];
    }
    row
}

// Takes the answer of a start or a feed apart.
pub fn answered(a: Answer, stream: &mut [u32; STREAM]) -> u32
    ensures number { result ≡ stream_number_of (say a) }
    ensures stream { stream.new ≡ stream_out (say a) stream.old }
{
    let said = a.said;
    let s = a.stream;
    match said {
        Ok(()) => {
            *stream = numbers_of(s);
            0
        }
        Err(k) => k,
    }
}
