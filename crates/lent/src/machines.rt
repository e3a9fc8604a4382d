// The byte streams: a lent store, and the record behind a pointer, its numbers in a row.
ghost use Rattle.std.specs.Prelude.{◌≡◌};
ghost use Rattle.streams.specs.Answers.{says, store_after, output_after};
ghost use Rattle.flat.specs.Flat.{lent_feed, stream_number_of, stream_out};

use flat::records::{STREAM, answered, record_of};
use laws::Way;

// Feeds the machine of a way.
pub fn feed(
    way: Way,
    stream: &mut [u32; STREAM],
    store: &mut [u8],
    input: &[u8],
    out: &mut [u8],
) -> u32
    ensures number { result
        ≡ stream_number_of (says (lent_feed way stream.old store.old input.now out.old)) }
    ensures stream { stream.new
        ≡ stream_out (says (lent_feed way stream.old store.old input.now out.old))
        stream.old }
    ensures store { store.new
        ≡ store_after (lent_feed way stream.old store.old input.now out.old) }
    ensures output { out.new
        ≡ output_after (lent_feed way stream.old store.old input.now out.old) }
{
    answered(
        streams::feed(way, record_of(stream), store, input, out),
        stream,
    )
}
