// The byte streams: a lent store, and the record behind a pointer, its numbers in a row.
ghost use Rattle.std.specs.Prelude.{◌≡◌};
ghost use Rattle.laws.specs.declared.Way.TheVariants.{Interleaver, Deinterleaver};
ghost use Rattle.streams.specs.Answers.{started_of, started_store, says, store_after, output_after};
ghost use Rattle.flat.specs.Flat.{lent_feed, stream_number_of, stream_out};

use flat::records::STREAM;
use laws::Way;

// Starts a machine of a kind, of either way. Refusals 9, 7.
#[unsafe(no_mangle)]
pub extern "C" fn interleaver_stream_start(
    kind: u32,
    store: &mut [u8],
    fill: u8,
    stream: &mut [u32; STREAM],
) -> u32
    ensures number { result ≡ stream_number_of (started_of kind store.old) }
    ensures store { store.new ≡ started_store kind fill store.old }
    ensures stream { stream.new ≡ stream_out (started_of kind store.old) stream.old }
{
    flat::records::answered(streams::start(kind, store, fill), stream)
}

// Feeds the interleaver. Refusals 9, 7, 9, 6.
#[unsafe(no_mangle)]
pub extern "C" fn interleaver_stream_interleave(
    stream: &mut [u32; STREAM],
    store: &mut [u8],
    input: &[u8],
    out: &mut [u8],
) -> u32
    ensures number { result
        ≡ stream_number_of
        (says (lent_feed Interleaver stream.old store.old input.now out.old)) }
    ensures stream { stream.new
        ≡ stream_out (says (lent_feed Interleaver stream.old store.old input.now out.old))
        stream.old }
    ensures store { store.new
        ≡ store_after (lent_feed Interleaver stream.old store.old input.now out.old) }
    ensures output { out.new
        ≡ output_after (lent_feed Interleaver stream.old store.old input.now out.old) }
{
    lent::machines::feed(Way::Interleaver, stream, store, input, out)
}

// Feeds the deinterleaver. Refusals 9, 7, 9, 6.
#[unsafe(no_mangle)]
pub extern "C" fn interleaver_stream_deinterleave(
    stream: &mut [u32; STREAM],
    store: &mut [u8],
    input: &[u8],
    out: &mut [u8],
) -> u32
    ensures number { result
        ≡ stream_number_of
        (says (lent_feed Deinterleaver stream.old store.old input.now out.old)) }
    ensures stream { stream.new
        ≡ stream_out (says (lent_feed Deinterleaver stream.old store.old input.now out.old))
        stream.old }
    ensures store { store.new
        ≡ store_after (lent_feed Deinterleaver stream.old store.old input.now out.old) }
    ensures output { out.new
        ≡ output_after (lent_feed Deinterleaver stream.old store.old input.now out.old) }
{
    lent::machines::feed(Way::Deinterleaver, stream, store, input, out)
}
