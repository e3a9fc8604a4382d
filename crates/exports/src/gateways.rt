// A shore gateway: up to eight byte machines in one lent store. Vessels are counted from 0.
ghost use Rattle.std.specs.Prelude.{◌≡◌, ℕ};
ghost use Rattle.gateway.specs.declared.Stretch.{Stretch};
ghost use Rattle.gateway.specs.Answers.{length_of, laid_of, laid_store, placed_of, feed, says, store_after, output_after};
ghost use Rattle.flat.specs.Flat.{stream_number_of, out_of};

// The length of the store of given kinds. Refusal 9.
#[unsafe(no_mangle)]
pub extern "C" fn interleaver_gateway_length(kinds: &[u32], bytes: &mut u32) -> u32
    ensures number { result ≡ stream_number_of (length_of kinds.now) }
    ensures bytes { bytes.new ≡ out_of (length_of kinds.now) (λ (n : ℕ). n) bytes.old }
{
    lent_gateway::measure(kinds, bytes)
}

// Lays a store out. Refusals 9, 7.
#[unsafe(no_mangle)]
pub extern "C" fn interleaver_gateway_lay_out(
    kinds: &[u32],
    directions: &[u32],
    fills: &[u8],
    store: &mut [u8],
) -> u32
    ensures number { result
        ≡ stream_number_of (laid_of kinds.now directions.now fills.now store.old) }
    ensures store { store.new
        ≡ laid_store kinds.now directions.now fills.now store.old }
{
    lent_gateway::lay_out(kinds, directions, fills, store)
}

// Where a vessel's share stands in the store. Refusals 9, 4.
#[unsafe(no_mangle)]
pub extern "C" fn interleaver_gateway_share(
    store: &[u8],
    vessel: u32,
    offset: &mut u32,
    length: &mut u32,
) -> u32
    ensures number { result ≡ stream_number_of (placed_of store.now vessel) }
    ensures offset { offset.new
        ≡ out_of (placed_of store.now vessel) (λ (s : Stretch). s.offset) offset.old }
    ensures length { length.new
        ≡ out_of (placed_of store.now vessel) (λ (s : Stretch). s.long) length.old }
{
    lent_gateway::place(store, vessel, offset, length)
}

// Feeds the machine of a vessel. Refusals 9, 4, 6.
#[unsafe(no_mangle)]
pub extern "C" fn interleaver_gateway_feed(
    store: &mut [u8],
    vessel: u32,
    input: &[u8],
    out: &mut [u8],
) -> u32
    ensures number { result ≡ stream_number_of (says (feed store.old vessel input.now out.old)) }
    ensures store { store.new ≡ store_after (feed store.old vessel input.now out.old) }
    ensures output { out.new
        ≡ output_after (feed store.old vessel input.now out.old) }
{
    lent_gateway::turn(store, vessel, input, out)
}
