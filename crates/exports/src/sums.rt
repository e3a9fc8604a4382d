// Repeated receptions added up: blocks of N soft values in output order, each with N presence bytes; N sums and N counts, by input index.
ghost use Rattle.std.specs.Prelude.{◌≡◌};
ghost use Rattle.positions.specs.Heard.{reception, kept};
ghost use Rattle.combine.specs.Answer.{added_of, sums_of, counts_of};
ghost use Rattle.flat.specs.Flat.{set_of, number_of};
ghost use Rattle.lent_sums.specs.Sums.{lent_reading, sum_out, count_out};

use flat::SET;

// Adds a received block to what is stored. Refusals 1, also of profile 9, 2, 3, 16, 11, 10, 5, 6, 14, 13, 15.
#[unsafe(no_mangle)]
pub extern "C" fn interleaver_add_received(
    set: &[u32; SET],
    received: &[f32],
    present: &[u8],
    sums: &mut [f32],
    counts: &mut [u16],
) -> u32
    ensures number { result ≡ number_of (added_of (set_of set.now)
        (reception received.now present.now) (kept sums.old counts.old)) }
    ensures sums { sums.new ≡ sums_of (set_of set.now)
        (reception received.now present.now) (kept sums.old counts.old) }
    ensures counts { counts.new ≡ counts_of (set_of set.now)
        (reception received.now present.now) (kept sums.old counts.old) }
{
    lent_sums::add(set, received, present, sums, counts)
}

// Reads a position, by input index: its sum and its count; a blank is the count 0, and leaves the sum as it was. Refusals 1, also of profile 9, 2, 3,
// 16, 11, 10, 4, 6.
#[unsafe(no_mangle)]
pub extern "C" fn interleaver_read_sum(
    set: &[u32; SET],
    sums: &[f32],
    counts: &[u16],
    position: u32,
    sum: &mut f32,
    count: &mut u16,
) -> u32
    ensures number { result ≡ number_of (lent_reading set.now sums.now counts.now position) }
    ensures sum { sum.new
        ≡ sum_out (lent_reading set.now sums.now counts.now position) sum.old }
    ensures count { count.new
        ≡ count_out (lent_reading set.now sums.now counts.now position) count.old }
{
    lent_sums::read(set, sums, counts, position, sum, count)
}
