// Receptions added up on what C lends: a parameter set is its numbers in a row, and what a position holds goes through two out-parameters, which a
// refused call leaves as they are.
#![tactic(auto)]

ghost use Rattle.std.specs.Prelude.{◌≡◌};
ghost use Rattle.positions.specs.Heard.{reception, kept};
ghost use Rattle.combine.specs.Answer.{added_of, sums_of, counts_of, say_reading};
ghost use Rattle.flat.specs.Flat.{set_of, number_of};
ghost use Rattle.lent_sums.specs.Sums.{lent_reading, sum_out, count_out};

use combine::Reading;
use flat::SET;

// Takes what a position holds apart. A blank is the count 0, and leaves the sum as it was.
fn taken(r: Reading, sum: &mut f32, count: &mut u16) -> u32
    ensures number { result ≡ number_of (say_reading r) }
    ensures sum { sum.new ≡ sum_out (say_reading r) sum.old }
    ensures count { count.new ≡ count_out (say_reading r) count.old }
{
    match r {
        Reading::Soft(held) => {
            *sum = held.sum;
            *count = held.count;
            0
        }
        Reading::Blank => {
            *count = 0;
            0
        }
        Reading::Refused(x) => x.number,
    }
}

// Adds a received block to what is stored.
pub fn add(
    set: &[u32; SET],
    received: &[f32],
    present: &[u8],
    sums: &mut [f32],
    counts: &mut [u16],
) -> u32
    ensures number { result ≡ number_of (added_of (set_of set.now)
        (reception received.now present.now) (kept sums.old counts.old)) }
    ensures sums { sums.new ≡ sums_of (set_of set.now)
        (reception received.now present.now) (kept sums.old counts.old) }
    ensures counts { counts.new ≡ counts_of (set_of set.now)
        (reception received.now present.now) (kept sums.old counts.old) }
{
    flat::number(combine::add(flat::set_of(set), received, present, sums, counts))
}

// Reads a position.
pub fn read(
    set: &[u32; SET],
    sums: &[f32],
    counts: &[u16],
    position: u32,
    sum: &mut f32,
    count: &mut u16,
) -> u32
    ensures number { result ≡ number_of (lent_reading set.now sums.now counts.now position) }
    ensures sum { sum.new
        ≡ sum_out (lent_reading set.now sums.now counts.now position) sum.old }
    ensures count { count.new
        ≡ count_out (lent_reading set.now sums.now counts.now position) count.old }
{
    taken(
        combine::read(flat::set_of(set), sums, counts, position),
        sum,
        count,
    )
}
