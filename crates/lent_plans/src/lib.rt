// Plan files on what C lends: one number is the answer, and what else a call says goes through out-parameters, which a refused call leaves as they are.
#![tactic(auto)]

ghost use Rattle.std.specs.Prelude.{◌≡◌, ℕ, length};
ghost use Rattle.laws.specs.Outcome.{say};
ghost use Rattle.plans.specs.Judging.{counted_of, judged_of};
ghost use Rattle.plans.specs.Writing.{length_of, written_of, buffer_of};
ghost use Rattle.flat.specs.Flat.{number_of, out_of};
ghost use Rattle.lent_plans.specs.Plans.{first_of, wrong_of};

use plans::judging::{Compared, Judged};
use sets::Refusal;

// Takes an answer of one number apart: how many plans there are, or a file's length.
fn taken(answer: Result<u32, Refusal>, out: &mut u32) -> u32
    ensures number { result ≡ number_of (say answer) }
    ensures out { out.new ≡ out_of (say answer) (λ (k : ℕ). k) out.old }
{
    if let Ok(k) = answer {
        *out = k;
    }
    flat::number(answer)
}

// Takes a judgement apart. An equal plan has 0 wrong positions, and then the first is 0.
fn judged(j: Judged, first: &mut u32, wrong: &mut u32) -> u32
    ensures number { result ≡ number_of (say j) }
    ensures first { first.new ≡ out_of (say j) first_of first.old }
    ensures wrong { wrong.new ≡ out_of (say j) wrong_of wrong.old }
{
    match j {
        Ok(Compared::Same) => {
            *first = 0;
            *wrong = 0;
            0
        }
        Ok(Compared::Wrong { first: p, count }) => {
            *first = p;
            *wrong = count;
            0
        }
        Err(x) => x.number,
    }
}

// How many plans a file has.
pub fn count(file: &[u8], count: &mut u32) -> u32
    ensures number { result ≡ number_of (counted_of file.now) }
    ensures count { count.new ≡ out_of (counted_of file.now) (λ (k : ℕ). k) count.old }
{
    taken(plans::judging::count(file), count)
}

// Judges a plan, counted from 1.
pub fn judge(file: &[u8], plan: u32, first: &mut u32, wrong: &mut u32) -> u32
    ensures number { result ≡ number_of (judged_of file.now plan) }
    ensures first { first.new ≡ out_of (judged_of file.now plan) first_of first.old }
    ensures wrong { wrong.new ≡ out_of (judged_of file.now plan) wrong_of wrong.old }
{
    judged(plans::judging::judge(file, plan), first, wrong)
}

// The length of the file of given sets, three numbers a set.
pub fn measure(sets: &[u32], bytes: &mut u32) -> u32
    ensures number { result ≡ number_of (length_of sets.now) }
    ensures bytes { bytes.new ≡ out_of (length_of sets.now) (λ (b : ℕ). b) bytes.old }
{
    taken(plans::writing::length_of(sets), bytes)
}

// Writes the file of given sets.
pub fn write(sets: &[u32], out: &mut [u8]) -> u32
    ensures number { result ≡ number_of (written_of sets.now (length out.old)) }
    ensures out { out.new ≡ buffer_of sets.now out.old }
{
    flat::number(plans::writing::write(sets, out))
}
