// Plan files: how many plans, whether a plan's list is L, and the file of given sets, three numbers a set: profile, bits, N.
ghost use Rattle.std.specs.Prelude.{◌≡◌, ℕ, length};
ghost use Rattle.plans.specs.Judging.{counted_of, judged_of};
ghost use Rattle.plans.specs.Writing.{length_of, written_of, buffer_of};
ghost use Rattle.flat.specs.Flat.{number_of, out_of};
ghost use Rattle.lent_plans.specs.Plans.{first_of, wrong_of};

// How many plans a file has. Refusal 12.
#[unsafe(no_mangle)]
pub extern "C" fn interleaver_plans(file: &[u8], count: &mut u32) -> u32
    ensures number { result ≡ number_of (counted_of file.now) }
    ensures count { count.new ≡ out_of (counted_of file.now) (λ (k : ℕ). k) count.old }
{
    lent_plans::count(file, count)
}

// Judges a plan, counted from 1: the first wrong position and how many are wrong, both 0 where its list is L. Refusals 12, 4, 1, 2, 3.
#[unsafe(no_mangle)]
pub extern "C" fn interleaver_judge_plan(
    file: &[u8],
    plan: u32,
    first: &mut u32,
    wrong: &mut u32,
) -> u32
    ensures number { result ≡ number_of (judged_of file.now plan) }
    ensures first { first.new ≡ out_of (judged_of file.now plan) first_of first.old }
    ensures wrong { wrong.new ≡ out_of (judged_of file.now plan) wrong_of wrong.old }
{
    lent_plans::judge(file, plan, first, wrong)
}

// The length of the file of given sets. Refusals 12 for how many they are, the first bad set's own, 12 for a file above 65,536 bytes.
#[unsafe(no_mangle)]
pub extern "C" fn interleaver_plans_length(sets: &[u32], bytes: &mut u32) -> u32
    ensures number { result ≡ number_of (length_of sets.now) }
    ensures bytes { bytes.new ≡ out_of (length_of sets.now) (λ (b : ℕ). b) bytes.old }
{
    lent_plans::measure(sets, bytes)
}

// Writes the file of given sets. Refusals as for its length, then 6 for a buffer of another length.
#[unsafe(no_mangle)]
pub extern "C" fn interleaver_write_plans(sets: &[u32], out: &mut [u8]) -> u32
    ensures number { result ≡ number_of (written_of sets.now (length out.old)) }
    ensures out { out.new ≡ buffer_of sets.now out.old }
{
    lent_plans::write(sets, out)
}
