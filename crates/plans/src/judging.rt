// How many plans a file has, and whether a plan's list is L of its set.
ghost use Rattle.std.specs.Prelude.{◌≡◌};
ghost use Rattle.laws.specs.Outcome.{say};
ghost use Rattle.plan_form.specs.Lists.{Having};
ghost use Rattle.plans.specs.Judging.{counted_of, compared_as, planned_of, judged_of};

use super::PIECE;
use plan_judge::Tally;
use sets::Refusal;

// The answer of counting plans.
pub type Counted = Result<u32, Refusal>;

// How a plan's list compares with L: it is the same; or the first wrong position, and how many are wrong. A missing or surplus place is wrong.
#[derive(Clone, Copy)]
pub enum Compared {
    Same,
    Wrong { first: u32, count: u32 },
}

// The answer of judging a plan.
pub type Judged = Result<Compared, Refusal>;

// The refusal of a file that is not of the form.
pub const UNFORMED: Refusal = Refusal {
    number: 12,
    size: 0,
};

// The refusal of a plan that the file doesn't have.
const BEYOND: Refusal = Refusal { number: 4, size: 0 };

// How many plans a file has. Refusal 12.
pub fn count(file: &[u8]) -> Counted
    ensures { say result ≡ counted_of file.now }
{
    if !plan_form::well_formed(file) {
        return Err(UNFORMED);
    }
    Ok(plan_form::plans_in(file) as u32)
}

// What a tally says.
fn told(t: Tally) -> Compared
    ensures { result ≡ compared_as t }
{
    if t.count == 0 {
        return Compared::Same;
    }
    Compared::Wrong {
        first: t.first,
        count: t.count,
    }
}

// Judges plan i, counted from 0, of a file of the form: the test of its set, then its list.
fn judge_at(file: &[u8], i: usize) -> Judged
    requires { Having file.now i }
    ensures { say result ≡ planned_of file.now i }
{
    let set = plan_form::set_at(file, i);
    if let Err(k) = plan_form::ruling_of(set) {
        return Err(sets::refusal_of(set, k));
    }
    let list = plan_form::listing_at(file, i);
    let mut piece = [0u16; PIECE];
    Ok(told(plan_judge::compare(set, file, list, &mut piece)))
}

// Judges a plan. Refusals 12, 4, 1, for every profile that isn't 1 to 5, 2, 3.
pub fn judge(file: &[u8], plan: u32) -> Judged
    ensures { say result ≡ judged_of file.now plan }
{
    if !plan_form::well_formed(file) {
        return Err(UNFORMED);
    }
    let i = plan as usize;
    if i == 0 {
        return Err(BEYOND);
    }
    if plan_form::plans_in(file) < i {
        return Err(BEYOND);
    }
    judge_at(file, i - 1)
}
