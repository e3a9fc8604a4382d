// Where two files differ, difference by difference: a program prints each, and asks again from behind it.
ghost use Rattle.std.specs.Prelude.{◌≡◌, ◌-◌};
ghost use Rattle.laws.specs.Outcome.{say};
ghost use Rattle.plans.specs.Differing.{differed_of};

use super::judging::UNFORMED;
use plan_differ::Difference;
use sets::Refusal;

// The answer: the next difference, if there is one.
pub type Differed = Result<Option<Difference>, Refusal>;

// The place of a plan, from 0, that is counted from 1. (Plan 0 stands for the first.)
fn index_of(plan: u32) -> usize
    ensures { result ≡ plan - 1 }
{
    plan.saturating_sub(1) as usize
}

// The next difference of two files, from a position of a plan on. All of them: ask from plan 1, position 0; after one of a whole plan from the next plan,
// position 0; after one at a position from the next position. Refusal 12 if either file is not of the form.
pub fn differ(left: &[u8], right: &[u8], plan: u32, position: u32) -> Differed
    ensures { say result ≡ differed_of left.now right.now plan position }
{
    if !plan_form::well_formed(left) {
        return Err(UNFORMED);
    }
    if !plan_form::well_formed(right) {
        return Err(UNFORMED);
    }
    Ok(plan_differ::differ_from(left, right, index_of(plan), position as usize))
}
