// The form of a plan file, what its header says, and what stands at a position of one of its lists. Inner functions, but for the test of the form and of a
// set: whoever calls the others has tested that what they read is there. Plans are counted from 0 here.
#![tactic(auto)]

ghost use Rattle.std.specs.Prelude.{◌≡◌, ◌+◌, ◌<◌, ◌≤◌, length};
ghost use Rattle.laws.specs.Outcome.{first};
ghost use Rattle.sets.specs.Verdict.{say_ruled};
ghost use Rattle.plan_form.specs.Form.{plans_in, set_in, entry_place, lists_meet, formed};
ghost use Rattle.plan_form.specs.Planned.{planned_lines};
ghost use Rattle.plan_form.specs.Lists.{Inside, Listed, list_at, place_of};

use sets::{NO_FACTORS, Ruled, Set};

// A file has at most so many bytes, and at most so many plans.
pub const ROOM: usize = 65536;

pub const PLANS: usize = 16;

// The last profile that plan files know.
pub const PROFILES: u32 = 5;

// Where a list stands in its file, and how many addresses it has. (File and list are two parameters: of a struct that holds both, each clause would say
// `x.entry.file.now` and `x.entry.list`.)
#[derive(Clone, Copy)]
pub struct Listing {
    pub offset: usize,
    pub count: usize,
}

// How many plans the header says.
pub fn plans_in(file: &[u8]) -> usize
    requires { 4 ≤ length file.now }
    ensures { (result ≡ plans_in file.now) × (result < 4294967296) }
{
    big_end::number_at(file, 0) as usize
}

// The parameter set of plan i.
pub fn set_at(file: &[u8], i: usize) -> Set
    requires { entry_place i + 20 ≤ length file.now }
    ensures { result ≡ set_in file.now i }
{
    let at = 4 + 20 * i;
    Set {
        profile: big_end::number_at(file, at),
        bits: big_end::number_at(file, at + 4),
        n: big_end::number_at(file, at + 8),
        stream: 1,
        factors: NO_FACTORS,
    }
}

// Whether the lists follow the header and each other without gaps, to the file's end. No number is narrowed: sixteen counts, doubled and added up, have
// 37 bits.
fn lists_meet(file: &[u8], plans: usize) -> bool
    requires { (plans ≤ 16) × (entry_place plans ≤ length file.now) }
    ensures { result ≡ lists_meet file.now plans 0 (entry_place plans) }
{
    let mut at = 4 + 20 * plans;
    for i in 0..plans {
        let list = listing_at(file, i);
        if list.offset != at {
            return false;
        }
        at += 2 * list.count;
    }
    at == file.len()
}

// Whether a file is of the form.
pub fn well_formed(file: &[u8]) -> bool
    ensures { result ≡ formed file.now }
{
    let len = file.len();
    if len > ROOM {
        return false;
    }
    if len < 4 {
        return false;
    }
    let plans = plans_in(file);
    if plans < 1 {
        return false;
    }
    if plans > PLANS {
        return false;
    }
    if len < 4 + 20 * plans {
        return false;
    }
    lists_meet(file, plans)
}

// Where the list of plan i stands.
pub fn listing_at(file: &[u8], i: usize) -> Listing
    requires { entry_place i + 20 ≤ length file.now }
    ensures { Listed file.now i result }
{
    let entry = 4 + 20 * i;
    let offset = big_end::number_at(file, entry + 12) as usize;
    let count = big_end::number_at(file, entry + 16) as usize;
    Listing { offset, count }
}

// The address at a position of a list, which has none past its end.
pub fn place_at(file: &[u8], list: Listing, p: usize) -> Option<u32>
    requires { Inside file.now list }
    ensures { result ≡ place_of (list_at file.now list) p }
{
    if p >= list.count {
        return None;
    }
    Some(u32::from(big_end::pair_at(file, list.offset + 2 * p)))
}

// Which line of the test of a set applies first: 1 for a profile that plan files don't know, then what the set gets by itself.
pub fn ruling_of(set: Set) -> Ruled
    ensures { say_ruled result ≡ first (planned_lines set) }
{
    if set.profile > PROFILES {
        return Err(1);
    }
    sets::ruling_of(set)
}
