// Where two plan files differ: the next difference from a place on. No parameter set is tested. Inner functions: whoever calls them has tested the files.
// Plans are counted from 0 in what is asked, and from 1 in what is answered.
#![tactic(auto)]

ghost use Rattle.std.specs.Prelude.{◌≡◌, ◌<◌};
ghost use Rattle.plan_form.specs.Form.{set_in};
ghost use Rattle.plan_form.specs.Lists.{Inside, Proper, Having, agree, wrongs_from, list_at};
ghost use Rattle.plan_differ.specs.Differences.{same_header, next_of, lists_differ, plan_differs, differ_from};
ghost use Rattle.plan_differ.specs.Seeking.{Below};

use plan_form::Listing;

// A difference: a plan that only one file has, a plan with another profile, bits or N, or a position with the address there in each file, where it
// has one.
#[derive(Clone, Copy)]
pub enum Difference {
    Missing(u32),
    Header(u32),
    At {
        plan: u32,
        position: u32,
        left: Option<u32>,
        right: Option<u32>,
    },
}

// Whether both lists have a position, with the same address there.
fn same_at(left: &[u8], one: Listing, right: &[u8], two: Listing, p: usize) -> bool
    requires { Inside left.now one × Inside right.now two }
    ensures { result ≡ agree (list_at left.now one) (list_at right.now two) p }
{
    if p >= one.count {
        return false;
    }
    if p >= two.count {
        return false;
    }
    big_end::pair_at(left, one.offset + 2 * p) == big_end::pair_at(right, two.offset + 2 * p)
}

// The first position from a place on at which two lists differ.
fn seek(left: &[u8], one: Listing, right: &[u8], two: Listing, from: usize) -> Option<usize>
    requires { Inside left.now one × Inside right.now two }
    ensures value { result ≡ next_of (wrongs_from (list_at left.now one) (list_at right.now two) from) }
    ensures below { Below result }
{
    for p in from..one.count.max(two.count) {
        if !same_at(left, one, right, two, p) {
            return Some(p);
        }
    }
    None
}

// Whether plan i has the same profile, bits and N in both files.
fn same_header(left: &[u8], right: &[u8], i: usize) -> bool
    requires { Having left.now i × Having right.now i }
    ensures { result ≡ same_header (set_in left.now i) (set_in right.now i) }
{
    let a = plan_form::set_at(left, i);
    let b = plan_form::set_at(right, i);
    (a.profile == b.profile) & ((a.bits == b.bits) & (a.n == b.n))
}

// The next difference of the lists of plan i, from a position on.
fn differ_lists(left: &[u8], right: &[u8], i: usize, from: usize) -> Option<Difference>
    requires { Having left.now i × Having right.now i × (i < 16) }
    ensures { result ≡ next_of (lists_differ left.now right.now i from) }
{
    let one = plan_form::listing_at(left, i);
    let two = plan_form::listing_at(right, i);
    let p = seek(left, one, right, two, from)?;
    Some(Difference::At {
        plan: (i + 1) as u32,
        position: p as u32,
        left: plan_form::place_at(left, one, p),
        right: plan_form::place_at(right, two, p),
    })
}

// The next difference of plan i, from a position on.
fn differ_plan(left: &[u8], right: &[u8], i: usize, from: usize) -> Option<Difference>
    requires { Proper left.now × Proper right.now × (i < 16) }
    ensures { result ≡ next_of (plan_differs left.now right.now i from) }
{
    let plan = (i + 1) as u32;
    if plan_form::plans_in(left) <= i {
        return Some(Difference::Missing(plan));
    }
    if plan_form::plans_in(right) <= i {
        return Some(Difference::Missing(plan));
    }
    if !same_header(left, right, i) {
        return Some(Difference::Header(plan));
    }
    differ_lists(left, right, i, from)
}

// The next difference of two files, from position `from` of plan i on.
pub fn differ_from(left: &[u8], right: &[u8], i: usize, from: usize) -> Option<Difference>
    requires { Proper left.now × Proper right.now }
    ensures { result ≡ next_of (differ_from left.now right.now i from) }
{
    let most = plan_form::plans_in(left).max(plan_form::plans_in(right));
    let mut p = from;
    for k in i..most {
        if let Some(d) = differ_plan(left, right, k, p) {
            return Some(d);
        }
        p = 0;
    }
    None
}
