// LTE's own factors: for each listed K the f1 and f2 of 3GPP TS 36.212, table 5.1.3-3, for whoever has none.
#![tactic(auto)]

mod firsts; // firsts.rt: f1 of each K
mod seconds; // seconds.rt: f2 of each K

ghost use Rattle.std.specs.Prelude.{◌≡◌, ◌≤◌};
ghost use Rattle.laws.specs.Outcome.{say};
ghost use Rattle.sizes.specs.Size.{size};
ghost use Rattle.sizes.specs.Tests.{size_listed};
ghost use Rattle.lte.specs.Factors.{given_of, lte_set};
ghost use Rattle.lte.specs.Table.{place_of};

use profiles::step_by;
use sets::{Factors, Refusal, Set};

// The answer: the factors, of which f1 is the first, f2 the second and the others are 0; or the refusal.
pub type Given = Result<Factors, Refusal>;

// Whether K is listed for profile 8. (The test of a set asks `sizes::size_listed`; asked here too, it would be a function by itself, and each test of a
// set a call dearer.)
fn is_listed(k: u32) -> bool
    ensures { result ≡ size_listed (size 8 1 k) }
{
    (40 <= k) & ((k <= 6144) & (k % step_by(k) == 0))
}

// The place of a listed K in the table.
#[tactic(auto, unfolding(crate::specs::Table::place_of))]
fn place_of(k: u32) -> usize
    requires { 40 ≤ k }
    ensures { result ≡ place_of k }
{
    match k {
        0..=512 => (k / 8 - 5) as usize,
        513..=1024 => (k / 16 + 27) as usize,
        1025..=2048 => (k / 32 + 59) as usize,
        _ => (k / 64 + 91) as usize,
    }
}

// The set of profile 8 and size K, with no factors.
fn set_of(k: u32) -> Set
    ensures { result ≡ lte_set k }
{
    Set {
        profile: 8,
        bits: 1,
        n: k,
        stream: 1,
        factors: sets::NO_FACTORS,
    }
}

// The factors of a K. Refusal 3, where it isn't listed for profile 8.
pub fn factors(k: u32) -> Given
    ensures { say result ≡ given_of k }
{
    if !is_listed(k) {
        return Err(sets::refusal_of(set_of(k), 3));
    }
    let i = place_of(k);
    Ok(Factors {
        first: firsts::first_at(i),
        second: seconds::second_at(i),
        third: 0,
        fourth: 0,
    })
}
