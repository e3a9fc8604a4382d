// A parameter set, the test of one, and what a refusal carries.
#![tactic(auto)]

ghost use Rattle.std.specs.Prelude.{◌≡◌, ◌<◌};
ghost use Rattle.laws.specs.Outcome.{say};
ghost use Rattle.sets.specs.Set.{family_of, is_turbo, is_spatial, is_quadratic, is_coupled, couples_of, numbers_of, group_of};
ghost use Rattle.sets.specs.Stream.{stream_listed};
ghost use Rattle.sets.specs.Verdict.{refusal, say_ruled, ruling_of, verdict_of, fitting_of};

mod beside; // beside.rt: what a set must have beside its size and stream

use couples::Couples;
use profiles::{Family, Numbers};
use sizes::Size;

// The numbers that a set has beside its size and stream. Profile 8 reads the first two, which are its f1 and f2, profile 9 all four, which are its P0 to
// P3; no other profile reads any.
#[derive(Clone, Copy)]
pub struct Factors {
    pub first: u32,
    pub second: u32,
    pub third: u32,
    pub fourth: u32,
}

// A profile, bits per carrier, the block's size N (of profile 9 its couples), the spatial stream, which is 1 for a profile of one stream, and the factors.
// Any numbers may be given.
#[derive(Clone, Copy)]
pub struct Set {
    pub profile: u32,
    pub bits: u32,
    pub n: u32,
    pub stream: u32,
    pub factors: Factors,
}

// What a refused call gives back: the number of document 01; and with 3 the least listed N not below the one asked for, or 0 if there is none. With
// every other number the size is 0. (A number, and no enum of reasons: `refusal` and the lines of every call, which the theorems stand on, name a refusal by
// its number, as document 01, C and the program do.)
#[derive(Clone, Copy)]
pub struct Refusal {
    pub number: u32,
    pub size: u32,
}

// Which line of a set's test applies first, if one does: its number. What a refusal carries beside that is asked for where one is given.
pub type Ruled = Result<(), u32>;

// The answer of the test of a set.
pub type Verdict = Result<(), Refusal>;

// The factors of a profile that reads none.
pub const NO_FACTORS: Factors = Factors {
    first: 0,
    second: 0,
    third: 0,
    fourth: 0,
};

// The family of a set's profile.
fn family_of(set: Set) -> Family
    ensures { result ≡ family_of set }
{
    profiles::family_by(set.profile)
}

// Whether the family is the turbo interleaver's, that of spatial streams, the quadratic interleaver's, or that of couples.
pub fn is_turbo(set: Set) -> bool
    ensures { result ≡ is_turbo (family_of set) }
{
    matches!(family_of(set), Family::Turbo)
}

pub fn is_spatial(set: Set) -> bool
    ensures { result ≡ is_spatial (family_of set) }
{
    matches!(family_of(set), Family::Spatial)
}

pub fn is_quadratic(set: Set) -> bool
    ensures { result ≡ is_quadratic (family_of set) }
{
    matches!(family_of(set), Family::Quadratic)
}

pub fn is_coupled(set: Set) -> bool
    ensures { result ≡ is_coupled (family_of set) }
{
    matches!(family_of(set), Family::Coupled)
}

// N and the four factors, as the record of couples: P0 to P3 of profile 9. (Of profile 8 its n is K, p0 and p1 are f1 and f2.)
pub fn couples_of(set: Set) -> Couples
    ensures { result ≡ couples_of set }
{
    Couples {
        n: set.n,
        p0: set.factors.first,
        p1: set.factors.second,
        p2: set.factors.third,
        p3: set.factors.fourth,
    }
}

// The numbers of its formulas: d, r, and how many streams there are.
pub fn numbers_of(set: Set) -> Numbers
    ensures { result ≡ numbers_of set }
{
    profiles::numbers_by(set.profile)
}

// s, the group that the bits per carrier give, and its range.
pub fn group_of(set: Set) -> u32
    ensures value { result ≡ group_of set }
    ensures result_nonzero { (0 < result) × (result < 4) }
{
    profiles::group_by(set.bits)
}

// The refusal of a set with a number.
pub fn refusal_of(set: Set, number: u32) -> Refusal
    ensures { result ≡ refusal set number }
{
    if number == 3 {
        return Refusal {
            number,
            size: fitting::fitting_of(set.profile, set.bits, set.n),
        };
    }
    Refusal { number, size: 0 }
}

// The stream is listed for the profile. Every profile has stream 1.
fn stream_listed(set: Set) -> bool
    ensures { result ≡ stream_listed set }
{
    if set.stream == 1 {
        return true;
    }
    let numbers = numbers_of(set);
    (1 <= set.stream) & (set.stream <= numbers.streams)
}

// Which line of the test applies first: 1, 2, 3, 16, 11, 10, in that order, and nothing more. (`rulings_apart` in specs/Verdict.antt: what is said leaves
// one answer.)
pub fn ruling_of(set: Set) -> Ruled
    ensures { say_ruled result ≡ ruling_of set }
{
    let size = Size {
        profile: set.profile,
        bits: set.bits,
        n: set.n,
    };
    if !sizes::profile_listed(size) {
        return Err(1);
    }
    if !sizes::bits_listed(size) {
        return Err(2);
    }
    if !sizes::size_listed(size) {
        return Err(3);
    }
    if !stream_listed(set) {
        return Err(16);
    }
    if is_quadratic(set) {
        beside::ruling_of(true, couples_of(set))?;
    }
    if is_coupled(set) {
        beside::ruling_of(false, couples_of(set))?;
    }
    Ok(())
}

// The test of a parameter set. (`answers_apart` of laws, specs/Outcome.antt, likewise.)
pub fn test(set: Set) -> Verdict
    ensures { say result ≡ verdict_of set }
{
    match ruling_of(set) {
        Ok(()) => Ok(()),
        Err(k) => Err(refusal_of(set, k)),
    }
}

// The size that its refusal carries; 0 where the set is accepted. (It asks for the size by itself: were `refusal_of` the only one to ask, the compiler would
// make one function of the two, and each call on a set would be some twenty instructions dearer.)
pub fn verdict_size(set: Set) -> u32
    ensures { result ≡ fitting_of (verdict_of set) }
{
    match ruling_of(set) {
        Ok(()) => 0,
        Err(3) => fitting::fitting_of(set.profile, set.bits, set.n),
        Err(_) => 0,
    }
}
