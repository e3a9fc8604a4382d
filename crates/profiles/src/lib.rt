// The profiles: which family of formulas each has, which numbers, and what it admits; s of the bits, and the step of LTE's sizes. table.rt has
// them question by question.
#![tactic(auto)]

ghost use Rattle.std.specs.Prelude.{◌≡◌, ◌<◌};
ghost use Rattle.profiles.specs.Profiles.{family_by, numbers_by, admitted_by, group_by, step_by, number_listed};

mod table; // table.rt: what each profile is

// The kinds of interleaver that profiles are of: one rule for each. (crate families, specs/Rules.antt; a crate for each has its leaves.)
#[derive(Clone, Copy)]
pub enum Family {
    Carrier,
    Spatial,
    Turbo,
    Quadratic,
    Coupled,
}

// The numbers of a profile's formulas: d, the rows of a carrier interleaver; r, N_ROT of IEEE 802.11n; and how many streams there are. One that the
// family lacks is 0.
#[derive(Clone, Copy)]
pub struct Numbers {
    pub d: u32,
    pub r: u32,
    pub streams: u32,
}

// How the sizes N of a profile come from its unit, its limit and the bits per carrier.
#[derive(Clone, Copy)]
pub enum Form {
    Only, // unit times bits
    Doubled, // unit times bits, times 1, 2, 4, 8, 16
    Multiple, // the multiples of unit times bits, up to the limit
    Grouped, // the multiples of unit times s, up to the limit
    Range, // unit to the limit
    Tiered, // unit to the limit by 8, past 512 by 16, past 1,024 by 32, past 2,048 by 64
    Fours, // the multiples of 4 from unit to the limit
}

// The bits per carrier of a profile.
#[derive(Clone, Copy)]
pub enum Bits {
    Each, // 1, 2, 4, 6
    Even, // 2, 4, 6
    One, // 1
}

// What a profile admits: its bits, and the sizes N of a form. A limit that the form lacks is 0.
#[derive(Clone, Copy)]
pub struct Admitted {
    pub bits: Bits,
    pub form: Form,
    pub unit: u32,
    pub limit: u32,
}

// The number is a profile's.
pub fn is_listed(profile: u32) -> bool
    ensures { result ≡ number_listed profile }
{
    (1 <= profile) & (profile <= table::LAST)
}

// The family of a profile.
pub fn family_by(profile: u32) -> Family
    ensures { result ≡ family_by profile }
{
    table::family(profile)
}

// The numbers of a profile's formulas.
pub fn numbers_by(profile: u32) -> Numbers
    ensures { result ≡ numbers_by profile }
{
    table::numbers(profile)
}

// What a profile admits.
pub fn admitted_by(profile: u32) -> Admitted
    ensures { result ≡ admitted_by profile }
{
    table::admitted(profile)
}

// s, the group that the bits per carrier give. (Its range is promised too, so that callers need not look into the table.)
pub fn group_by(bits: u32) -> u32
    ensures value { result ≡ group_by bits }
    ensures result_nonzero { (0 < result) × (result < 4) }
{
    if bits == 6 {
        return 3;
    }
    if bits == 4 {
        return 2;
    }
    1
}

// The step to a size from the one before it, where the form is tiered. (That it is not 0 is promised too.)
pub fn step_by(n: u32) -> u32
    ensures value { result ≡ step_by n }
    ensures result_nonzero { 0 < result }
{
    if n <= 512 {
        return 8;
    }
    if n <= 1024 {
        return 16;
    }
    if n <= 2048 {
        return 32;
    }
    64
}
