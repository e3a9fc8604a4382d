// A size: a profile, bits per carrier and N. The tests of what is listed. An inner crate: who asks for N has asked for the bits.
#![tactic(auto)]

ghost use Rattle.std.specs.Prelude.{◌≡◌, ◌<◌};
ghost use Rattle.laws.specs.Members.{multiple};
ghost use Rattle.sizes.specs.Tests.{profile_listed, bits_listed, size_listed};

use profiles::{Bits, Form, admitted_by, group_by, step_by};

// What a table lists. Any numbers may be given.
#[derive(Clone, Copy)]
pub struct Size {
    pub profile: u32,
    pub bits: u32,
    pub n: u32,
}

// The profile is listed.
#[tactic(auto, unfolding(crate::specs::Tests::profile_listed))]
pub fn profile_listed(size: Size) -> bool
    ensures { result ≡ profile_listed size }
{
    profiles::is_listed(size.profile)
}

// The bits are listed for the profile.
#[tactic(auto, using(crate::specs::Listed::bits_by))]
pub fn bits_listed(size: Size) -> bool
    ensures { result ≡ bits_listed size }
{
    match admitted_by(size.profile).bits {
        Bits::Each => matches!(size.bits, 1 | 2 | 4 | 6),
        Bits::Even => matches!(size.bits, 2 | 4 | 6),
        Bits::One => size.bits == 1,
    }
}

// Whether n is a positive multiple of u, at most m.
fn multiple_of(u: u32, m: u32, n: u32) -> bool
    requires { 0 < u }
    ensures { result ≡ multiple u m n }
{
    (0 < n) & ((n <= m) & (n % u == 0))
}

// N is listed for the profile and the bits. The bits are listed, so that no product wraps.
#[tactic(auto, using(crate::specs::Listed::unit_times))]
pub fn size_listed(size: Size) -> bool
    requires { (0 < size.bits) × (size.bits < 7) }
    ensures { result ≡ size_listed size }
{
    let b = size.bits;
    let n = size.n;
    let admitted = admitted_by(size.profile);
    let u = admitted.unit * b;
    match admitted.form {
        Form::Only => n == u,
        Form::Doubled => (n == u)
            | ((n == 2 * u) | ((n == 4 * u) | ((n == 8 * u) | (n == 16 * u)))),
        Form::Multiple => multiple_of(u, admitted.limit, n),
        Form::Grouped => multiple_of(admitted.unit * group_by(b), admitted.limit, n),
        Form::Range => (admitted.unit <= n) & (n <= admitted.limit),
        Form::Tiered => (admitted.unit <= n) & ((n <= admitted.limit) & (n % step_by(n) == 0)),
        Form::Fours => (admitted.unit <= n) & ((n <= admitted.limit) & (n % 4 == 0)),
    }
}
