// The size that would have fitted: the least listed N not below the one asked for, worked out by the form of the profile's sizes. No list is searched:
// of five doublings the next is taken, multiples are rounded up, and of a range it is the first number, or N itself.
#![tactic(auto)]

ghost use Rattle.std.specs.Prelude.{true, ◌&&◌, ◌≡◌, max, ◌<◌, leb, eqb};
ghost use Rattle.laws.specs.Members.{one_of, multiple};
ghost use Rattle.laws.specs.Next.{Next};
ghost use Rattle.profiles.specs.declared.Form.TheVariants.{Tiered, Fours};
ghost use Rattle.profiles.specs.Profiles.{doubles, size_in};
ghost use Rattle.sizes.specs.Size.{size};
ghost use Rattle.sizes.specs.Tests.{profile_listed, bits_listed};
ghost use Rattle.fitting.specs.Fitting.{fitting};

use profiles::{Form, admitted_by, group_by, step_by};
use sizes::Size;

// The next size of each form: the least that is not below n, or 0 if there is none. Here the only one, u.
fn next_single(u: u32, n: u32) -> u32
    requires { 0 < u }
    ensures { Next (λ k. eqb k u) n result }
{
    if u < n { 0 } else { u }
}

// Of u and twice, four, eight and sixteen times as much. (Five tests in a row, as the contract lists the sizes: of a loop that doubles the proof would have
// to say how far it has come, by a list of its own.)
fn next_doubling(u: u32, n: u32) -> u32
    requires { (0 < u) × (u < 65536) }
    ensures { Next (λ k. one_of k (doubles u)) n result }
{
    if n <= u {
        return u;
    }
    if n <= 2 * u {
        return 2 * u;
    }
    if n <= 4 * u {
        return 4 * u;
    }
    if n <= 8 * u {
        return 8 * u;
    }
    if n <= 16 * u {
        return 16 * u;
    }
    0
}

// Of the multiples of u from u to m.
fn next_multiple(u: u32, m: u32, n: u32) -> u32
    requires { (0 < u) × (u < 65536) × (m < 65536) }
    ensures { Next (multiple u m) n result }
{
    if n > m {
        return 0;
    }
    // (One division, where `next_multiple_of` of std makes two.)
    let up = (n.max(1) + (u - 1)) / u * u;
    if up > m { 0 } else { up }
}

// Of the numbers from u to m.
fn next_in_range(u: u32, m: u32, n: u32) -> u32
    requires { 0 < u }
    ensures { Next (λ k. leb u k && leb k m) n result }
{
    let first = n.max(u);
    if first > m { 0 } else { first }
}

// Of those that LTE's steps lead to.
fn next_tiered(u: u32, m: u32, n: u32) -> u32
    requires { (0 < u) × (m < 65536) }
    ensures { Next (size_in Tiered u m 1) n result }
{
    let first = n.max(u);
    next_multiple(step_by(first), m, first)
}

// Of the multiples of 4 from u to m.
fn next_by_four(u: u32, m: u32, n: u32) -> u32
    requires { (0 < u) × (m < 65536) }
    ensures { Next (size_in Fours u m 1) n result }
{
    next_multiple(4, m, n.max(u))
}

// By the profile's form. The bits are listed, so that no product wraps.
fn next_listed(size: Size) -> u32
    requires { (profile_listed size ≡ true) × (bits_listed size ≡ true) }
    ensures { result ≡ fitting size }
{
    let b = size.bits;
    let n = size.n;
    let admitted = admitted_by(size.profile);
    let u = admitted.unit * b;
    match admitted.form {
        Form::Only => next_single(u, n),
        Form::Doubled => next_doubling(u, n),
        Form::Multiple => next_multiple(u, admitted.limit, n),
        Form::Grouped => next_multiple(admitted.unit * group_by(b), admitted.limit, n),
        Form::Range => next_in_range(admitted.unit, admitted.limit, n),
        Form::Tiered => next_tiered(admitted.unit, admitted.limit, n),
        Form::Fours => next_by_four(admitted.unit, admitted.limit, n),
    }
}

// Of any numbers. Where the profile or the bits aren't listed, no N is. (Three numbers, and no `Size`, which every caller would copy.)
pub fn fitting_of(profile: u32, bits: u32, n: u32) -> u32
    ensures { result ≡ fitting (size profile bits n) }
{
    let size = Size { profile, bits, n };
    if !sizes::profile_listed(size) {
        return 0;
    }
    if !sizes::bits_listed(size) {
        return 0;
    }
    next_listed(size)
}
