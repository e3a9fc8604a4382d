// What a set must have beside its size and stream: the factors of profiles 8 and 9. Both are asked over the record of couples: of profile 8, K is its n, f1
// and f2 are its p0 and p1. `squares` is true for profile 8, false for profile 9.
ghost use Rattle.std.specs.Prelude.{◌≡◌};
ghost use Rattle.laws.specs.Outcome.{first};
ghost use Rattle.sets.specs.Factored.{range_of, apart_of, factor_lines, Sized, Testable};
ghost use Rattle.sets.specs.Verdict.{say_ruled};

use super::Ruled;
use couples::Couples;

// The factors are in their range: f1 and f2 from 1 to K - 1, P0 to P3 below N.
fn factors_in(squares: bool, c: Couples) -> bool
    ensures { result ≡ range_of squares c }
{
    if squares {
        return quadratic::is_within(c.n, c.p0) & quadratic::is_within(c.n, c.p1);
    }
    couples::all_below(c)
}

// No two positions share an address, no two outputs a couple. The range of the factors has been tested.
fn factors_apart(squares: bool, c: Couples) -> bool
    requires { Testable squares c }
    ensures { result ≡ apart_of squares c }
{
    if squares {
        return quadratic::all_apart(c.n, c.p0, c.p1);
    }
    couples::all_apart(c)
}

// Which line of the factors applies first, of a listed size: 11, 10.
pub(super) fn ruling_of(squares: bool, c: Couples) -> Ruled
    requires { Sized squares c }
    ensures { say_ruled result ≡ first (factor_lines squares c) }
{
    if !factors_in(squares, c) {
        return Err(11);
    }
    if !factors_apart(squares, c) {
        return Err(10);
    }
    Ok(())
}
