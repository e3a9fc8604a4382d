// Where the bytes of a burst in the channel come out of the deinterleaver of a kind, and the least distance between any two of them. The burst
// begins at channel byte `at`, counted from the start of the machine; its bytes are counted from 0. An unknown kind is taken for ATSC.
#![tactic(auto)]

ghost use Rattle.std.specs.Prelude.{◌≡◌, ◌+◌, ◌-◌, ◌≤◌, ◌<◌};
ghost use Rattle.kinds.specs.Kinds.{place_in};
ghost use Rattle.channel.specs.Nearest.{delay_of, apart, nearest_before, nearest_of};

use kinds::sizes::Sizes;

// How many places behind its own number channel byte a comes out.
fn delay(kind: u32, a: u64) -> u64
    ensures { (result ≡ delay_of kind a) × (result ≤ 45084) }
{
    let z = Sizes::of(kind);
    let branches = z.branches as u64;
    let step = z.step as u64;
    branches * step * (branches - 1 - a % branches)
}

// Where byte i comes out.
pub fn place(kind: u32, at: u32, i: u32) -> u64
    ensures { result ≡ place_in kind (at + i) }
{
    let a = at as u64 + i as u64;
    a + delay(kind, a)
}

// How far apart bytes i and k come out.
fn distance(kind: u32, at: u32, i: u32, k: u32) -> u64
    ensures { result ≡ apart kind at i k }
{
    let u = place(kind, at, i);
    let v = place(kind, at, k);
    u.abs_diff(v)
}

// The least distance of byte k from those before it.
fn from_earlier(kind: u32, at: u32, k: u32) -> u64
    requires { 0 < k }
    ensures { result ≡ nearest_before kind at (k - 1) }
{
    let mut d = distance(kind, at, 0, k);
    for i in 1..k {
        d = d.min(distance(kind, at, i, k));
    }
    d
}

// The least distance between any two of the first n; where they are fewer than two, that of the first two.
pub fn nearest(kind: u32, at: u32, n: u32) -> u64
    ensures { result ≡ nearest_of kind at n }
{
    let mut d = from_earlier(kind, at, 1);
    for k in 2..n {
        d = d.min(from_earlier(kind, at, k));
    }
    d
}
