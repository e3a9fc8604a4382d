// What is fed, and what must come out, by the closed form: it divides, and knows neither record nor store.
ghost use Rattle.std.specs.Prelude.{◌<◌, ◌≤◌};

use super::standards;
use super::standards::rest;

// What bytes went through: an interleaver, a deinterleaver, or the one and then the other.
#[derive(Clone, Copy)]
pub enum Path {
    There,
    Back,
    Both,
}

// Byte t of the input.
fn sample(t: usize) -> u8 {
    let n = t % 40000;
    ((n * 13 + n / 7 * 5 + n / 191) % 251) as u8
}

pub fn samples(input: &mut [u8]) {
    for (t, b) in input.iter_mut().enumerate() {
        *b = sample(t);
    }
}

// The rings that byte t waits in, all in all, where the machines began at this branch.
fn rings(path: Path, branches: usize, branch: usize, t: usize) -> usize
    requires { (0 < branches) × (branches ≤ 52) }
    ensures { result ≤ 51 }
{
    let j = rest(rest(branch, branches) + rest(t, branches), branches);
    match path {
        Path::There => j,
        Path::Back => branches - 1 - j,
        Path::Both => branches - 1,
    }
}

// The byte that must come out at place t.
fn due(kind: u32, path: Path, branch: usize, input: &[u8], t: usize, f: u8) -> u8 {
    let x = rings(path, standards::branches(kind), branch, t);
    let from = t.checked_sub(standards::delay(kind, x));
    from.and_then(|u| input.get(u)).copied().unwrap_or(f)
}

// How many bytes of out are not what they must be.
pub fn differences(kind: u32, path: Path, branch: usize, input: &[u8], out: &[u8], f: u8) -> u64 {
    out.iter()
        .enumerate()
        .filter(|(t, b)| **b != due(kind, path, branch, input, *t, f))
        .count() as u64
}

pub fn checksum(out: &[u8]) -> u64 {
    out.iter().fold(0, |sum: u64, b| (sum % 65521 * 31 + u64::from(*b)) % 65521)
}
