// Soft values as a program meets them: in the files that its arguments name, four bytes each, and in decimal.
#![tactic(auto)]

pub mod decimal; // decimal.rt: an f32 in decimal, exactly
mod bytes; // bytes.rt: the bytes of a file
mod values; // values.rt: the values of a reception, and which are there

ghost use Rattle.std.specs.Prelude.{◌≡◌, min, take, ◌≤◌};

use sets::Set;
use system::System;

// The values of a file that are looked at, and their bytes: at most one more than the largest table holds.
pub const VALUES: usize = 6145;

const BYTES: usize = 24580;

// A reception: its values, which of them are there, and how many came, of which no more is looked at than tells whether they are too many.
#[derive(Clone, Copy)]
pub struct Reception {
    values: [f32; VALUES],
    present: [u8; VALUES],
    count: usize,
}

// N as a length, which no accepted set has above 6,144.
pub fn size_of(set: Set) -> usize
    ensures { result ≡ min set.n 6144 }
{
    if set.n <= 6144 { set.n as usize } else { 6144 }
}

impl Reception {
    // One of which nothing came.
    pub fn new() -> Self
        ensures { result.count ≡ 0 }
    {
        Reception {
            values: [0.0; VALUES],
            present: [0; VALUES],
            count: 0,
        }
    }

    // Takes the reception in the file that argument i names. Whatever fails is said.
    pub fn read(&mut self, system: System, set: Set, i: usize) -> Option<()> {
        let mut bytes = [0u8; BYTES];
        let n = size_of(set);
        let k = bytes::read(system, i, &mut bytes[..4 * n + 4])?;
        let count = values::count(k, n);
        for t in 0..count {
            let bits = values::bits_at(&bytes, t);
            self.values[t] = values::value_of(bits);
            self.present[t] = values::presence_of(bits);
        }
        self.count = count;
        Some(())
    }

    pub fn values(&self) -> &[f32]
        ensures { result.now ≡ take self.now.count self.now.values }
    {
        self.values.get(..self.count).unwrap_or(&self.values)
    }

    // 1 for each value that is there, and 0 for each blank.
    pub fn present(&self) -> &[u8]
        ensures { result.now ≡ take self.now.count self.now.present }
    {
        self.present.get(..self.count).unwrap_or(&self.present)
    }
}
