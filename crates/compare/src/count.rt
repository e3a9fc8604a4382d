// What was compared, and what differed. `weight` is of what the library itself gave: each address, or byte, times its place, from 1. It tells a
// comparison that looked at nothing, or at something else, whatever the differences are.
use crate::num::sum;
use system::System;

#[derive(Clone, Copy, Default)]
pub struct Count {
    pub sets: u64,
    pub calls: u64,
    pub addresses: u64,
    pub cells: u64,
    pub padding: u64,
    pub weight: u64,
    pub differences: u64,
}

impl Count {
    pub fn with(self, more: Count) -> Self {
        Count {
            sets: sum(self.sets, more.sets),
            calls: sum(self.calls, more.calls),
            addresses: sum(self.addresses, more.addresses),
            cells: sum(self.cells, more.cells),
            padding: sum(self.padding, more.padding),
            weight: sum(self.weight, more.weight),
            differences: sum(self.differences, more.differences),
        }
    }

    // Differences alone.
    pub fn wrong(n: u64) -> Self {
        Count {
            differences: n,
            ..Count::default()
        }
    }
}

pub fn number(system: System, text: &[u8], n: u64) {
    let _ = system.print(text);
    let mut digits = [0u8; 20];
    let k = io::decimal(n, &mut digits);
    let _ = system.print(&digits[..k]);
}

// A line for walks.
pub fn walks_line(system: System, title: &[u8], c: Count) {
    let _ = system.print(title);
    number(system, b": sets ", c.sets);
    number(system, b" calls ", c.calls);
    number(system, b" addresses ", c.addresses);
    number(system, b" cells ", c.cells);
    number(system, b" padding ", c.padding);
    number(system, b" weight ", c.weight);
    number(system, b" differences ", c.differences);
    let _ = system.print(b"\n");
}

// A line for blocks and single addresses, which have no cells.
pub fn short_line(system: System, title: &[u8], c: Count) {
    let _ = system.print(title);
    number(system, b": sets ", c.sets);
    number(system, b" calls ", c.calls);
    number(system, b" addresses ", c.addresses);
    number(system, b" weight ", c.weight);
    number(system, b" differences ", c.differences);
    let _ = system.print(b"\n");
}

pub fn last_line(system: System, n: u64) {
    number(system, b"differences ", n);
    let _ = system.print(b"\n");
}

// How many sets were tried, how many of them were accepted, and at how many the test gave another number than trying.
#[derive(Clone, Copy, Default)]
pub struct Tried {
    pub sets: u64,
    pub accepted: u64,
    pub differences: u64,
}

impl Tried {
    // One more set.
    pub fn with(self, got: u32, right: u32) -> Self {
        Tried {
            sets: sum(self.sets, 1),
            accepted: sum(self.accepted, u64::from(got == 0)),
            differences: sum(self.differences, u64::from(got != right)),
        }
    }
}

// A line for the test of sets. Gives the differences back.
pub fn tried_line(system: System, title: &[u8], t: Tried) -> u64 {
    let _ = system.print(title);
    number(system, b": sets ", t.sets);
    number(system, b" accepted ", t.accepted);
    number(system, b" differences ", t.differences);
    let _ = system.print(b"\n");
    t.differences
}
