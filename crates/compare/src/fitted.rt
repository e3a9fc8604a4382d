// The size that refusal 3 carries held against going through all sizes: of profiles 0 to 10 and bits 0 to 7, from 6,200 down to 0, so that the last one
// that was listed is the least not below. Going up, it is the greatest below, which is wrong on purpose.
use crate::chosen::carrier_set;
use crate::count::number;
use crate::num::sum;
use sets::Refusal;
use system::System;

// The size that was listed last; how many were refused with 3, how many of these carried 0, what they carried in all, and at how many refusals it was
// another size than expected.
#[derive(Clone, Copy, Default)]
struct Run {
    last: u32,
    sizes: u64,
    none: u64,
    total: u64,
    differences: u64,
}

impl Run {
    // A refusal whose size is to be `right`.
    fn with(self, x: Refusal, right: u32) -> Self {
        Run {
            sizes: sum(self.sizes, u64::from(x.number == 3)),
            none: sum(self.none, u64::from(x.number == 3 && x.size == 0)),
            total: sum(self.total, u64::from(x.size)),
            differences: sum(self.differences, u64::from(x.size != right)),
            ..self
        }
    }

    // The size n is listed.
    fn at(self, n: u32) -> Self {
        Run { last: n, ..self }
    }
}

// A refused set. A number behind 3 says that the size is listed.
fn refused(x: Refusal, n: u32, r: Run) -> Run {
    if x.number == 3 {
        let last = r.last;
        return r.with(x, last);
    }
    if x.number > 3 {
        return r.with(x, 0).at(n);
    }
    r.with(x, 0)
}

// One size.
fn one(profile: u32, bits: u32, n: u32, r: Run) -> Run {
    match sets::test(carrier_set(profile, bits, n)) {
        Ok(()) => r.at(n),
        Err(x) => refused(x, n, r),
    }
}

// All sizes of a profile and bits.
fn sizes(profile: u32, bits: u32, up: bool, so_far: Run) -> Run {
    let mut r = so_far.at(0);
    for i in 0..=6200 {
        r = one(profile, bits, if up { i } else { 6200 - i }, r);
    }
    r
}

fn each(up: bool) -> Run {
    let mut r = Run::default();
    for profile in 0..=10 {
        for bits in 0..=7 {
            r = sizes(profile, bits, up, r);
        }
    }
    r
}

// A line for all of them; what is counted going up is not in the program's last line.
pub fn show(system: System, title: &[u8], up: bool) -> u64 {
    let r = each(up);
    let _ = system.print(title);
    number(system, b": sizes ", r.sizes);
    number(system, b" none ", r.none);
    number(system, b" total ", r.total);
    number(system, b" differences ", r.differences);
    let _ = system.print(b"\n");
    r.differences
}
