// The padding report held against the second computation: of every K its R and C, how many cells its list goes over, and how many of their addresses are
// K or more; and totals against sums of these, of 35 sizes each and from 40 on. Held against the lists of the next sizes, it is wrong on purpose.
use crate::chosen::turbo_set;
use crate::count;
use crate::count::Count;
use crate::num::{differ, sum, weigh};
use laws::Way;
use second::num::plus;
use second::{Sides, Whole};
use system::System;
use wcdma_report::{Figures, Totals};

// The figures of one K; each weighs itself times K + 1. Addresses, cells and padding are counted from the list.
fn figures(f: Figures, s: Sides, w: Whole) -> Count {
    let r = f.r as usize;
    let c = f.c as usize;
    let cells = f.cells as usize;
    let pads = f.pads as usize;
    Count {
        sets: 1,
        calls: 1,
        addresses: w.addresses as u64,
        cells: w.cells as u64,
        padding: w.padding as u64,
        weight: weigh(f.k as usize, plus(plus(r, c), plus(cells, pads))),
        differences: sum(
            sum(differ(r, s.rows), differ(c, s.columns)),
            sum(differ(cells, w.cells), differ(pads, w.padding)),
        ),
    }
}

// One K, against the list of K + `off`.
fn one(k: u32, off: u32) -> Count {
    let n = k.wrapping_add(off);
    let mut list = [0u16; 12288];
    let w = second::list_of(Way::Interleaver, turbo_set(n), &mut list);
    match wcdma_report::figures_of(k) {
        Ok(f) => figures(f, second::sides_of(n as usize), w),
        Err(_) => Count::wrong(1),
    }
}

// Every K from the first to the last.
fn sizes(first: u32, last: u32, off: u32) -> Count {
    let mut c = Count::default();
    for k in first..=last {
        c = c.with(one(k, off));
    }
    c
}

// Totals, against what was counted; each weighs itself.
fn totals(t: Totals, c: Count) -> Count {
    Count {
        sets: 0,
        calls: 1,
        addresses: 0,
        cells: 0,
        padding: 0,
        weight: sum(t.sizes as u64, sum(t.cells as u64, t.pads as u64)),
        differences: sum(
            differ(t.sizes as usize, c.sets as usize),
            sum(
                differ(t.cells as usize, c.cells as usize),
                differ(t.pads as usize, c.padding as usize),
            ),
        ),
    }
}

fn range(first: u32, last: u32, c: Count) -> Count {
    match wcdma_report::totals_of(first, last) {
        Ok(t) => totals(t, c),
        Err(_) => Count::wrong(1),
    }
}

// The sizes from a first K to a last, their totals, and those from 40 to the last.
fn stretch(first: u32, last: u32, off: u32, so_far: Count) -> Count {
    let here = sizes(first, last, off);
    let c = so_far.with(here);
    c.with(range(first, last, here)).with(range(40, last, c))
}

// 145 times 35 sizes: 40 to 5,114.
fn each(off: u32) -> Count {
    let mut c = Count::default();
    for i in 0..145 {
        c = stretch(i * 35 + 40, i * 35 + 74, off, c);
    }
    c
}

// A line for all of them; what is counted against other lists is not in the program's last line.
pub fn show(system: System, title: &[u8], off: u32) -> u64 {
    let c = each(off);
    count::walks_line(system, title, c);
    c.differences
}
