// The padding report of request 11: for a size K of the WCDMA turbo interleaver the R, C, cells and padding of its rectangle, and their totals from a
// first K to a last. Nothing is walked: the cells are R times C, and the padding is what K leaves of them.
#![tactic(auto)]

ghost use Rattle.std.specs.Prelude.{◌≡◌};
ghost use Rattle.laws.specs.Outcome.{say};
ghost use Rattle.wcdma_shape.specs.Rectangle.{Size};
ghost use Rattle.wcdma_report.specs.Report.{is_size, is_range, turbo_set, figures, totals, figures_of, totals_of, Between};

use sets::{Refusal, Set};

// A line of the report.
#[derive(Clone, Copy)]
pub struct Figures {
    pub k: u32,
    pub r: u32,
    pub c: u32,
    pub cells: u32,
    pub pads: u32,
}

// Its last line: how many sizes, and the sums of their cells and of their padding.
#[derive(Clone, Copy)]
pub struct Totals {
    pub sizes: u32,
    pub cells: u32,
    pub pads: u32,
}

// The figures of one K, or the refusal.
pub type Reported = Result<Figures, Refusal>;

// The totals, or the number of the refusal.
pub type Summed = Result<Totals, u32>;

// Whether K is 40 to 5,114.
pub fn is_size(k: u32) -> bool
    ensures { result ≡ is_size k }
{
    (40 <= k) & (k <= 5114)
}

// Whether a first K and a last are both 40 to 5,114, and the first isn't above the last.
pub fn is_range(first: u32, last: u32) -> bool
    ensures { result ≡ is_range first last }
{
    is_size(first) & (is_size(last) & (first <= last))
}

// The set of profile 5 and size K.
fn turbo_set(k: u32) -> Set
    ensures { result ≡ turbo_set k }
{
    Set {
        profile: 5,
        bits: 1,
        n: k,
        stream: 1,
        factors: sets::NO_FACTORS,
    }
}

fn figures_in(k: u32) -> Figures
    requires { Size k }
    ensures { result ≡ figures k }
{
    let z = wcdma_shape::sides_of(k as usize);
    let r = z.r as u32;
    let c = z.c as u32;
    let cells = r * c;
    Figures {
        k,
        r,
        c,
        cells,
        pads: cells - k,
    }
}

// The figures of one K. Refusal 3, where it isn't 40 to 5,114.
pub fn figures_of(k: u32) -> Reported
    ensures { say result ≡ figures_of k }
{
    if !is_size(k) {
        return Err(sets::refusal_of(turbo_set(k), 3));
    }
    Ok(figures_in(k))
}

fn totals_in(first: u32, last: u32) -> Totals
    requires { Between first last }
    ensures { result ≡ totals first last }
{
    let mut sizes = 0;
    let mut cells = 0;
    let mut pads = 0;
    for k in first..last + 1 {
        let f = figures_in(k);
        sizes += 1;
        cells += f.cells;
        pads += f.pads;
    }
    Totals { sizes, cells, pads }
}

// The totals from a first K to a last. Refusal 3, where either isn't 40 to 5,114, or the first is above the last.
pub fn totals_of(first: u32, last: u32) -> Summed
    ensures { say result ≡ totals_of first last }
{
    if !is_range(first, last) {
        return Err(3);
    }
    Ok(totals_in(first, last))
}
