// An answer taken apart for C: what is lent becomes a set or a record, and what is answered becomes a number, 0 where the call is done, and
// out-parameters, which a refused call leaves as they are.
#![tactic(auto)]

pub mod records; // records.rt: the record of a byte stream

ghost use Rattle.std.specs.Prelude.{◌≡◌, ℕ};
ghost use Rattle.laws.specs.Outcome.{say};
ghost use Rattle.walks.specs.declared.Values.{Values};
ghost use Rattle.flat.specs.Flat.{set_of, walk_of, number_by, number_of, out_of, factors_list, figures_list, totals_list};

use sets::{Factors, Refusal, Set};
use walks::{Found, Walk, Walked};
use wcdma_report::{Figures, Totals};

// How many numbers a set is.
pub const SET: usize = 8;

// How many of them are its factors.
pub const FACTORS: usize = 4;

// How many numbers a line of the padding report is.
pub const FIGURES: usize = 5;

// How many its totals are.
pub const TOTALS: usize = 3;

// The set that is lent: profile, bits, n, stream, and the four factors.
pub fn set_of(set: &[u32; SET]) -> Set
    ensures { result ≡ set_of set.now }
{
    Set {
        profile: set[0],
        bits: set[1],
        n: set[2],
        stream: set[3],
        factors: Factors {
            first: set[4],
            second: set[5],
            third: set[6],
            fourth: set[7],
        },
    }
}

// The number of an answer: 0 where the call is done.
pub fn number<T: Copy>(answer: Result<T, Refusal>) -> u32
    ensures { result ≡ number_of (say answer) }
{
    match answer {
        Ok(_) => 0,
        Err(x) => x.number,
    }
}

// Takes the answer of the standard's factors apart.
pub fn given(g: Result<Factors, Refusal>, factors: &mut [u32; FACTORS]) -> u32
    ensures number { result ≡ number_of (say g) }
    ensures factors { factors.new ≡ out_of (say g) factors_list factors.old }
{
    if let Ok(f) = g {
        *factors = [f.first, f.second, f.third, f.fourth];
    }
    number(g)
}

// Takes the figures of one K apart.
pub fn reported(r: Result<Figures, Refusal>, figures: &mut [u32; FIGURES]) -> u32
    ensures number { result ≡ number_of (say r) }
    ensures figures { figures.new ≡ out_of (say r) figures_list figures.old }
{
    if let Ok(f) = r {
        *figures = [f.k, f.r, f.c, f.cells, f.pads];
    }
    number(r)
}

// Takes the totals of a range apart. A range has no set, so a refusal of it is its number.
pub fn summed(s: Result<Totals, u32>, totals: &mut [u32; TOTALS]) -> u32
    ensures number { result ≡ number_by (λ (k : ℕ). k) (say s) }
    ensures totals { totals.new ≡ out_of (say s) totals_list totals.old }
{
    match s {
        Ok(t) => {
            *totals = [t.sizes, t.cells, t.pads];
            0
        }
        Err(k) => k,
    }
}

// Takes the answer for one address apart.
pub fn found(f: Found, address: &mut u32) -> u32
    ensures number { result ≡ number_of (say f) }
    ensures address { address.new ≡ out_of (say f) (λ (a : ℕ). a) address.old }
{
    if let Ok(a) = f {
        *address = a;
    }
    number(f)
}

// A walk's record, as it is lent.
pub fn walk_of(set: &[u32; SET], cell: u32) -> Walk
    ensures { result ≡ walk_of set.now cell }
{
    let set = set_of(set);
    Walk { set, cell }
}

// Takes the answer of a walk apart.
pub fn walked(w: Walked, cell: &mut u32, written: &mut u32, cells: &mut u32) -> u32
    ensures number { result ≡ number_of (say w) }
    ensures cell { cell.new ≡ out_of (say w) (λ (v : Values). v.next.cell) cell.old }
    ensures written { written.new ≡ out_of (say w) (λ (v : Values). v.written) written.old }
    ensures cells { cells.new ≡ out_of (say w) (λ (v : Values). v.cells) cells.old }
{
    if let Ok(v) = w {
        *cell = v.next.cell;
        *written = v.written;
        *cells = v.cells;
    }
    number(w)
}
