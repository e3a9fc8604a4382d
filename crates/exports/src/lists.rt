// A parameter set tested, the size that would have fitted, LTE's own factors, one address, a list of addresses.
ghost use Rattle.std.specs.Prelude.{◌≡◌, ℕ};
ghost use Rattle.laws.specs.declared.Way.TheVariants.{Interleaver, Deinterleaver};
ghost use Rattle.sets.specs.Verdict.{verdict_of, fitting_of};
ghost use Rattle.lte.specs.Factors.{given_of};
ghost use Rattle.walks.specs.declared.Values.{Values};
ghost use Rattle.walks.specs.Answer.{slice_of, found_of};
ghost use Rattle.flat.specs.Flat.{set_of, walk_of, lent_walk, number_of, out_of, factors_list};

use flat::{FACTORS, SET};
use laws::Way;

// The test of a set. Refusals 1, 2, 3, 16, 11, 10.
#[unsafe(no_mangle)]
pub extern "C" fn interleaver_test(set: &[u32; SET]) -> u32
    ensures { result ≡ number_of (verdict_of (set_of set.now)) }
{
    flat::number(sets::test(flat::set_of(set)))
}

// The size that refusal 3 of the set carries: the least listed N not below its own, or 0 if there is none. 0 where the set isn't refused with 3.
#[unsafe(no_mangle)]
pub extern "C" fn interleaver_fitting(set: &[u32; SET]) -> u32
    ensures { result ≡ fitting_of (verdict_of (set_of set.now)) }
{
    sets::verdict_size(flat::set_of(set))
}

// The factors of a K of LTE, 3GPP TS 36.212 table 5.1.3-3. Refusal 3.
#[unsafe(no_mangle)]
pub extern "C" fn interleaver_lte_factors(k: u32, factors: &mut [u32; FACTORS]) -> u32
    ensures number { result ≡ number_of (given_of k) }
    ensures factors { factors.new ≡ out_of (given_of k) factors_list factors.old }
{
    flat::given(lte::factors(k), factors)
}

// L(t). Refusals 1, 2, 3, 16, 11, 10, 4.
#[unsafe(no_mangle)]
pub extern "C" fn interleaver_address_l(set: &[u32; SET], t: u32, address: &mut u32) -> u32
    ensures number { result ≡ number_of (found_of Interleaver (set_of set.now) t) }
    ensures address { address.new
        ≡ out_of (found_of Interleaver (set_of set.now) t) (λ (a : ℕ). a) address.old }
{
    lent::lists::find(Way::Interleaver, set, t, address)
}

// M(k). Refusals 1, 2, 3, 16, 11, 10, 4.
#[unsafe(no_mangle)]
pub extern "C" fn interleaver_address_m(set: &[u32; SET], k: u32, address: &mut u32) -> u32
    ensures number { result ≡ number_of (found_of Deinterleaver (set_of set.now) k) }
    ensures address { address.new
        ≡ out_of (found_of Deinterleaver (set_of set.now) k) (λ (a : ℕ). a) address.old }
{
    lent::lists::find(Way::Deinterleaver, set, k, address)
}

// The walk for L. Refusals 1, 2, 3, 16, 11, 10, 9.
#[unsafe(no_mangle)]
pub extern "C" fn interleaver_walk_l(
    set: &[u32; SET],
    cell: &mut u32,
    out: &mut [u16],
    written: &mut u32,
    cells: &mut u32,
) -> u32
    ensures number { result ≡ number_of (lent_walk Interleaver set.now cell.old out.old) }
    ensures cell { cell.new
        ≡ out_of (lent_walk Interleaver set.now cell.old out.old)
        (λ (v : Values). v.next.cell) cell.old }
    ensures slice { out.new
        ≡ slice_of Interleaver (walk_of set.now cell.old) out.old }
    ensures written { written.new
        ≡ out_of (lent_walk Interleaver set.now cell.old out.old)
        (λ (v : Values). v.written) written.old }
    ensures cells { cells.new
        ≡ out_of (lent_walk Interleaver set.now cell.old out.old)
        (λ (v : Values). v.cells) cells.old }
{
    lent::lists::walk_on(Way::Interleaver, set, cell, out, written, cells)
}

// The walk for M. Refusals 1, also for profiles 5, 8 and 9, 2, 3, 16, 11, 10, 9.
#[unsafe(no_mangle)]
pub extern "C" fn interleaver_walk_m(
    set: &[u32; SET],
    cell: &mut u32,
    out: &mut [u16],
    written: &mut u32,
    cells: &mut u32,
) -> u32
    ensures number { result ≡ number_of (lent_walk Deinterleaver set.now cell.old out.old) }
    ensures cell { cell.new
        ≡ out_of (lent_walk Deinterleaver set.now cell.old out.old)
        (λ (v : Values). v.next.cell) cell.old }
    ensures slice { out.new
        ≡ slice_of Deinterleaver (walk_of set.now cell.old) out.old }
    ensures written { written.new
        ≡ out_of (lent_walk Deinterleaver set.now cell.old out.old)
        (λ (v : Values). v.written) written.old }
    ensures cells { cells.new
        ≡ out_of (lent_walk Deinterleaver set.now cell.old out.old)
        (λ (v : Values). v.cells) cells.old }
{
    lent::lists::walk_on(Way::Deinterleaver, set, cell, out, written, cells)
}
