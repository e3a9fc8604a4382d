// The padding report of WCDMA's turbo interleaver: the figures of one K, and the totals of a range.
ghost use Rattle.std.specs.Prelude.{◌≡◌, ℕ};
ghost use Rattle.wcdma_report.specs.Report.{figures_of, totals_of};
ghost use Rattle.flat.specs.Flat.{number_by, number_of, out_of, figures_list, totals_list};

use flat::{FIGURES, TOTALS};

// K, R, C, the cells and the padding of one K. Refusal 3.
#[unsafe(no_mangle)]
pub extern "C" fn interleaver_wcdma_figures(k: u32, figures: &mut [u32; FIGURES]) -> u32
    ensures number { result ≡ number_of (figures_of k) }
    ensures figures { figures.new ≡ out_of (figures_of k) figures_list figures.old }
{
    flat::reported(wcdma_report::figures_of(k), figures)
}

// How many sizes there are from a first K to a last, and the sums of their cells and of their padding. Refusal 3.
#[unsafe(no_mangle)]
pub extern "C" fn interleaver_wcdma_totals(first: u32, last: u32, totals: &mut [u32; TOTALS]) -> u32
    ensures number { result ≡ number_by (λ (k : ℕ). k) (totals_of first last) }
    ensures totals { totals.new ≡ out_of (totals_of first last) totals_list totals.old }
{
    flat::summed(wcdma_report::totals_of(first, last), totals)
}
