// One address, a list of addresses.
ghost use Rattle.std.specs.Prelude.{◌≡◌, ℕ};
ghost use Rattle.walks.specs.declared.Values.{Values};
ghost use Rattle.walks.specs.Answer.{slice_of, found_of};
ghost use Rattle.flat.specs.Flat.{set_of, walk_of, lent_walk, number_of, out_of};

use flat::SET;
use laws::Way;

// One address of the set that is lent, either way.
pub fn find(way: Way, set: &[u32; SET], x: u32, address: &mut u32) -> u32
    ensures number { result ≡ number_of (found_of way (set_of set.now) x) }
    ensures address { address.new
        ≡ out_of (found_of way (set_of set.now) x) (λ (a : ℕ). a) address.old }
{
    flat::found(walks::address_by(way, flat::set_of(set), x), address)
}

// The walk of a way from `cell` on, which moves on.
pub fn walk_on(
    way: Way,
    set: &[u32; SET],
    cell: &mut u32,
    out: &mut [u16],
    written: &mut u32,
    cells: &mut u32,
) -> u32
    ensures number { result ≡ number_of (lent_walk way set.now cell.old out.old) }
    ensures cell { cell.new
        ≡ out_of (lent_walk way set.now cell.old out.old)
        (λ (v : Values). v.next.cell) cell.old }
    ensures slice { out.new
        ≡ slice_of way (walk_of set.now cell.old) out.old }
    ensures written { written.new
        ≡ out_of (lent_walk way set.now cell.old out.old)
        (λ (v : Values). v.written) written.old }
    ensures cells { cells.new
        ≡ out_of (lent_walk way set.now cell.old out.old)
        (λ (v : Values). v.cells) cells.old }
{
    flat::walked(
        walks::walk_by(way, flat::walk_of(set, *cell), out),
        cell,
        written,
        cells,
    )
}
