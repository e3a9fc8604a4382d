// Whole blocks, of bytes, of f32 soft values, and of symbols of any width. Refusals 1, 2, 3, 16, 11, 10, 5, 6, in every call.
ghost use Rattle.std.specs.Prelude.{◌≡◌};
ghost use Rattle.std.specs.Float.{nan};
ghost use Rattle.laws.specs.declared.Way.TheVariants.{Interleaver, Deinterleaver};
ghost use Rattle.blocks.specs.Answer.{moved};
ghost use Rattle.symbols.specs.Answer.{moved_symbols};
ghost use Rattle.flat.specs.Flat.{set_of, lent_block, lent_symbols, number_of};

use flat::SET;
use laws::Way;

// Interleaves a block of bytes.
#[unsafe(no_mangle)]
pub extern "C" fn interleaver_interleave_bytes(set: &[u32; SET], src: &[u8], dst: &mut [u8]) -> u32
    ensures number { result ≡ number_of (lent_block set.now src.now dst.old) }
    ensures output { dst.new
        ≡ moved Interleaver (set_of set.now) 0 src.now dst.old }
{
    lent::moves::move_block::<u8>(Way::Interleaver, set, src, dst)
}

// Deinterleaves a block of bytes.
#[unsafe(no_mangle)]
pub extern "C" fn interleaver_deinterleave_bytes(
    set: &[u32; SET],
    src: &[u8],
    dst: &mut [u8],
) -> u32
    ensures number { result ≡ number_of (lent_block set.now src.now dst.old) }
    ensures output { dst.new
        ≡ moved Deinterleaver (set_of set.now) 0 src.now dst.old }
{
    lent::moves::move_block::<u8>(Way::Deinterleaver, set, src, dst)
}

// Interleaves a block of soft values.
#[unsafe(no_mangle)]
pub extern "C" fn interleaver_interleave_soft(set: &[u32; SET], src: &[f32], dst: &mut [f32]) -> u32
    ensures number { result ≡ number_of (lent_block set.now src.now dst.old) }
    ensures output { dst.new
        ≡ moved Interleaver (set_of set.now) nan src.now dst.old }
{
    lent::moves::move_block::<f32>(Way::Interleaver, set, src, dst)
}

// Deinterleaves a block of soft values.
#[unsafe(no_mangle)]
pub extern "C" fn interleaver_deinterleave_soft(
    set: &[u32; SET],
    src: &[f32],
    dst: &mut [f32],
) -> u32
    ensures number { result ≡ number_of (lent_block set.now src.now dst.old) }
    ensures output { dst.new
        ≡ moved Deinterleaver (set_of set.now) nan src.now dst.old }
{
    lent::moves::move_block::<f32>(Way::Deinterleaver, set, src, dst)
}

// Interleaves a block of symbols of `width` bytes.
#[unsafe(no_mangle)]
pub extern "C" fn interleaver_interleave_symbols(
    set: &[u32; SET],
    width: u32,
    src: &[u8],
    dst: &mut [u8],
) -> u32
    ensures number { result ≡ number_of (lent_symbols set.now width src.now dst.old) }
    ensures output { dst.new
        ≡ moved_symbols Interleaver (set_of set.now) width src.now dst.old }
{
    lent::moves::move_symbols(Way::Interleaver, set, width, src, dst)
}

// Deinterleaves a block of symbols of `width` bytes.
#[unsafe(no_mangle)]
pub extern "C" fn interleaver_deinterleave_symbols(
    set: &[u32; SET],
    width: u32,
    src: &[u8],
    dst: &mut [u8],
) -> u32
    ensures number { result ≡ number_of (lent_symbols set.now width src.now dst.old) }
    ensures output { dst.new
        ≡ moved_symbols Deinterleaver (set_of set.now) width src.now dst.old }
{
    lent::moves::move_symbols(Way::Deinterleaver, set, width, src, dst)
}
