// Whole blocks, of bytes, of f32 soft values, and of symbols of any width. Refusals 1, 2, 3, 16, 11, 10, 5, 6, in every call.
ghost use Rattle.std.specs.Prelude.{◌≡◌};
ghost use Rattle.blocks.specs.Answer.{moved};
ghost use Rattle.symbols.specs.Answer.{moved_symbols};
ghost use Rattle.flat.specs.Flat.{set_of, lent_block, lent_symbols, number_of};

use flat::SET;
use laws::Way;

// Moves a block of entries of any kind, either way: bytes, soft values.
pub fn move_block<T: Copy>(way: Way, set: &[u32; SET], src: &[T], dst: &mut [T]) -> u32
    ensures number { result ≡ number_of (lent_block set.now src.now dst.old) }
    ensures output { (z : T) → dst.new
        ≡ moved way (set_of set.now) z src.now dst.old }
{
    flat::number(blocks::move_block(way, flat::set_of(set), src, dst))
}

// Moves a block of symbols of `width` bytes, either way.
pub fn move_symbols(way: Way, set: &[u32; SET], width: u32, src: &[u8], dst: &mut [u8]) -> u32
    ensures number { result ≡ number_of (lent_symbols set.now width src.now dst.old) }
    ensures output { dst.new
        ≡ moved_symbols way (set_of set.now) width src.now dst.old }
{
    flat::number(symbols::move_symbols(way, flat::set_of(set), width, src, dst))
}
