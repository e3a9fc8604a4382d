// Whether an entry's places lie in their ranges, by their bytes. No place reaches 256, so it is below its limit exactly if its first three bytes are 0 and the last is
// below the limit; a place that the kind lacks is below 1. Against a row of limits the compiler tests sixteen bytes at once.
ghost use Rattle.std.specs.Prelude.{◌≡◌, length};
ghost use Rattle.kinds.specs.Kinds.{sizes_of};
ghost use Rattle.gateway_form.specs.Limits.{Limits, bytes_below};

use kinds::sizes::Sizes;

// How many bytes the places have.
pub const PLACES: usize = 204;

// The limits of the bytes of a kind's places.
pub fn limits_of(kind: u32) -> [u8; PLACES]
    ensures { Limits (sizes_of kind) result }
{
    let z = Sizes::of(kind);
    let step = z.step as u8;
    let rings = z.branches - 1;
    let mut limits = [1u8; PLACES];
    let mut limit = 0;
    let mut at = 3;
    for _ in 0..rings {
        limit += step;
        limits[at] = limit;
        at += 4;
    }
    limits
}

// Whether each byte is below its limit. All are looked at, whatever is found.
pub fn bytes_below(bytes: &[u8], limits: &[u8; PLACES]) -> bool
    requires { length bytes.now ≡ 204 }
    ensures { result ≡ bytes_below bytes.now limits.now }
{
    let mut ok = true;
    for i in 0..PLACES {
        if bytes[i] >= limits[i] {
            ok = false;
        }
    }
    ok
}
