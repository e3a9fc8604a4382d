// The values of a reception: f32 values of 4 bytes, little end first. A not-a-number stands for a blank.
ghost use Rattle.std.specs.Prelude.{◌≡◌, ◌≤◌, ◌<◌};
ghost use Rattle.std.specs.Float.{binary32};
ghost use Rattle.std.specs.Float.Ieee.{nan_bits};

use super::BYTES;

// The bits of value t.
pub(super) fn bits_at(bytes: &[u8; BYTES], t: usize) -> u32
    requires { t < 6145 }
{
    let i = 4 * t;
    u32::from_le_bytes([bytes[i], bytes[i + 1], bytes[i + 2], bytes[i + 3]])
}

// Whether bits are a not-a-number's: an exponent all of ones and a mantissa that isn't 0.
fn is_blank(bits: u32) -> bool
    ensures { result ≡ nan_bits binary32 bits }
{
    bits % 2147483648 > 2139095040
}

pub(super) fn value_of(bits: u32) -> f32 {
    if is_blank(bits) {
        return 0.0;
    }
    f32::from_bits(bits)
}

pub(super) fn presence_of(bits: u32) -> u8 {
    u8::from(!is_blank(bits))
}

// How many values a file of so many bytes counts as: n only where it has just n, and n + 1 where it has more.
pub(super) fn count(bytes: usize, n: usize) -> usize
    requires { n ≤ 6144 }
    ensures { result ≤ 6145 }
{
    if bytes / 4 < n {
        return bytes / 4;
    }
    if bytes > 4 * n {
        return n + 1;
    }
    n
}
