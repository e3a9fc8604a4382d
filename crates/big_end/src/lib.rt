// Numbers in bytes, big end first: of 4 bytes, as headers have them, and of 2, as addresses are. Inner functions: whoever calls them has tested that the
// bytes are there.
#![tactic(auto)]

ghost use Rattle.std.specs.Prelude.{◌≡◌, ◌+◌, ◌≤◌, ◌<◌, length};
ghost use Rattle.std.proofs.lemmas.List.Edits.{sets};
ghost use Rattle.big_end.specs.Numbers.{number_at, pair_at, number_bytes, pair_bytes};

// The number of 4 bytes at a place.
pub fn number_at(bytes: &[u8], at: usize) -> u32
    requires { at + 4 ≤ length bytes.now }
    ensures { result ≡ number_at bytes.now at }
{
    u32::from_be_bytes([bytes[at], bytes[at + 1], bytes[at + 2], bytes[at + 3]])
}

// The number of 2 bytes at a place.
pub fn pair_at(bytes: &[u8], at: usize) -> u16
    requires { at + 2 ≤ length bytes.now }
    ensures { result ≡ pair_at bytes.now at }
{
    u16::from_be_bytes([bytes[at], bytes[at + 1]])
}

// Stores a number's 4 bytes.
pub fn put_number(out: &mut [u8], at: usize, v: u32)
    requires { at + 4 ≤ length out.old }
    ensures { out.new ≡ sets out.old at (number_bytes v) }
{
    out[at..at + 4].copy_from_slice(&v.to_be_bytes());
}

// Stores a number's 2 bytes.
pub fn put_pair(out: &mut [u8], at: usize, v: u16)
    requires { at + 2 ≤ length out.old }
    ensures { out.new ≡ sets out.old at (pair_bytes v) }
{
    out[at..at + 2].copy_from_slice(&v.to_be_bytes());
}
