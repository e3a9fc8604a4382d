// Decimal numbers of one to ten digits.
#![tactic(auto)]

ghost use Rattle.std.specs.Prelude.{◌≡◌};
ghost use Rattle.numbers.specs.Decimal.{digit_in, read_from, said_by};

// The digit that a byte says.
#[tactic(auto, using(std::proofs::lemmas::Bool::Decides::nat_tests), unfolding(crate::specs::Decimal::digit_of))]
fn digit(b: u8) -> Option<u32>
    ensures { result ≡ digit_in b }
{
    match b {
        b'0'..=b'9' => Some(u32::from(b - b'0')),
        _ => None,
    }
}

#[tactic(auto, using(crate::specs::Decimal::read_end, crate::specs::Decimal::read_wrong, crate::specs::Decimal::read_large))]
fn digits(s: &[u8]) -> Option<u32>
    ensures { result ≡ read_from 0 s.now }
{
    let mut v: u32 = 0;
    for b in s {
        let d = digit(*b)?;
        v = v.checked_mul(10)?.checked_add(d)?;
    }
    Some(v)
}

// The number that a word says: one to ten decimal digits and nothing else, at most 4,294,967,295.
#[tactic(auto, using(std::proofs::lemmas::Bool::Decides::nat_tests), unfolding(crate::specs::Decimal::said_by))]
pub fn read(s: &[u8]) -> Option<u32>
    ensures { result ≡ said_by s.now }
{
    match s.len() {
        1..=10 => digits(s),
        _ => None,
    }
}
