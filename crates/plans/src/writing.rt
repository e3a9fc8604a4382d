// The file of given sets: its length, and its bytes in a lent buffer.
ghost use Rattle.std.specs.Prelude.{◌≡◌, length};
ghost use Rattle.laws.specs.Outcome.{say};
ghost use Rattle.plans.specs.Writing.{length_of, written_of, buffer_of};

use super::PIECE;
use super::judging::UNFORMED;
use plan_form::{PLANS, ROOM};
use sets::Refusal;

// The answer of asking for a file's length.
pub type Length = Result<u32, Refusal>;

// The answer of writing.
pub type Written = Result<(), Refusal>;

// The refusal of a buffer that is not of the file's length.
const UNFIT: Refusal = Refusal { number: 6, size: 0 };

// The length of the file of given sets, three numbers a set: profile, bits, N. Refusals 12 for how many they are, the first bad set's own, and 12 for a
// file above 65,536 bytes.
pub fn length_of(numbers: &[u32]) -> Length
    ensures { say result ≡ length_of numbers.now }
{
    let len = numbers.len();
    let count = len / 3;
    if len % 3 != 0 {
        return Err(UNFORMED);
    }
    if count < 1 {
        return Err(UNFORMED);
    }
    if count > PLANS {
        return Err(UNFORMED);
    }
    let bytes = plan_writer::measure(numbers, count)?;
    if bytes > ROOM {
        return Err(UNFORMED);
    }
    Ok(bytes as u32)
}

// Writes the file of given sets, three numbers a set, in a buffer of its length. Refusals as for the length, then 6 for a buffer of another length.
pub fn write(numbers: &[u32], out: &mut [u8]) -> Written
    ensures answer { say result ≡ written_of numbers.now (length out.old) }
    ensures buffer { out.new ≡ buffer_of numbers.now out.old }
{
    let bytes = length_of(numbers)?;
    if out.len() != bytes as usize {
        return Err(UNFIT);
    }
    let mut piece = [0u16; PIECE];
    plan_writer::put_file(out, numbers, numbers.len() / 3, &mut piece);
    Ok(())
}
