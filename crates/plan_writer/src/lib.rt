// The file of given sets, three numbers a set: their test, the file's length, and its bytes in a lent buffer. L is walked once for each set, in pieces, as
// long as the lent slice is. Inner functions: whoever calls them has counted the sets.
#![tactic(auto)]

ghost use Rattle.std.specs.Prelude.{◌≡◌, ◌+◌, ◌*◌, ◌<◌, ◌≤◌, length};
ghost use Rattle.std.proofs.lemmas.List.Edits.{sets};
ghost use Rattle.laws.specs.Outcome.{say};
ghost use Rattle.laws.specs.Run.{run};
ghost use Rattle.sets.specs.Admits.{Accepted};
ghost use Rattle.pieces.specs.Pieces.{list_of};
ghost use Rattle.plan_form.specs.Form.{entry_place};
ghost use Rattle.plan_writer.specs.File.{set_at, entry_bytes, entries_bytes, list_bytes, lists_bytes, file_of, measured_of};
ghost use Rattle.plan_writer.specs.Storing.{Filed};

use plan_form::ruling_of;
use sets::{NO_FACTORS, Refusal, Set};

// Set i of a slice of numbers, counted from 0.
fn set_of(numbers: &[u32], i: usize) -> Set
    requires { 3 * i + 3 ≤ length numbers.now }
    ensures { result ≡ set_at numbers.now i }
{
    Set {
        profile: numbers[3 * i],
        bits: numbers[3 * i + 1],
        n: numbers[3 * i + 2],
        stream: 1,
        factors: NO_FACTORS,
    }
}

// Tests sets in their order, and adds up the length of their file; or the refusal of the first that isn't good.
pub fn measure(numbers: &[u32], count: usize) -> Result<usize, Refusal>
    requires { (count ≤ 16) × (3 * count ≤ length numbers.now) }
    ensures { say result ≡ measured_of (run (set_at numbers.now) 0 count) (entry_place count) }
{
    let mut bytes = 4 + 20 * count;
    for i in 0..count {
        let set = set_of(numbers, i);
        if let Err(k) = ruling_of(set) {
            return Err(sets::refusal_of(set, k));
        }
        bytes += 2 * set.n as usize;
    }
    Ok(bytes)
}

// The five numbers of a plan whose list begins at `offset`.
fn put_entry(out: &mut [u8], at: usize, set: Set, offset: u32)
    requires { at + 20 ≤ length out.old }
    ensures { out.new ≡ sets out.old at (entry_bytes set offset) }
{
    big_end::put_number(out, at, set.profile);
    big_end::put_number(out, at + 4, set.bits);
    big_end::put_number(out, at + 8, set.n);
    big_end::put_number(out, at + 12, offset);
    big_end::put_number(out, at + 16, set.n);
}

// The headers of all plans, whose lists follow them and each other.
fn put_entries(out: &mut [u8], numbers: &[u32], count: usize)
    requires { Filed numbers.now count (length out.old) }
    ensures { out.new
        ≡ sets out.old 4 (entries_bytes (run (set_at numbers.now) 0 count) (entry_place count)) }
{
    let mut offset = 4 + 20 * count;
    for i in 0..count {
        let set = set_of(numbers, i);
        put_entry(out, 4 + 20 * i, set, offset as u32);
        offset += 2 * set.n as usize;
    }
}

// The addresses of a piece, from a place on.
fn put_piece(out: &mut [u8], at: usize, piece: &[u16])
    requires { at + 2 * length piece.now ≤ length out.old }
    ensures { out.new ≡ sets out.old at (list_bytes piece.now) }
{
    for (j, address) in piece.iter().enumerate() {
        big_end::put_pair(out, at + 2 * j, *address);
    }
}

// L of an accepted set, from a place on, in pieces.
fn put_list(out: &mut [u8], at: usize, set: Set, piece: &mut [u16])
    requires { Accepted set × (at + 2 * set.n ≤ length out.old) × (0 < length piece.old) }
    ensures { out.new ≡ sets out.old at (list_bytes (list_of set)) }
{
    let n = set.n as usize;
    let mut w = pieces::begin(set);
    // (A `while`: how far a turn goes is what the walk has written.)
    while w.at < n {
        let k = w.at;
        w = pieces::next(set, w, piece);
        put_piece(out, at + 2 * k, &piece[..w.at - k]);
    }
}

// The lists of all plans, one after the other, from the header's end on.
fn put_lists(out: &mut [u8], numbers: &[u32], count: usize, piece: &mut [u16])
    requires { Filed numbers.now count (length out.old) × (0 < length piece.old) }
    ensures { out.new
        ≡ sets out.old (entry_place count) (lists_bytes (run (set_at numbers.now) 0 count)) }
{
    let mut at = 4 + 20 * count;
    for i in 0..count {
        let set = set_of(numbers, i);
        put_list(out, at, set, piece);
        at += 2 * set.n as usize;
    }
}

// The file of good sets, in a buffer of its length.
pub fn put_file(out: &mut [u8], numbers: &[u32], count: usize, piece: &mut [u16])
    requires { Filed numbers.now count (length out.old) × (0 < length piece.old) }
    ensures { out.new ≡ file_of (run (set_at numbers.now) 0 count) }
{
    big_end::put_number(out, 0, count as u32);
    put_entries(out, numbers, count);
    put_lists(out, numbers, count, piece);
}
