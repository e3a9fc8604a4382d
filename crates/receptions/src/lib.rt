// `combine`: receptions of a block, each from a file, added up; then what each position holds, by input index, with its sum exactly.
#![tactic(auto)]

use combine::Reading;
use figures::Reception;
use figures::decimal::Decimal;
use sets::{Refusal, Set};
use system::{STDOUT_FILENO, System};
use tables::LARGE;
use words::arguments::LONGEST;
use words::text::Text;

// The arguments before the files, but for named words: `combine`, PROFILE, BITS and N.
pub const BEFORE: usize = 4;

fn refused(system: System, x: Refusal) {
    words::text::say_refusal(system, STDOUT_FILENO, x.number, x.size);
}

// Whether argument i is a named word, which may stand among the files.
fn is_beside(system: System, i: usize) -> bool {
    let mut one = [0u8; LONGEST];
    let k = system.arg(i, &mut one);
    named::is_named(&one[..k])
}

// The first argument that names a file.
fn first_file(system: System) -> Option<usize> {
    (1..system.arg_count())
        .filter(|i| !is_beside(system, *i))
        .nth(BEFORE)
}

// The line of position k. (None is refused: the set was accepted when the files were added.)
fn put_reading(text: &mut Text, k: u32, r: Reading) {
    match r {
        Reading::Soft(x) => {
            text.put_number(u64::from(k));
            text.put(b" ");
            text.put(Decimal::of(x.sum).text());
            text.put(b" ");
            text.put_number(u64::from(x.count));
            text.put(b"\n");
        }
        Reading::Blank => {
            text.put_number(u64::from(k));
            text.put(b" blank\n");
        }
        Reading::Refused(_) => {}
    }
}

// Adds the reception in the file that argument i names. What fails is said, and a refusal. (Sums and counts are lent side by side, as `combine` asks for them:
// of a struct that is lent, two fields can't be lent on at once, and by value each copy would be 37 KB of stack.)
fn add_file(
    system: System,
    set: Set,
    i: usize,
    reception: &mut Reception,
    sums: &mut [f32],
    counts: &mut [u16],
) -> Option<()> {
    reception.read(system, set, i)?;
    match combine::add(set, reception.values(), reception.present(), sums, counts) {
        Ok(()) => Some(()),
        Err(x) => {
            refused(system, x);
            None
        }
    }
}

// Adds all files, from argument `first` on.
fn add_files(
    system: System,
    set: Set,
    first: usize,
    sums: &mut [f32],
    counts: &mut [u16],
) -> Option<()> {
    let mut reception = Reception::new();
    for i in first..system.arg_count() {
        if !is_beside(system, i) {
            add_file(system, set, i, &mut reception, sums, counts)?;
        }
    }
    Some(())
}

// What each position holds, a line each.
fn show(system: System, set: Set, sums: &[f32], counts: &[u16]) {
    let mut text = Text::new(system);
    for k in 0..set.n {
        put_reading(&mut text, k, combine::read(set, sums, counts, k));
    }
    text.flush();
}

// Whether an argument names a file.
pub fn in_form(system: System) -> bool {
    first_file(system).is_some()
}

// `combine`, of the files that the arguments name. A blank block is read first, which tells whether the calls refuse the set, before a file is opened.
pub fn from_files(system: System, set: Set) {
    let mut sums = [0.0f32; LARGE];
    let mut counts = [0u16; LARGE];
    let n = figures::size_of(set);
    if let Reading::Refused(x) = combine::read(set, &sums[..n], &counts[..n], 0) {
        refused(system, x);
        return;
    }
    let first = first_file(system).unwrap_or(system.arg_count());
    if add_files(system, set, first, &mut sums[..n], &mut counts[..n]).is_some() {
        show(system, set, &sums[..n], &counts[..n]);
    }
}
