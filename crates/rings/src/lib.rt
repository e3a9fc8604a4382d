// The loops over one ring of a branch machine, for any number of branches. Nothing here divides or multiplies, and no loop reads a table.
#![tactic(auto)]

ghost use Rattle.std.specs.Prelude.{◌≡◌, ◌+◌, ◌-◌, ◌*◌, ◌≤◌, ◌<◌, length};
ghost use Rattle.delay.specs.Lane.{wrap_of, count_of, Left, Turned, Passed};
ghost use Rattle.delay.specs.Loops.{Stretching};

// How many bytes a ring has, of whole turns and rest bytes more: one in each turn, and one in the rest where its first byte is there.
pub fn left_of(turns: usize, rest: usize, from: usize) -> usize
    requires { turns < 18446744073709551615 }
    ensures { result ≡ count_of turns rest from }
{
    if from < rest { turns + 1 } else { turns }
}

// A place, or the ring's first where it is past the ring's last.
fn wrap(place: usize, first: usize, last: usize) -> usize
    ensures { result ≡ wrap_of place first last }
{
    if last <= place { first } else { place }
}

// The bytes that pass through: byte from, and each branches-th after it.
pub fn pass(branches: usize, from: usize, input: &[u8], out: &mut [u8])
    requires { (0 < branches) × (branches < 65536) × (length out.old ≡ length input.now) }
    ensures { Passed branches from input.now out.old out.new }
{
    // (A `for` over a `step_by` makes a test more at each byte, of whether there is a next one: 7 instructions in place of 5.)
    let mut i = from;
    while i < input.len() {
        out[i] = input[i];
        i += branches;
    }
}

// A stretch of count neighbouring places, from at on: byte from goes to the first of them, and each branches-th after it to the next. Returns the byte
// that comes after them. (What the loops are given is no struct: of seven things, three differ from stretch to stretch, three are lent, and
// in place of `branches` stands a number that the compiler knows.)
fn moves(
    branches: usize,
    from: usize,
    at: usize,
    count: usize,
    store: &mut [u8],
    input: &[u8],
    out: &mut [u8],
) -> usize
    requires { (branches < 65536) × (at + count ≤ length store.old) × (branches * count + from < length input.now + branches)
        × (length out.old ≡ length input.now) }
    ensures { Stretching branches input.now store.old out.old
        from at (at + count) store.new out.new result (at + count) }
{
    let mut i = from;
    for place in at..at + count {
        let byte = input[i];
        out[i] = store[place];
        store[place] = byte;
        i += branches;
    }
    i
}

// The same, with the step from byte to byte a number that the compiler knows, where it is that of a machine we have.
fn stretch(
    branches: usize,
    from: usize,
    at: usize,
    count: usize,
    store: &mut [u8],
    input: &[u8],
    out: &mut [u8],
) -> usize
    requires { (branches < 65536) × (at + count ≤ length store.old) × (branches * count + from < length input.now + branches)
        × (length out.old ≡ length input.now) }
    ensures { Stretching branches input.now store.old out.old
        from at (at + count) store.new out.new result (at + count) }
{
    match branches {
        12 => moves(12, from, at, count, store, input, out),
        52 => moves(52, from, at, count, store, input, out),
        _ => moves(branches, from, at, count, store, input, out),
    }
}

// The bytes of the ring at places first to last - 1: byte from, which goes to place at, and each branches-th after it, count in all. Returns the
// place where its next byte goes.
pub fn turn(
    branches: usize,
    first: usize,
    last: usize,
    from: usize,
    at: usize,
    count: usize,
    store: &mut [u8],
    input: &[u8],
    out: &mut [u8],
) -> usize
    requires { (branches < 65536) × (first ≤ at) × (at < last) × (last ≤ length store.old) × (length out.old ≡ length input.now)
        × Left branches (length input.now - from) count }
    ensures { Turned branches first last from at store.old input.now out.old
        store.new out.new result }
{
    // (No count of an index: byte, place and what is left go on together, by as much as the ring's end allows.)
    let mut i = from;
    let mut place = at;
    let mut left = count;
    while left > 0 {
        let n = residues::least(left, last - place);
        i = stretch(branches, i, place, n, store, input, out);
        left -= n;
        place = wrap(place + n, first, last);
    }
    place
}
