// The program's arguments, as a line.
ghost use Rattle.lines.specs.Appended.{Appended};
ghost use Rattle.words.specs.Joined.{shown, Spaced, WithSome, WithArgument, Joined};

use lines::{ROOM, append};
use named::is_named;
use system::System;

// A word of a command has at most so many bytes; a longer argument counts as empty.
pub const LONGEST: usize = 48;

// Where the line of some arguments ends, and how many of them are not named. (The room is lent beside it: `join` leaves the line in its caller's.)
#[derive(Clone, Copy)]
struct Ends {
    at: usize,
    plain: usize,
}

// A line with a word after it. One that is empty is put as a question mark, which no command takes.
fn with_word(room: &mut [u8; ROOM], from: usize, word: &[u8]) -> usize
    ensures { Appended room.old from (shown word.now) room.new result }
{
    if word.len() == 0 {
        return append(room, from, b"?");
    }
    append(room, from, word)
}

// The same, and a space.
fn with_space(room: &mut [u8; ROOM], from: usize, word: &[u8]) -> usize
    ensures { Spaced room.old from word.now room.new result }
{
    let at = with_word(room, from, word);
    append(room, at, b" ")
}

// The same where the word is named, or fewer than `most` are not; else the line as it is.
fn with_some(room: &mut [u8; ROOM], line: Ends, w: &[u8], most: usize) -> Ends
    ensures { WithSome room.old line.at line.plain most w.now room.new result.at result.plain }
{
    let at = line.at;
    let plain = line.plain;
    if is_named(w) {
        return Ends {
            at: with_space(room, at, w),
            plain,
        };
    }
    if plain < most {
        return Ends {
            at: with_space(room, at, w),
            plain: plain + 1,
        };
    }
    Ends { at, plain }
}

// The same with argument i.
fn with_argument(system: System, room: &mut [u8; ROOM], line: Ends, i: usize, most: usize) -> Ends
    ensures { WithArgument room.old line.at line.plain most room.new result.at result.plain }
{
    let mut one = [0u8; LONGEST];
    let k = system.arg(i, &mut one);
    with_some(room, line, &one[..k], most)
}

// The arguments as a line, a space after each: those that are named, and the first `most` of the others.
pub fn join(system: System, room: &mut [u8; ROOM], most: usize) -> usize
    ensures { Joined room.old most room.new result }
{
    let n = system.arg_count();
    let mut line = Ends { at: 0, plain: 0 };
    for i in 1..n {
        line = with_argument(system, room, line, i, most);
    }
    line.at
}
