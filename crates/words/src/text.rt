// Text that is gathered before it is written: a system call for each part of a line would cost more than the line.
ghost use Rattle.std.specs.Prelude.{◌≡◌, ◌≤◌, length, min, take};
ghost use Rattle.words.specs.Gathered.{Put, PutNumber};

use lines::first;
use std::io::{Error, ErrorKind, Result};
use system::{STDERR_FILENO, STDOUT_FILENO, System};

// The room that text is gathered in.
pub const ROOM: usize = 4096;

// Text on its way to standard output: so many bytes wait at the start of the room.
#[derive(Drop)]
pub struct Text {
    system: System,
    room: [u8; ROOM],
    at: usize,
    ghost within: { at ≤ 4096 },
}

impl Text {
    ghost use Rattle.words.specs.Texts.{Puts, PutsNumber};

    // Nothing waits.
    pub fn new(system: System) -> Text
        ensures { result.at ≡ 0 }
    {
        Text {
            system,
            room: [0u8; ROOM],
            at: 0,
        }
    }

    // The first `from` bytes of a room of the caller's wait, or all of it.
    pub fn over(system: System, room: [u8; ROOM], from: usize) -> Text
        ensures room { result.room ≡ room }
        ensures at { result.at ≡ min from 4096 }
    {
        Text {
            system,
            room,
            at: from.min(ROOM),
        }
    }

    // The room: what waits stands at its start.
    pub fn room(&self) -> &[u8; ROOM]
        ensures { result.now ≡ self.now.room }
    {
        &self.room
    }

    // What waits.
    pub fn waiting(&self) -> &[u8]
        ensures value { result.now ≡ take self.now.at self.now.room }
        ensures long { length result.now ≡ self.now.at }
    {
        first(&self.room, self.at)
    }

    // Puts s behind what waits. A full room is written first. (Made part of each caller, as `put_number` and the two that they call: a call a number, which saves
    // its registers and looks up where the text ends, makes a list of addresses a quarter dearer.)
    #[inline(always)]
    pub fn put(&mut self, s: &[u8])
        ensures { Puts self.old s.now self.new }
    {
        self.at = put(self.system, &mut self.room, self.at, s);
    }

    // The same for a number in decimal.
    #[inline(always)]
    pub fn put_number(&mut self, n: u64)
        ensures { PutsNumber self.old n self.new }
    {
        self.at = put_number(self.system, &mut self.room, self.at, n);
    }

    // Writes what waits.
    pub fn flush(self) {
        flush(self.system, &self.room, self.at);
    }
}

// Puts s after the `from` bytes that wait at the start of a room, and answers how many wait then. A full room is written first. (For whoever has a room of
// his own; any `from` may be given, where a Text has at most what its room holds.)
#[inline(always)]
pub fn put(system: System, room: &mut [u8; ROOM], from: usize, s: &[u8]) -> usize
    ensures { Put room.old from s.now room.new result }
{
    let mut at = from.min(ROOM);
    for b in s {
        if at == ROOM {
            write(system, STDOUT_FILENO, room);
            at = 0;
        }
        room[at] = *b;
        at += 1;
    }
    at
}

// The same for a number in decimal.
#[inline(always)]
pub fn put_number(system: System, room: &mut [u8; ROOM], from: usize, n: u64) -> usize
    ensures { PutNumber room.old from n room.new result }
{
    let mut digits = [0u8; 20];
    let k = io::decimal(n, &mut digits);
    put(system, room, from, &digits[..k])
}

// Writes what waits.
pub fn flush(system: System, room: &[u8; ROOM], at: usize) {
    write(system, STDOUT_FILENO, first(room, at));
}

// Std writes to no other descriptor: a write to one fails.
fn send(system: System, fd: i32, s: &[u8]) -> Result<()> {
    match fd {
        STDOUT_FILENO => system.print(s),
        STDERR_FILENO => system.tell(s),
        _ => Err(Error::new(ErrorKind::InvalidInput, "Bad file descriptor")),
    }
}

// Writes s, and says so where that fails.
pub fn write(system: System, fd: i32, s: &[u8]) -> bool {
    match send(system, fd, s) {
        Ok(()) => true,
        Err(e) => {
            system.fail(b"interleaver: writing", e);
            false
        }
    }
}

// Writes words and a number.
pub fn say(system: System, fd: i32, words: &[u8], n: u64) {
    let mut digits = [0u8; 20];
    let k = io::decimal(n, &mut digits);
    write(system, fd, words);
    write(system, fd, &digits[..k]);
}

// Writes words, a number and the line's end.
pub fn say_line(system: System, fd: i32, words: &[u8], n: u64) {
    say(system, fd, words, n);
    write(system, fd, b"\n");
}

// Writes the line of a refusal: its number, and behind 3 the size that would have fitted, which is 0 where there is none.
pub fn say_refusal(system: System, fd: i32, number: u32, size: u32) {
    if number == 3 {
        say_line(system, fd, b"refused 3 ", size as u64);
    } else {
        say_line(system, fd, b"refused ", number as u64);
    }
}
