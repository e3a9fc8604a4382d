// A line of standard input.
ghost use Rattle.words.specs.Room.{Read};

use lines::ROOM;
use system::System;

// A line of standard input: so many bytes at the start of the room; or one that is too long, and was passed over; or there is none.
// (Three answers, with each of which a caller does another thing: an Option in a Result would be no plainer.)
#[derive(Clone, Copy)]
pub enum Line {
    Of(usize),
    Long,
    Nothing,
}

// The next byte of standard input, if there is one. A read that fails is told.
fn next_byte(system: System) -> Option<u8> {
    let mut one = [0u8; 1];
    match system.read(&mut one) {
        Ok(0) => None,
        Ok(_) => Some(one[0]),
        Err(e) => {
            system.fail(b"interleaver: reading", e);
            None
        }
    }
}

// Passes over the rest of a line.
fn skip_line(system: System) {
    for _ in 0..u64::MAX {
        match next_byte(system) {
            Some(b'\n') | None => return,
            Some(_) => {}
        }
    }
}

// Reads a line, without its end. It takes no byte after the line, so that an answer can come before the next line is asked for.
pub fn read(system: System, room: &mut [u8; ROOM]) -> Line
    ensures { Read room.old room.new result }
{
    for at in 0..ROOM {
        match next_byte(system) {
            Some(b'\n') => return Line::Of(at),
            Some(b) => room[at] = b,
            None if at == 0 => return Line::Nothing,
            None => return Line::Of(at),
        }
    }
    skip_line(system);
    Line::Long
}
