// The bytes of the two lines. Each is asked for by itself, and none once those before it settle what is asked for: whatever else waits in standard input
// is left there, and nothing behind that is waited for.
ghost use Rattle.std.specs.Prelude.{IfOk};
ghost use Rattle.report_pages.specs.Taken.{TakenBy};

use lines::first;
use report_asked::settled;
use std::io::Result;
use system::System;

// What was read settles what is asked for before it is longer.
pub(super) const MOST: usize = 10;

// So many bytes, which settle it; or so many, with which standard input ended.
#[derive(Clone, Copy)]
pub(super) enum Taken {
    Settled(usize),
    Ended(usize),
}

// The next byte, or none where standard input has ended.
fn next_byte(system: System) -> Result<Option<u8>> {
    let mut one = [0u8; 1];
    match system.read(&mut one)? {
        0 => Ok(None),
        _ => Ok(Some(one[0])),
    }
}

// Takes them into a room of ten.
pub(super) fn take(system: System, room: &mut [u8; MOST]) -> Result<Taken>
    ensures { IfOk result (TakenBy room.new) }
{
    for at in 0..MOST {
        if settled(first(room, at)) {
            return Ok(Taken::Settled(at));
        }
        match next_byte(system)? {
            Some(b) => room[at] = b,
            None => return Ok(Taken::Ended(at)),
        }
    }
    Ok(Taken::Settled(MOST))
}
