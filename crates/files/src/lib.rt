// The bytes of a file that an argument names. What fails is answered, and said by whoever asked.
#![tactic(auto)]

ghost use Rattle.std.specs.Prelude.{length};
ghost use Rattle.files.specs.Got.{Within};

use std::fs::File;
use std::io::{Error, Read};
use system::System;

// A path has at most so many bytes.
pub const PATH: usize = 1024;

// Why no bytes came: the argument is no path, the file can't be opened, or a read fails.
#[derive(Clone, Copy, Debug)]
pub enum FileError {
    Unnamed,
    Unopened(Error),
    Unread(Error),
}

// Reads until the room is full or the file ends, as far as no read fails. (By `while`: each read says how far it came.)
fn read_full(file: &mut File, room: &mut [u8]) -> Result<usize, FileError>
    ensures { Within result (length room.old) }
{
    let mut at = 0;
    while at < room.len() {
        let k = file.read(&mut room[at..]).map_err(FileError::Unread)?;
        if k == 0 {
            return Ok(at);
        }
        at += k;
    }
    Ok(at)
}

// Reads the file at a path, as far as there is room, and answers how many bytes came.
pub fn read_path(system: System, path: &[u8], room: &mut [u8]) -> Result<usize, FileError>
    ensures { Within result (length room.old) }
{
    let mut file = system.open(path).map_err(FileError::Unopened)?;
    read_full(&mut file, room)
}

// The same, of the file that argument i names.
pub fn read(system: System, i: usize, room: &mut [u8]) -> Result<usize, FileError>
    ensures { Within result (length room.old) }
{
    let mut path = [0u8; PATH];
    let k = system.arg(i, &mut path);
    if k == 0 {
        return Err(FileError::Unnamed);
    }
    read_path(system, &path[..k], room)
}
