// The bytes of a file that an argument names. Whatever fails is said, with the path.
use files::FileError;
use lines::append;
use std::io::Error;
use system::System;

fn fail_first(system: System, room: &[u8; lines::ROOM], n: usize, e: Error) {
    system.fail(lines::first(room, n), e);
}

// Says what failed at a path, of which some 490 bytes are told.
fn fail(system: System, what: &[u8], path: &[u8], e: Error) {
    let mut room = [0u8; lines::ROOM];
    let mut at = append(&mut room, 0, what);
    at = append(&mut room, at, path);
    fail_first(system, &room, at, e);
}

// Says that an argument is no path.
fn unnamed(system: System) {
    let _ = system.tell(b"interleaver: expected FILE, a path of 1 to 1,024 bytes\n");
}

// Says why no bytes came of a path.
fn say(system: System, path: &[u8], e: FileError) {
    match e {
        FileError::Unread(e) => fail(system, b"interleaver: reading ", path, e),
        FileError::Unopened(e) => fail(system, b"interleaver: opening ", path, e),
        FileError::Unnamed => unnamed(system),
    }
}

// Reads the file at a path, as far as there is room.
fn read_path(system: System, path: &[u8], room: &mut [u8]) -> Option<usize> {
    match files::read_path(system, path, room) {
        Ok(k) => Some(k),
        Err(e) => {
            say(system, path, e);
            None
        }
    }
}

// Reads the file that argument i names, as far as there is room.
pub(super) fn read(system: System, i: usize, room: &mut [u8]) -> Option<usize> {
    let mut path = [0u8; files::PATH];
    let k = system.arg(i, &mut path);
    if k == 0 {
        unnamed(system);
        return None;
    }
    read_path(system, &path[..k], room)
}
