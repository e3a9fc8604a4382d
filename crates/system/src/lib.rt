// What the programs have of the system: standard input, output and error, the arguments, and files to read. No contract can say what is read, nor
// where what is written goes. Knows nothing of radio.
#![tactic(auto)]

ghost use Rattle.std.specs.Prelude.{◌≤◌, length};
ghost use Rattle.std.specs.Io.{ReadsAtMost};

use std::env::{Env, FillError};
use std::fs::File;
use std::io::{Error, ErrorKind, Print, Read, Result};

// The descriptors of standard output and standard error.
pub const STDOUT_FILENO: i32 = 1;

pub const STDERR_FILENO: i32 = 2;

// What a program is started with.
#[derive(Clone, Copy)]
pub struct System {
    rt: HostRuntime,
}

impl System {
    pub fn of(rt: HostRuntime) -> System {
        System { rt }
    }

    // Writes all of s to standard output.
    pub fn print(self, s: &[u8]) -> Result<()> {
        self.rt.stdout().write_all(s)
    }

    // Writes all of s to standard error.
    pub fn tell(self, s: &[u8]) -> Result<()> {
        self.rt.stderr().write_all(s)
    }

    // Says what failed on standard error, in a line, and why.
    pub fn fail(self, what: &[u8], e: Error) {
        let _ = self.tell(what);
        let _ = self.tell(b": ");
        if let Ok(why) = format!(in self.rt.alloc(); "{e}") {
            let _ = self.tell(reason(why.as_str()).as_bytes());
        }
        let _ = self.tell(b"\n");
    }

    // Reads once from standard input, in whatever length the read gives: 0 at its end. It takes no byte that it doesn't answer.
    pub fn read(self, room: &mut [u8]) -> Result<usize>
        ensures { ReadsAtMost result room.new }
    {
        self.rt.stdin().read(room)
    }

    // How many arguments the program was started with, its own name among them.
    pub fn arg_count(self) -> usize {
        let mut none = [0u8; 0];
        for i in 0..usize::MAX {
            if let Err(FillError::NotPresent) = self.rt.arg(i, &mut none) {
                return i;
            }
        }
        usize::MAX
    }

    // Puts argument i at the start of the room and answers its length, or 0 where it is missing or longer than the room.
    pub fn arg(self, i: usize, room: &mut [u8]) -> usize
        ensures { result ≤ length room.new }
    {
        match self.rt.arg(i, room) {
            Ok(k) => k,
            Err(_) => 0,
        }
    }

    // Opens a file to read. Its path is UTF-8 text.
    pub fn open(self, path: &[u8]) -> Result<File> {
        match std::str::from_utf8(path) {
            Ok(text) => File::open(&self.rt, text),
            Err(_) => Err(Error::new(ErrorKind::InvalidInput, "the path is no UTF-8 text")),
        }
    }
}

// What an error says, without the number that std puts behind it.
fn reason(text: &str) -> &str {
    match text.split_once(" (os error ") {
        Some((words, _)) => words,
        None => text,
    }
}
