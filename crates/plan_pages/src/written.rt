// `plans`: the file of given sets, three arguments a set, on standard output. A refusal is said on standard error, and then nothing is written.
use sets::Refusal;
use system::{STDERR_FILENO, STDOUT_FILENO, System};
use words::arguments::LONGEST;

// The numbers of one set more than a file may have, so that too many are seen to be.
const NUMBERS: usize = 51;

// The arguments before them: the program, and `plans`.
const FIRST: usize = 2;

// A file has at most so many bytes.
const BYTES: usize = 65536;

fn refused(system: System, x: Refusal) {
    words::text::say_refusal(system, STDERR_FILENO, x.number, x.size);
}

// The number that argument i says.
fn number(system: System, i: usize) -> Option<u32> {
    let mut one = [0u8; LONGEST];
    let k = system.arg(i, &mut one);
    numbers::read(&one[..k])
}

// Takes `count` arguments as numbers, as far as there is room. Answers whether all are numbers.
fn take_numbers(system: System, numbers: &mut [u32; NUMBERS], count: usize) -> bool {
    for k in 0..NUMBERS.min(count) {
        let Some(v) = number(system, FIRST + k) else {
            return false;
        };
        numbers[k] = v;
    }
    true
}

fn write_bytes(system: System, numbers: &[u32], out: &mut [u8]) {
    match plans::writing::write(numbers, out) {
        Ok(()) => {
            words::text::write(system, STDOUT_FILENO, out);
        }
        Err(x) => refused(system, x),
    }
}

// Writes in the part of a room that has the file's length, for which there is room.
fn write_part(system: System, numbers: &[u32], room: &mut [u8], n: usize) {
    if n <= room.len() {
        write_bytes(system, numbers, &mut room[..n]);
    }
}

fn write_file(system: System, numbers: &[u32]) {
    match plans::writing::length_of(numbers) {
        Err(x) => refused(system, x),
        Ok(b) => {
            let mut out = [0u8; BYTES];
            write_part(system, numbers, &mut out, b as usize);
        }
    }
}

fn write_some(system: System, numbers: &[u32], count: usize) {
    write_file(system, lines::first(numbers, count));
}

// How many arguments stand behind the command.
fn given(system: System) -> usize {
    system.arg_count().saturating_sub(FIRST)
}

// Writes the file of the sets that the arguments give. Answers whether they are in form: three numbers a set.
pub fn write(system: System) -> bool {
    let count = given(system);
    let mut numbers = [0u32; NUMBERS];
    if (count == 0) | (count % 3 != 0) {
        return false;
    }
    if !take_numbers(system, &mut numbers, count) {
        return false;
    }
    write_some(system, &numbers, count);
    true
}
