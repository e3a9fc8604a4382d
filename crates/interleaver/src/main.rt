// The command line: words and numbers in, the answers of the proved libraries out. The loops here are over the questions of the command `lines`
// and over named words; the others are in the crates below.
#![tactic(auto)]

mod asked; // asked.rt: the numbers of a command
mod commands; // commands.rt: the commands by name, and their form
mod names; // names.rt: the numbers that have names

use kinds::sizes::Sizes;
use laws::Way;
use lines::{ROOM, word};
use system::System;
use told::Command;
use words::line::Line;

// So many arguments that are not named are looked at, which is more than any command takes, but for the files of `combine` and the sets of `plans`.
const MOST: usize = 8;

// What a question on a set answers.
fn answer(system: System, c: Command, line: &[u8]) {
    let Some(set) = asked::set(system, line) else {
        return;
    };
    match c {
        Command::Test => pages::lists::test(system, set),
        Command::List => pages::lists::list(system, Way::Interleaver, set),
        Command::Back => pages::lists::list(system, Way::Deinterleaver, set),
        Command::Picture => pages::picture::picture(system, set),
        Command::At => {
            if let Some(t) = asked::number(system, line, 4, b"T") {
                pages::lists::one(system, Way::Interleaver, set, t);
            }
        }
        Command::To => {
            if let Some(k) = asked::number(system, line, 4, b"K") {
                pages::lists::one(system, Way::Deinterleaver, set, k);
            }
        }
        _ => walk(system, set, line),
    }
}

fn walk(system: System, set: sets::Set, line: &[u8]) {
    let Some(cell) = asked::number(system, line, 4, b"CELL") else {
        return;
    };
    let Some(room) = asked::number(system, line, 5, b"ROOM") else {
        return;
    };
    pages::lists::walk(system, set, cell, room);
}

// Blocks of symbols, standard input to output.
fn move_blocks(system: System, way: Way, line: &[u8]) {
    let Some(set) = asked::set(system, line) else {
        return;
    };
    if asked::plain(line, 4).is_empty() {
        filters::blocked::through(system, way, set, 1);
        return;
    }
    let Some(width) = asked::small_number(system, line, 4, b"WIDTH", 8, b"8") else {
        return;
    };
    if width == 0 {
        told::expected(system, b"WIDTH from 1 to 8, the bytes of a symbol");
        return;
    }
    filters::blocked::through(system, way, set, width);
}

// A byte stream, standard input to output.
fn move_stream(system: System, kind: u32, line: &[u8]) {
    match commands::named(word(line, 1)) {
        Command::Interleave => fill_stream(system, Way::Interleaver, kind, line),
        Command::Deinterleave => fill_stream(system, Way::Deinterleaver, kind, line),
        _ => told::usage(system, Command::Stream(kind)),
    }
}

fn fill_stream(system: System, way: Way, kind: u32, line: &[u8]) {
    let Some(fill) = asked::small_number(system, line, 2, b"FILL", 255, b"255") else {
        return;
    };
    filters::streamed::through(system, way, kind, fill as u8);
}

// A burst in the channel as a table.
fn show_burst(system: System, kind: u32, line: &[u8]) {
    if let Some(b) = asked::burst_of(system, line, 2, 3) {
        bursts::page::table(system, kind, b.at, b.length);
    }
}

// The same as a picture, whose numbers may be left out: then it is of a byte in each branch.
fn draw_burst(system: System, kind: u32, line: &[u8]) {
    if asked::plain(line, 3).is_empty() {
        bursts::picture::picture(system, kind, 0, Sizes::of(kind).branches as u32);
        return;
    }
    if let Some(b) = asked::burst_of(system, line, 3, 4) {
        bursts::picture::picture(system, kind, b.at, b.length);
    }
}

// LTE's own factors for a size.
fn show_factors(system: System, line: &[u8]) {
    if let Some(k) = asked::number(system, line, 1, b"K") {
        pages::lists::factors(system, k);
    }
}

// Receptions from files, added up. The line is that of the arguments before the files and of the named words.
fn combine(system: System) {
    let mut room = [0u8; ROOM];
    let n = words::arguments::join(system, &mut room, receptions::BEFORE);
    combine_first(system, &room, n);
}

fn combine_first(system: System, room: &[u8; ROOM], n: usize) {
    combine_by(system, lines::first(room, n));
}

fn combine_by(system: System, line: &[u8]) {
    if !commands::in_form(Command::Combine, line) || !receptions::in_form(system) {
        told::usage(system, Command::Combine);
        return;
    }
    if let Some(set) = asked::set(system, line) {
        receptions::from_files(system, set);
    }
}

// Answers a question that is in form.
fn ask(system: System, c: Command, line: &[u8]) {
    match c {
        Command::Help => told::help(system),
        Command::Profiles => pages::admitted::table(system),
        Command::Burst(kind) => show_burst(system, kind, line),
        Command::BurstPicture(kind) => draw_burst(system, kind, line),
        Command::Factors => show_factors(system, line),
        _ => answer(system, c, line),
    }
}

// Answers each line of standard input. An empty line asks nothing.
fn answer_lines(system: System) {
    let mut room = [0u8; ROOM];
    for _ in 0..u64::MAX {
        match words::line::read(system, &mut room) {
            Line::Nothing => {
                return;
            }
            Line::Long => told::expected(system, b"a line shorter than 512 bytes"),
            Line::Of(n) => answer_first(system, &room, n),
        }
    }
}

fn answer_first(system: System, room: &[u8; ROOM], n: usize) {
    answer_line(system, lines::first(room, n));
}

fn answer_line(system: System, line: &[u8]) {
    if word(line, 0).is_empty() {
        return;
    }
    let c = commands::command_of(line);
    match c {
        Command::Interleave
        | Command::Deinterleave
        | Command::Stream(_)
        | Command::Combine
        | Command::Padding
        | Command::Judge
        | Command::Differ
        | Command::Plans
        | Command::Lines => told::expected(system, b"a question, as lines answers only those"),
        _ => {
            if commands::in_form(c, line) {
                ask(system, c, line);
            } else {
                told::usage(system, c);
            }
        }
    }
}

// Does what the arguments say.
fn obey(system: System, line: &[u8]) {
    let c = commands::command_of(line);
    if let Command::Combine = c {
        combine(system);
        return;
    }
    if let Command::Plans = c {
        if !plan_pages::written::write(system) {
            told::usage(system, Command::Plans);
        }
        return;
    }
    if !commands::in_form(c, line) {
        told::usage(system, c);
        return;
    }
    match c {
        Command::Lines => answer_lines(system),
        Command::Interleave => move_blocks(system, Way::Interleaver, line),
        Command::Deinterleave => move_blocks(system, Way::Deinterleaver, line),
        Command::Stream(kind) => move_stream(system, kind, line),
        Command::Padding => report_pages::report(system),
        Command::Judge => plan_pages::judged::judge(system, 2),
        Command::Differ => plan_pages::compared::differ(system, 2, 3),
        _ => ask(system, c, line),
    }
}

fn begin(system: System, room: &[u8; ROOM], n: usize) {
    obey(system, lines::first(room, n));
}

fn main(rt: HostRuntime) {
    let system = System::of(rt);
    let mut room = [0u8; ROOM];
    let n = words::arguments::join(system, &mut room, MOST);
    begin(system, &room, n);
}
