// `judge`: a line for each plan of a file.
use super::{ROOM, read, refused};
use plans::judging::{Compared, Judged};
use system::{STDOUT_FILENO, System};
use words::text::{say, say_line, write};

// The line of a plan: whether its list is L, and if it isn't, the first wrong position and how many are wrong.
fn show(system: System, plan: u32, j: Judged) {
    say(system, STDOUT_FILENO, b"plan ", plan as u64);
    match j {
        Ok(Compared::Same) => {
            write(system, STDOUT_FILENO, b" equal\n");
        }
        Ok(Compared::Wrong { first, count }) => {
            say(system, STDOUT_FILENO, b" wrong ", first as u64);
            say_line(system, STDOUT_FILENO, b" ", count as u64);
        }
        Err(x) => {
            write(system, STDOUT_FILENO, b" ");
            refused(system, x);
        }
    }
}

fn show_plans(system: System, file: &[u8], plans: u32) {
    for plan in 1..=plans {
        show(system, plan, plans::judging::judge(file, plan));
    }
}

fn show_file(system: System, file: &[u8]) {
    match plans::judging::count(file) {
        Ok(k) => show_plans(system, file, k),
        Err(x) => refused(system, x),
    }
}

// Reads the file that argument i names into a room, and judges it.
fn judge_in(system: System, room: &mut [u8], i: usize) {
    let n = read(system, i, room);
    show_file(system, lines::first(room, n));
}

// Judges the file that argument i names.
pub fn judge(system: System, i: usize) {
    let mut room = [0u8; ROOM];
    judge_in(system, &mut room, i);
}
