// A burst as a table: each of its bytes and the place where it comes out, a line each; then the least distance between any two of them.
use super::Burst;
use system::{STDOUT_FILENO, System};
use words::text::{Text, write};

fn lines(system: System, burst: Burst) {
    let mut text = Text::new(system);
    for i in 0..burst.length {
        text.put_number(u64::from(burst.at) + u64::from(i));
        text.put(b" ");
        text.put_number(burst.place(i));
        text.put(b"\n");
    }
    text.flush();
}

// `dvb burst` and `atsc burst`.
pub fn table(system: System, kind: u32, at: u32, length: u32) {
    let burst = Burst::of(kind, at, length);
    lines(system, burst);
    burst.tell_least(system);
    write(system, STDOUT_FILENO, b"\n");
}
