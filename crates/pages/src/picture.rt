// A permutation as an SVG: a dot for each symbol, of profile 9 for each couple, its input index across and its output index down. Padding is no
// symbol, so it has no dot.
ghost use Rattle.std.specs.Prelude.{◌≤◌};

use super::{LONGEST, lists, say, say_number};
use sets::{Factors, Set};
use system::{STDOUT_FILENO, System};
use walks::Walk;
use words::text::Text;

// A dot for each output t: M L(t) t h0, a stroke of no length with round ends.
fn dots(system: System, slots: &[u16], n: u32) {
    let mut text = Text::new(system);
    for (t, slot) in slots.iter().take(n as usize).enumerate() {
        text.put(b"M");
        text.put_number(u64::from(*slot));
        text.put(b" ");
        text.put_number(t as u64);
        text.put(b"h0");
    }
    text.flush();
}

fn four(system: System, p: Factors) {
    say_number(system, b", P0 ", p.first as u64);
    say_number(system, b", P1 ", p.second as u64);
    say_number(system, b", P2 ", p.third as u64);
    say_number(system, b", P3 ", p.fourth as u64);
}

fn title(system: System, set: Set) {
    say_number(system, b"<title>profile ", set.profile as u64);
    say_number(system, b", bits ", set.bits as u64);
    say_number(system, b", N ", set.n as u64);
    if set.stream > 1 {
        say_number(system, b", stream ", set.stream as u64);
    }
    if sets::is_quadratic(set) {
        say_number(system, b", f1 ", set.factors.first as u64);
        say_number(system, b", f2 ", set.factors.second as u64);
    }
    if sets::is_coupled(set) {
        four(system, set.factors);
    }
    let _ = system.print(b": input index across, output index down</title>\n");
}

// The side of a dot: one part in 75 of the picture's, or in 200 where there are many.
fn dot_of(n: u64) -> u64
    requires { n ≤ 6144 }
    ensures { result ≤ 100 }
{
    if n > 2000 {
        return n / 200 + 1;
    }
    n / 75 + 1
}

// The frame, a dot wider than the dots on each side.
fn frame(system: System, n: u64, dot: u64)
    requires { (n ≤ 6144) × (dot ≤ 100) }
{
    let side = n + 2 * dot;
    say_number(
        system,
        b"<path fill=\"#fff\" stroke=\"#999\" stroke-width=\"",
        n / 250,
    );
    say_number(system, b".4\" d=\"M-", dot);
    say_number(system, b" -", dot);
    say_number(system, b"h", side);
    say_number(system, b"v", side);
    say_number(system, b"h-", side);
    say(system, b"z\"/>\n");
}

// What the two sides are, each read from index 0 on.
fn captions(system: System, size: u64)
    requires { size ≤ 400 }
{
    say_number(
        system,
        b"<g font-family=\"sans-serif\" fill=\"#444\" font-size=\"",
        size,
    );
    say_number(system, b"\"><text y=\"-", size);
    say_number(
        system,
        b"\">input &#8594;</text><text transform=\"translate(-",
        size + size / 2,
    );
    let _ = system.print(b" 0)rotate(90)\">output &#8594;</text></g>\n");
}

// The page around the dots.
fn head(system: System, set: Set, n: u64)
    requires { n ≤ 6144 }
{
    let dot = dot_of(n);
    let size = n / 18 + 2;
    let margin = 2 * size;
    let side = n + 2 * margin;
    say_number(
        system,
        b"<svg xmlns=\"http://www.w3.org/2000/svg\" width=\"300\" height=\"300\" viewBox=\"-",
        margin,
    );
    say_number(system, b" -", margin);
    say_number(system, b" ", side);
    say_number(system, b" ", side);
    say(system, b"\">\n");
    title(system, set);
    frame(system, n, dot);
    captions(system, size);
    say_number(
        system,
        b"<path fill=\"none\" stroke=\"#046\" stroke-linecap=\"round\" stroke-width=\"",
        dot,
    );
    say(system, b"\" d=\"");
}

// `picture`.
pub fn picture(system: System, set: Set) {
    let mut table = [0u16; LONGEST];
    match walks::walk_l(Walk { set, cell: 0 }, &mut table) {
        Ok(values) => {
            head(system, set, u64::from(values.written).min(6144));
            dots(system, &table, values.written);
            say(system, b"\"/>\n</svg>\n");
        }
        Err(x) => lists::refused(system, STDOUT_FILENO, x),
    }
}
