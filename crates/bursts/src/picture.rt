// A burst as an SVG: above the channel with the burst in it, below the deinterleaver's output, and a stroke for each byte from the one to the other.
// Across are bytes, from the burst's first on: a unit is one byte, and five where the kind is ATSC, so that the pictures of both kinds have one width. A
// stroke is wider than a byte.
ghost use Rattle.std.specs.Prelude.{◌≤◌};

use super::Burst;
use kinds::Stream;
use kinds::sizes::Sizes;
use system::{STDOUT_FILENO, System};
use words::text::{Text, say, write};

// The number that goes with a kind.
fn by(kind: u32, dvb: u64, atsc: u64) -> u64 {
    if kind == Stream::DVB { dvb } else { atsc }
}

// How many whole units x bytes are.
fn units(kind: u32, x: u64) -> u64
    ensures { result ≤ x }
{
    if kind == Stream::DVB { x } else { x / 5 }
}

// x bytes, in units.
fn put_units(text: &mut Text, kind: u32, x: u64) {
    text.put_number(units(kind, x));
    if kind != Stream::DVB {
        text.put(b".");
        text.put_number(x % 5 * 2);
    }
}

// Where byte i comes out, counted from the burst's first.
fn across(burst: Burst, i: u32) -> u64 {
    channel::place(burst.kind, burst.at, i) - burst.at as u64
}

// A stroke for each byte: through the channel, to its place, through the output.
fn strokes(system: System, burst: Burst) {
    let mut text = Text::new(system);
    for i in 0..burst.length {
        text.put(b"M");
        put_units(&mut text, burst.kind, u64::from(i));
        text.put(b" 0v100L");
        put_units(&mut text, burst.kind, across(burst, i));
        text.put(b" 350v100");
    }
    text.flush();
}

// The place of each byte, between `before` and `behind` where it stands.
fn places(system: System, burst: Burst, before: &[u8], behind: &[u8]) {
    let mut text = Text::new(system);
    for i in 0..burst.length {
        text.put(before);
        put_units(&mut text, burst.kind, across(burst, i));
        text.put(behind);
        text.put_number(burst.place(i));
        text.put(b"</text>");
    }
    text.flush();
}

// The places below the strokes. ATSC's stand closer, and theirs are turned upright.
fn numbers(system: System, burst: Burst) {
    write(
        system,
        STDOUT_FILENO,
        b"<g font-family=\"sans-serif\" fill=\"#444\" font-size=\"36\"",
    );
    if burst.kind == Stream::DVB {
        write(system, STDOUT_FILENO, b" text-anchor=\"middle\">");
        places(system, burst, b"<text x=\"", b"\" y=\"490\">");
    } else {
        write(system, STDOUT_FILENO, b">");
        places(
            system,
            burst,
            b"<text transform=\"translate(",
            b" 465)rotate(90)\" y=\"13\">",
        );
    }
    write(system, STDOUT_FILENO, b"</g>\n");
}

// A bar across the picture.
fn bar(system: System, top: u64, width: u64) {
    say(
        system,
        STDOUT_FILENO,
        b"<rect fill=\"#fff\" stroke=\"#999\" stroke-width=\"4\" x=\"-5\" height=\"100\" y=\"",
        top,
    );
    say(system, STDOUT_FILENO, b"\" width=\"", width);
    write(system, STDOUT_FILENO, b"\"/>\n");
}

// The burst's bytes, in words.
fn bytes(system: System, burst: Burst) {
    let from = u64::from(burst.at);
    if burst.length > 1 {
        say(system, STDOUT_FILENO, b"bytes ", from);
        say(
            system,
            STDOUT_FILENO,
            b" to ",
            from + u64::from(burst.length) - 1,
        );
        return;
    }
    say(system, STDOUT_FILENO, b"byte ", from);
}

// What the two bars are.
fn captions(system: System, burst: Burst) {
    write(
        system,
        STDOUT_FILENO,
        b"<g font-family=\"sans-serif\" fill=\"#444\" font-size=\"50\"><text y=\"-30\">channel: ",
    );
    bytes(system, burst);
    say(
        system,
        STDOUT_FILENO,
        b"</text><text y=\"",
        by(burst.kind, 560, 700),
    );
    write(system, STDOUT_FILENO, b"\">out of the deinterleaver: ");
    burst.tell_least(system);
    write(system, STDOUT_FILENO, b"</text></g>\n");
}

// The title.
fn title(system: System, kind: u32) {
    write(system, STDOUT_FILENO, b"<title>");
    if kind == Stream::DVB {
        write(system, STDOUT_FILENO, b"DVB");
    } else {
        write(system, STDOUT_FILENO, b"ATSC");
    }
    write(
        system,
        STDOUT_FILENO,
        b": a burst in the channel, and where its bytes come out of the deinterleaver</title>\n",
    );
}

// No byte comes out more places than this behind its own number: twice the store's length.
fn longest_delay(kind: u32) -> u64
    ensures { result ≤ 10608 }
{
    Sizes::of(kind).store as u64 * 2
}

fn head(system: System, burst: Burst) {
    let kind = burst.kind;
    let width = units(kind, u64::from(burst.length) + longest_delay(kind));
    say(
        system,
        STDOUT_FILENO,
        b"<svg xmlns=\"http://www.w3.org/2000/svg\" width=\"640\" height=\"",
        by(kind, 190, 230),
    );
    say(
        system,
        STDOUT_FILENO,
        b"\" viewBox=\"-110 -100 ",
        width + 220,
    );
    say(system, STDOUT_FILENO, b" ", by(kind, 700, 840));
    write(system, STDOUT_FILENO, b"\">\n");
    title(system, kind);
    bar(system, 0, width + 10);
    bar(system, 350, width + 10);
    captions(system, burst);
}

// `picture dvb burst` and `picture atsc burst`. The places are told where strokes are few, so that none stands closer than the proved distance, and
// the numbers short.
pub fn picture(system: System, kind: u32, at: u32, length: u32) {
    let burst = Burst::of(kind, at, length);
    head(system, burst);
    if burst.length as usize <= Sizes::of(kind).branches && at < 1000000 {
        numbers(system, burst);
    }
    say(
        system,
        STDOUT_FILENO,
        b"<path fill=\"none\" stroke=\"#046\" stroke-width=\"",
        by(kind, 6, 3),
    );
    write(system, STDOUT_FILENO, b"\" d=\"");
    strokes(system, burst);
    write(system, STDOUT_FILENO, b"\"/>\n</svg>\n");
}
