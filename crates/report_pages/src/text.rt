// The text of the report, to the letter.
ghost use Rattle.std.specs.Prelude.{take};
ghost use Rattle.words.specs.Gathered.{Put};
ghost use Rattle.words.specs.Texts.{Puts};
ghost use Rattle.wcdma_shape.specs.Rectangle.{Size};
ghost use Rattle.wcdma_report.specs.Report.{Between, figures, totals, sizes_in};
ghost use Rattle.report_pages.specs.Text.{field_text, row_text, rows_text, total_text, report_text, refusal_text, answer_text};

use super::taken::MOST;
use system::System;
use wcdma_report::{Figures, Totals};
use words::text::{ROOM, Text};

// A number, and what stands behind it.
fn field(text: &mut Text, n: u32, end: &[u8])
    ensures { Puts text.old (field_text n end.now) text.new }
{
    text.put_number(n as u64);
    text.put(end);
}

// A line: K, R, C, cells and padding.
fn row(text: &mut Text, f: Figures)
    ensures { Puts text.old (row_text f) text.new }
{
    field(text, f.k, b" ");
    field(text, f.r, b" ");
    field(text, f.c, b" ");
    field(text, f.cells, b" ");
    field(text, f.pads, b"\n");
}

fn row_of(text: &mut Text, k: u32)
    requires { Size k }
    ensures { Puts text.old (row_text (figures k)) text.new }
{
    match wcdma_report::figures_of(k) {
        Ok(f) => row(text, f),
        Err(_) => {}
    }
}

// The lines from a first K to a last.
fn rows(text: &mut Text, first: u32, last: u32)
    requires { Between first last }
    ensures { Puts text.old (rows_text first (sizes_in first last)) text.new }
{
    for k in first..last + 1 {
        row_of(text, k);
    }
}

// The last line: sizes, cells and padding.
fn total(text: &mut Text, t: Totals)
    ensures { Puts text.old (total_text t) text.new }
{
    text.put(b"total ");
    field(text, t.sizes, b" ");
    field(text, t.cells, b" ");
    field(text, t.pads, b"\n");
}

fn total_of(text: &mut Text, first: u32, last: u32)
    requires { Between first last }
    ensures { Puts text.old (total_text (totals first last)) text.new }
{
    match wcdma_report::totals_of(first, last) {
        Ok(t) => total(text, t),
        Err(_) => {}
    }
}

fn put_report(text: &mut Text, first: u32, last: u32)
    requires { Between first last }
    ensures { Puts text.old (report_text first last) text.new }
{
    text.put(b"K R C cells pads\n");
    rows(text, first, last);
    total_of(text, first, last);
}

fn put_refusal(text: &mut Text, number: u32)
    ensures { Puts text.old (refusal_text number) text.new }
{
    text.put(b"refused ");
    field(text, number, b"\n");
}

// What the bytes of two lines give, the report or the refusal, behind what waits.
pub fn put_behind(text: &mut Text, bytes: &[u8])
    ensures { Puts text.old (answer_text bytes.now) text.new }
{
    match report_asked::read(bytes) {
        Ok(r) => put_report(text, r.first, r.last),
        Err(k) => put_refusal(text, k),
    }
}

// The same into a room of the caller's, from its start on. Answers how many bytes wait there.
pub fn put_answer(system: System, room: &mut [u8; ROOM], bytes: &[u8]) -> usize
    ensures { Put room.old 0 (answer_text bytes.now) room.new result }
{
    let mut text = Text::over(system, *room, 0);
    put_behind(&mut text, bytes);
    *room = *text.room();
    text.waiting().len()
}

// What the first n of the bytes that were read give.
pub(super) fn put_taken(
    system: System,
    room: &mut [u8; ROOM],
    bytes: &[u8; MOST],
    n: usize,
) -> usize
    ensures { Put room.old 0 (answer_text (take n bytes.now)) room.new result }
{
    put_answer(system, room, lines::first(bytes, n))
}
