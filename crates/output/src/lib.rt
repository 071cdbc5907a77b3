// Lines of decimal numbers on standard output, for a program that answers questions. A line is composed in a buffer and written at once, a long one part by
// part. What reaches the output no contract states, and the case files hold it. Relies on `text` for numbers, and on `io`.
#![tactic(auto)]

ghost use Rattle.output.specs.Numbers.{WroteNumbers};

use text::Writer;

// A part of a line has at most so many numbers.
const PART: usize = 1024;

// Most lines have no more than so many: they take less room.
const SHORT: usize = 384;

// Room for a part and the line's end: a number and the space before it take at most 21 bytes.
const ROOM: usize = 21 * PART + 1;

const SHORT_ROOM: usize = 21 * SHORT + 1;

// Writes numbers one after the other, with a space before each.
fn put_part<T: Copy + Into<usize>>(w: &mut Writer, part: &[T])
    ensures { WroteNumbers T.converts part.now w.old w.new }
{
    for n in part {
        w.put(b" ");
        w.put_decimal((*n).into());
    }
}

// A part of a line, written at once. The space before the line's first number is passed over, and the line's end stands behind the last part.
fn write_part<T: Copy + Into<usize>>(part: &[T], is_first: bool, is_last: bool, out: &mut [u8]) {
    let mut writer = Writer::new(out);
    put_part(&mut writer, part);
    if is_last {
        writer.put(b"\n");
    }
    let start = if is_first { part.len().min(1) } else { 0 };
    io::write_all(1, writer.text().get(start..).unwrap_or(b""));
}

fn write_short<T: Copy + Into<usize>>(slice: &[T]) {
    let mut out = [0u8; SHORT_ROOM];
    write_part(slice, true, true, &mut out);
}

fn write_long<T: Copy + Into<usize>>(slice: &[T]) {
    let mut out = [0u8; ROOM];
    let last = slice.len().saturating_sub(1) / PART;
    for (i, part) in slice.chunks(PART).enumerate() {
        write_part(part, i == 0, i == last, &mut out);
    }
}

// A line of numbers, with a space before each but the first.
pub fn numbers<T: Copy + Into<usize>>(slice: &[T]) {
    if slice.len() <= SHORT {
        return write_short(slice);
    }
    write_long(slice);
}

// The line that ends an answer.
pub fn end_answer() {
    io::write_all(1, b".\n");
}
