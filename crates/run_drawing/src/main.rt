// Draws records and prints for each the answer's number, its case, and the bits of the three floats in hexadecimal.
#![tactic(auto)]

use console::Console;
use drawing::{Drawn, Floats, Record, View};
use std::fmt;
use std::fmt::Write;

// The bits of a number; all ones for what is no number.
fn bits(x: f32) -> u32 {
    if x.is_nan() { u32::MAX } else { x.to_bits() }
}

// The line of a record, given as kind, place, from and to, in a view, given as its origin and zoom.
fn line(out: &mut Console, view: [i32; 3], given: [i32; 4]) -> fmt::Result {
    let [ox, oy, zoom] = view;
    let [kind, place, from, to] = given;
    let view = View { ox, oy, zoom };
    let given = Record {
        kind,
        place,
        from,
        to,
    };
    let (case, floats) = match drawing::draw(view, given) {
        Drawn::Level(floats) => ("level", floats),
        Drawn::Upright(floats) => ("upright", floats),
        Drawn::Refused(number) => return writeln!(out, "{number} refused"),
    };
    let Floats { place, from, to } = floats;
    writeln!(
        out,
        "0 {case} {:08x} {:08x} {:08x}",
        bits(place),
        bits(from),
        bits(to)
    )
}

// Examples 10 and 11: an offset of 16,777,216 is drawn and one of 16,777,217 refused, as a place and as either end.
fn examples(out: &mut Console) -> fmt::Result {
    line(out, [0, 0, 1], [0, 5, 6, 10])?;
    line(out, [0, 0, 0], [0, 16777216, 16777216, -16777216])?;
    line(out, [0, 0, 16], [1, -16777216, 16777216, -16777216])?;
    line(out, [0, 0, 0], [0, 16777217, 0, 1])?;
    line(out, [0, 0, 0], [0, 0, -16777217, 1])?;
    line(out, [0, 0, 16], [1, 0, 1, 16777217])
}

// 19, where every later refusal would be due too.
fn views(out: &mut Console) -> fmt::Result {
    line(out, [1073741825, 0, 0], [2, 0, 3, 3])?;
    line(out, [0, -1073741825, 0], [2, 0, 3, 3])?;
    line(out, [0, 0, 17], [2, 0, 3, 3])?;
    line(out, [0, 0, -1], [2, 0, 3, 3])?;
    line(out, [0, 0, -2147483648], [0, 0, 3, 5])
}

// 3 before 4, 4 before 20, and 20 where a float could hold the offset, or where it is the largest of all.
fn records(out: &mut Console) -> fmt::Result {
    line(out, [0, 0, 16], [2, 0, 3, 3])?;
    line(out, [0, 0, 16], [-1, 0, 3, 3])?;
    line(out, [0, 0, 16], [0, 1073741825, 3, 3])?;
    line(out, [0, 0, 16], [0, 0, -1073741825, 3])?;
    line(out, [0, 0, 16], [0, 0, 3, 2147483647])?;
    line(out, [0, 0, 16], [1, 16777217, 3, 3])?;
    line(out, [0, 0, 0], [1, 16777218, 3, 4])?;
    line(out, [-1073741824, 0, 16], [1, 1073741824, 3, 4])
}

// The axes of both kinds, the least numbers at zoom 16, and plus zero on either axis.
fn axes(out: &mut Console) -> fmt::Result {
    line(out, [100, 7, 0], [0, 17, 103, 101])?;
    line(out, [100, 7, 0], [1, 103, 17, 9])?;
    line(out, [0, 0, 16], [1, -1, 3, 16777215])?;
    line(out, [100, 7, 16], [0, 7, 100, 99])?;
    line(out, [100, 7, 3], [1, 100, 8, 7])?;
    line(
        out,
        [1073741824, -1073741824, 2],
        [0, -1073741824, 1073741824, 1073741823],
    )
}

fn run(out: &mut Console) -> fmt::Result {
    examples(out)?;
    views(out)?;
    records(out)?;
    axes(out)
}

fn main() {
    let _ = run(&mut Console);
}
