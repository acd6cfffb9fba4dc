// Runs the last four of the checked examples, and prints for each the number that the call answers.
#![tactic(auto)]

use console::Console;
use drawing::{Drawn, Record, View};
use std::fmt;
use std::fmt::Write;

fn line(out: &mut Console, name: &str, number: u64) -> fmt::Result {
    writeln!(out, "{name}: {number}")
}

// The number of a level record drawn at y = place.
fn drawn(place: i32) -> u64 {
    let view = View {
        ox: 0,
        oy: 0,
        zoom: 0,
    };
    let level = Record {
        kind: 0,
        place,
        from: 0,
        to: 1,
    };
    match drawing::draw(view, level) {
        Drawn::Level(_) | Drawn::Upright(_) => 0,
        Drawn::Refused(number) => u64::from(number),
    }
}

// The number of the area of an expression over an edge list.
fn answered(numbers: &[i32], text: &[u8]) -> u64 {
    match engine::area(numbers, text) {
        Ok(_) => 0,
        Err(refusal) => refusal.number(),
    }
}

// The number of an expression, over no edges.
fn text(s: &[u8]) -> u64 {
    answered(&[], s)
}

// The number of an edge list.
fn list(numbers: &[i32]) -> u64 {
    answered(numbers, b"a")
}

// A, which is (0,0,10,0), (0,5,0,10), over and over, in a list of zeros.
fn repeat(numbers: &mut [i32]) {
    for a in numbers.chunks_exact_mut(8) {
        a[2] = 10;
        a[5] = 5;
        a[7] = 10;
    }
}

// Example 13; the list is no longer closed once its first edge is turned round.
fn many_edges(out: &mut Console) -> fmt::Result {
    let mut numbers = [0i32; 16392];
    repeat(&mut numbers);
    line(out, "13, 4,096 edges, closed", list(&numbers[0..16384]))?;
    line(out, "13, 4,097 edges", list(&numbers[0..16388]))?;
    numbers[2] = 0;
    numbers[3] = 10;
    line(out, "13, 4,096 edges, not closed", list(&numbers[0..16384]))
}

fn run(out: &mut Console) -> fmt::Result {
    line(out, "11, offset 16,777,216", drawn(16777216))?;
    line(out, "11, offset 16,777,217", drawn(16777217))?;
    line(
        out,
        "12, a in 16 parentheses",
        text(b"((((((((((((((((a))))))))))))))))"),
    )?;
    line(
        out,
        "12, a in 17 parentheses",
        text(b"(((((((((((((((((a)))))))))))))))))"),
    )?;
    many_edges(out)?;
    line(
        out,
        "14, 64 bytes of expression",
        text(b"a-!a+a+a+a+a+a+a+a+a+a+a+a+a+a+a+a+a+a+a+a+a+a+a+a+a+a+a+a+a+a+a"),
    )?;
    line(
        out,
        "14, 65 bytes of expression",
        text(b"a+a+a+a+a+a+a+a+a+a+a+a+a+a+a+a+a+a+a+a+a+a+a+a+a+a+a+a+a+a+a+a+a"),
    )
}

fn main() {
    let _ = run(&mut Console);
}
