// Judges each line of standard input as an expression and writes a line for it: the number of the answer and its value, and the sum of m + 1 over the covers m at which the text
// holds.
#![tactic(auto)]

use console::Console;
use std::fmt;
use std::fmt::Write;

// The sum of m + 1 over the covers m at which the table holds.
fn sum_of_covers(truth: &[bool; 256]) -> u64 {
    // The loop stays: tried as `filter`, `map` and `sum`, and the proof that the sum fits did not close: what the closure adds is not shown to be bounded.
    let mut n = 0;
    for (m, holds) in truth.iter().enumerate() {
        if *holds {
            n += m as u64 + 1;
        }
    }
    n
}

// Writes the line of an answer. It is apart so that the stack that writing wants is not taken while a text is read.
#[inline(never)]
fn put(out: &mut Console, number: u64, sum: u64) -> fmt::Result {
    writeln!(out, "{number} 0 {sum}")
}

fn answer(out: &mut Console, text: &[u8]) -> fmt::Result {
    let sum = sum_of_covers(&expression::table(text));
    put(out, expression::number(expression::judge(text)), sum)
}

// Each line ends at a line feed, or where the input ends.
fn answer_lines(out: &mut Console, input: &[u8]) -> fmt::Result {
    if input.is_empty() {
        return Ok(());
    }
    let lines = input.strip_suffix(b"\n").unwrap_or(input);
    for line in lines.split(|b| *b == b'\n') {
        answer(out, line)?;
    }
    Ok(())
}

fn main() {
    let mut input = [0u8; 65536];
    let n = io::read_full(0, &mut input);
    let _ = answer_lines(&mut Console, &input[0..n]);
}
