#![tactic(auto)]

// Reads an expression, a line feed and a mask file from standard input, and prints the answer: one read, one write.
fn main() {
    let mut input = [0u8; 65537];
    let n = io::read_full(0, &mut input);
    let mut output = [0u8; program::OUTPUT];
    let k = program::answer(&input[0..n], &mut output);
    io::write_all(1, &output[0..k]);
}
