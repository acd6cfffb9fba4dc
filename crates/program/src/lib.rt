// What the program does between reading and writing: input bytes to output bytes.
#![tactic(auto)]

ghost use Rattle.std.specs.Prelude.{◌≡◌, eqb, position};
ghost use Rattle.meaning.specs.Program.{Prints};
ghost use Rattle.program.specs.Parts.{OfEdges, OfFile};
ghost use Rattle.program.specs.Answered.{Answered, Answers};

use answers::{Answer, Refusal};

// The most bytes of an input.
const LONGEST: usize = 65536;

// The numbers of the records for which there is room: 2,048 records.
const ROOM: usize = 8192;

// The bytes of the longest output: see printed::accepted.
pub const OUTPUT: usize = 98353;

// The text of the answer to an expression over an edge list: records and area from one walk.
fn answer_edges(edges: &[i32], text: &[u8], output: &mut [u8; OUTPUT]) -> Result<usize, Refusal>
    ensures { Answers (OfEdges edges.now text.now) output.old output.new result }
{
    let mut records = [0i32; ROOM];
    let found = engine::walk(edges, text, &mut records)?;
    let count = found.records?;
    let n = count as usize * 4;
    Ok(printed::accepted(output, &records[0..n], count, found.cells))
}

// The text of the answer to an expression over a mask file.
fn answer_file(file: &[u8], text: &[u8], output: &mut [u8; OUTPUT]) -> Result<usize, Refusal>
    ensures { Answers (OfFile file.now text.now) output.old output.new result }
{
    let mut rings = [0i32; 12288];
    let n = maskfile::read(file, &mut rings)? as usize;
    let mut edges = [0i32; 16384];
    let m = ringedges::edges_of(&rings[0..n], &mut edges)? as usize;
    answer_edges(&edges[0..m], text, output)
}

// The place of the first line feed.
fn line_feed(input: &[u8]) -> Option<usize>
    ensures { result ≡ position (λ b. eqb b 10) input.now }
{
    input.iter().position(|b| *b == b'\n')
}

// The text of the answer to an input: the expression stands before the first line feed, and the mask file after it.
fn answer_input(input: &[u8], output: &mut [u8; OUTPUT]) -> Result<usize, Refusal>
    ensures { Answers (Prints input.now) output.old output.new result }
{
    if LONGEST < input.len() {
        return Err(Refusal::FileTooLong);
    }
    match line_feed(input) {
        Some(end) => answer_file(&input[end + 1..], &input[0..end], output),
        None => answer_file(&[], input, output),
    }
}

// What the program prints for its input, at the front of the output; the answer counts its bytes.
pub fn answer(input: &[u8], output: &mut [u8; OUTPUT]) -> usize
    ensures { Answered (Prints input.now) output.old output.new result }
{
    match answer_input(input, output) {
        Ok(bytes) => bytes,
        Err(refusal) => printed::refused(output, Answer::from(Err(refusal))),
    }
}
