// The calls run and area: one walk tells both. Cost: the order of the edges' x and of their y, for each edge the strips that it spans, for each place the strips between its
// edges' ends, and the records; where the horizontals are more than the working array holds, the sweep twice.
#![tactic(auto)]

ghost use Rattle.meaning.specs.Calls.{outcome, Runs, Areas};
ghost use Rattle.answers.specs.Told.{told};
ghost use Rattle.walking.specs.Walks.{Walks};

use answers::Refusal;
use writing::Found;

// What run answers, with its records in the lent buffer, and the inside cells.
//
// It is made part of its callers: so a list that is refused here is told so at once, and not by an answer that is copied first.
#[inline(always)]
pub fn walk(edges: &[i32], text: &[u8], records: &mut [i32]) -> Result<Found, Refusal>
    ensures { Walks edges.now text.now records.old records.new result }
{
    edges::judge(edges)?;
    rooms::walk(edges, text, records)
}

// The records of an expression over an edge list, into the lent buffer.
pub fn run(edges: &[i32], text: &[u8], records: &mut [i32]) -> Result<u64, Refusal>
    ensures { Runs edges.now text.now records.old (outcome (told result) records.new) }
{
    walk(edges, text, records)?.records
}

// The number of inside cells of an expression over an edge list. The walk is lent a buffer that has no room for a record.
pub fn area(edges: &[i32], text: &[u8]) -> Result<u64, Refusal>
    ensures { Areas edges.now text.now (told result) }
{
    let mut none = [0i32; 1];
    Ok(walk(edges, text, &mut none)?.cells)
}
