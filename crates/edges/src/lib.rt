// Judging the records of an edge list: refusals 1 to 4, in the order of the table. Whether the list is closed is not asked here.
#![tactic(auto)]

ghost use Rattle.meaning.specs.Numbers.{limit};
ghost use Rattle.meaning.specs.Answers.{First};
ghost use Rattle.laws.specs.Accepting.{Passed};
ghost use Rattle.answers.specs.Told.{verdict};
ghost use Rattle.edges.specs.Answering.{list_rows};

use answers::Refusal;
use edge::Record;

// The most edges that a list may have.
const MOST: usize = 4096;

// The first of the refusals 1 to 4 of an edge list.
pub fn judge(edges: &[i32]) -> Result<(), Refusal>
    ensures { First (list_rows 7 limit edges.now) Passed (verdict result) }
{
    if edges.len() % 4 != 0 {
        return Err(Refusal::NotFours);
    }
    let n = edges.len() / 4;
    if MOST < n {
        return Err(Refusal::TooManyEdges);
    }
    for k in 0..n {
        let record = Record::at(edges, k);
        if !record.is_sound() {
            return Err(Refusal::OutOfRange(k));
        }
        if record.is_flat() {
            return Err(Refusal::FromEqualsTo(k));
        }
    }
    Ok(())
}
