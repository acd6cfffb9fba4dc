// The calls as C functions, as include/laukavesp.h declares them: a slice is a pointer and its length in elements. Each hands its call on to `exports`, word for word.
#![tactic(auto)]

ghost use Rattle.meaning.specs.Calls.{outcome, Runs, Areas};
ghost use Rattle.meaning.specs.Faults.{Read, Written, Edged};
ghost use Rattle.answers.specs.Said.{said};
ghost use Rattle.drawing.specs.Drawing.{Drawing};
ghost use Rattle.exports.specs.Shown.{Shows};

use answers::Answer;
use exports::DrawnNumbers;

// The records of an expression over an edge list.
#[unsafe(no_mangle)]
pub extern "C" fn laukavesp_run(edges: &[i32], expression: &[u8], records: &mut [i32]) -> Answer
    ensures { Runs edges.now expression.now records.old (outcome (said result) records.new) }
{
    exports::laukavesp_run(edges, expression, records)
}

// The cells of an expression over an edge list.
#[unsafe(no_mangle)]
pub extern "C" fn laukavesp_area(edges: &[i32], expression: &[u8]) -> Answer
    ensures { Areas edges.now expression.now (said result) }
{
    exports::laukavesp_area(edges, expression)
}

// The ring list of a mask file.
#[unsafe(no_mangle)]
pub extern "C" fn laukavesp_read(file: &[u8], rings: &mut [i32]) -> Answer
    ensures { Read file.now rings.old (said result, rings.new) }
{
    exports::laukavesp_read(file, rings)
}

// The mask file of a ring list.
#[unsafe(no_mangle)]
pub extern "C" fn laukavesp_write(rings: &[i32], file: &mut [u8]) -> Answer
    ensures { Written rings.now file.old (said result, file.new) }
{
    exports::laukavesp_write(rings, file)
}

// The edges of a ring list.
#[unsafe(no_mangle)]
pub extern "C" fn laukavesp_edges(rings: &[i32], edges: &mut [i32]) -> Answer
    ensures { Edged rings.now edges.old (said result, edges.new) }
{
    exports::laukavesp_edges(rings, edges)
}

// The record (kind, place, from, to) in the view with the origin (ox, oy) and the zoom.
#[unsafe(no_mangle)]
pub extern "C" fn laukavesp_draw(
    ox: i32,
    oy: i32,
    zoom: i32,
    kind: i32,
    place: i32,
    from: i32,
    to: i32,
) -> DrawnNumbers
    ensures { Shows (Drawing ox oy zoom kind place from to) result }
{
    exports::laukavesp_draw(ox, oy, zoom, kind, place, from, to)
}
