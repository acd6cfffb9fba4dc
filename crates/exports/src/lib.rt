// The calls as they are exported: over slices, numbers and C's structs. None has a `requires`, and what each promises is what the call that it hands on
// promises. The crate `exports_c` hands them to C under the same names.
#![tactic(auto)]

ghost use Rattle.std.specs.Prelude.{◌≡◌};
ghost use Rattle.meaning.specs.Calls.{outcome, Runs, Areas};
ghost use Rattle.meaning.specs.Faults.{Read, Written, Edged};
ghost use Rattle.answers.specs.Said.{said};
ghost use Rattle.drawing.specs.Drawing.{Drawing};
ghost use Rattle.exports.specs.Shown.{shown, Shows};

use answers::Answer;
use drawing::{Drawn, Record, View};

// The records of an expression over an edge list.
pub fn laukavesp_run(edges: &[i32], expression: &[u8], records: &mut [i32]) -> Answer
    ensures { Runs edges.now expression.now records.old (outcome (said result) records.new) }
{
    engine::run(edges, expression, records).into()
}

// The cells of an expression over an edge list.
pub fn laukavesp_area(edges: &[i32], expression: &[u8]) -> Answer
    ensures { Areas edges.now expression.now (said result) }
{
    engine::area(edges, expression).into()
}

// The ring list of a mask file.
pub fn laukavesp_read(file: &[u8], rings: &mut [i32]) -> Answer
    ensures { Read file.now rings.old (said result, rings.new) }
{
    maskfile::read(file, rings).into()
}

// The mask file of a ring list.
pub fn laukavesp_write(rings: &[i32], file: &mut [u8]) -> Answer
    ensures { Written rings.now file.old (said result, file.new) }
{
    maskwriter::write(rings, file).into()
}

// The edges of a ring list.
pub fn laukavesp_edges(rings: &[i32], edges: &mut [i32]) -> Answer
    ensures { Edged rings.now edges.old (said result, edges.new) }
{
    ringedges::edges_of(rings, edges).into()
}

// A drawn edge: the answer's number, 0 for level or 1 for upright, its place and its two ends. On a refusal all but the number are zero.
#[repr(C)]
#[derive(Clone, Copy, Debug)]
pub struct DrawnNumbers {
    pub number: u32,
    pub upright: u32,
    pub place: f32,
    pub from: f32,
    pub to: f32,
}

impl From<Drawn> for DrawnNumbers {
    ghost from_gives = { λ drawn numbers. numbers ≡ shown drawn };

    fn from(drawn: Drawn) -> DrawnNumbers {
        match drawn {
            Drawn::Level(e) => DrawnNumbers {
                number: 0,
                upright: 0,
                place: e.place,
                from: e.from,
                to: e.to,
            },
            Drawn::Upright(e) => DrawnNumbers {
                number: 0,
                upright: 1,
                place: e.place,
                from: e.from,
                to: e.to,
            },
            Drawn::Refused(number) => DrawnNumbers {
                number,
                upright: 0,
                place: 0.0,
                from: 0.0,
                to: 0.0,
            },
        }
    }
}

// The record (kind, place, from, to) in the view with the origin (ox, oy) and the zoom.
pub fn laukavesp_draw(
    ox: i32,
    oy: i32,
    zoom: i32,
    kind: i32,
    place: i32,
    from: i32,
    to: i32,
) -> DrawnNumbers
    ensures { Shows (Drawing ox oy zoom kind place from to) result }
{
    let view = View { ox, oy, zoom };
    let record = Record {
        kind,
        place,
        from,
        to,
    };
    drawing::draw(view, record).into()
}
