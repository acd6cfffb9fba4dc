// Judging rings number by number: what has been read, the fault of the number that is due, and what has been read after it.
#![tactic(auto)]

ghost use Rattle.std.specs.Prelude.{◌≡◌, ◌+◌, ◌<◌, None, pos, length, get_or, set};
ghost use Rattle.basic_laws.specs.Signed.{key_of, unkey_of};
ghost use Rattle.meaning.specs.Numbers.{limit};
ghost use Rattle.rings.specs.State.{start, outside, meets, first_of, coordinate_fault, fault_of, placed, next_of, judged_as, may_end, is_coordinate, before_of, due_in_list};

use answers::Refusal;
use numbers::Number;
use scanline::Scanline;

// 2^31: a coordinate stands so far above itself.
pub const HALF: u64 = whole::HALF as u64;

// The least coordinate, as it stands.
const LEAST: u64 = HALF - Scanline::LIMIT as u64;

// The greatest coordinate, as it stands.
const GREATEST: u64 = HALF + Scanline::LIMIT as u64;

// The last layer.
const LAST: u64 = Scanline::LAYERS as u64 - 1;

// The most pairs of a file.
const PAIRS: u64 = 4096;

// The number that is due.
#[derive(Clone, Copy, Debug, PartialEq, Eq)]
pub enum Due {
    Layer,
    Count,
    X,
    Y,
}

// What is known between two numbers. `more` are the pairs of the ring after the one that is due or begun, `room` the pairs that other rings may
// still have; `fresh` says that no pair of the ring is whole yet. (px, py) is the pair before and (fx, fy) the ring's first: coordinates stand 2^31
// above themselves.
//
// What may not change: it is one struct, since `next_of` and `Sane` (specs/State.antt) speak of every field whichever number is due; and `Sane` is not its invariant, since
// `state_of` (reading_laws/specs/StateOf.antt) is a State of every beginning, also of one that is out of bounds. No plainer: `fresh` as an Option of (fx, fy), whose x is known a
// number before its y.
#[derive(Clone, Copy, Debug, PartialEq, Eq)]
pub struct State {
    pub due: Due,
    pub layer: u64,
    pub more: u64,
    pub room: u64,
    pub fresh: bool,
    pub px: u64,
    pub py: u64,
    pub fx: u64,
    pub fy: u64,
}

// Between rings.
fn between(room: u64) -> State
    ensures { result ≡ start room }
{
    State {
        due: Due::Layer,
        layer: 0,
        more: 0,
        room,
        fresh: true,
        px: HALF,
        py: HALF,
        fx: HALF,
        fy: HALF,
    }
}

// Before the first ring.
pub fn begin() -> State
    ensures { result ≡ start 4096 }
{
    between(PAIRS)
}

// Is a coordinate out of range?
fn outside(v: u64) -> bool
    ensures { result ≡ outside limit v }
{
    !(LEAST..=GREATEST).contains(&v)
}

// What is known of a ring along one axis: the coordinate of the pair before and that of the first pair; `fresh` and `more` as of a State.
#[derive(Clone, Copy)]
struct Axis {
    fresh: bool,
    more: u64,
    before: u64,
    first: u64,
}

impl Axis {
    // Is v equal to the coordinate of a cyclic neighbour before it? For speed `&` and `|`, which make no jump.
    fn meets(self, v: u64) -> bool
        ensures { result ≡ meets self.fresh self.more v self.before self.first }
    {
        if self.more == 0 {
            return !self.fresh & ((v == self.before) | (v == self.first));
        }
        !self.fresh & (v == self.before)
    }

    // The ring's first coordinate, once v is read.
    fn first_of(self, v: u64) -> u64
        ensures { result ≡ first_of self.fresh v self.first }
    {
        if self.fresh {
            return v;
        }
        self.first
    }

    // The fault of v, which stands at `at`.
    fn fault(self, v: u64, at: usize) -> Result<(), Refusal>
        ensures { result ≡ placed (coordinate_fault limit self.fresh self.more v self.before self.first) at }
    {
        if outside(v) {
            return Err(Refusal::RingOutOfRange(at));
        }
        if self.meets(v) {
            return Err(Refusal::NeighboursEqual(at));
        }
        Ok(())
    }
}

impl State {
    // The ring along an axis, on which the pair before and the first pair have these coordinates.
    fn along(self, before: u64, first: u64) -> Axis
        ensures { result ≡ record { fresh = self.fresh; more = self.more; before = before; first = first } }
    {
        Axis {
            fresh: self.fresh,
            more: self.more,
            before,
            first,
        }
    }

    // Where a coordinate is due, that of the pair before.
    pub fn before(self) -> Option<u64>
        ensures { result ≡ before_of self }
    {
        match self.due {
            Due::Layer => None,
            Due::Count => None,
            Due::X => Some(self.px),
            Due::Y => Some(self.py),
        }
    }

    // The ring along x.
    fn x(self) -> Axis
        ensures { result ≡ record { fresh = self.fresh; more = self.more; before = self.px; first = self.fx } }
    {
        self.along(self.px, self.fx)
    }

    // The ring along y.
    fn y(self) -> Axis
        ensures { result ≡ record { fresh = self.fresh; more = self.more; before = self.py; first = self.fy } }
    {
        self.along(self.py, self.fy)
    }
}

// The fault of the due number v, which stands at `at`.
#[tactic(auto, unfolding(crate::specs::State::fault_of))]
fn fault(s: State, v: u64, at: usize) -> Result<(), Refusal>
    ensures { result ≡ placed (fault_of limit s v) at }
{
    match s.due {
        Due::Layer => {
            if LAST < v {
                return Err(Refusal::RingOutOfRange(at));
            }
            Ok(())
        }
        Due::Count => {
            if v < 2 {
                return Err(Refusal::RingOutOfRange(at));
            }
            if s.room < v {
                return Err(Refusal::TooManyPairs(at));
            }
            Ok(())
        }
        Due::X => s.x().fault(v, at),
        Due::Y => s.y().fault(v, at),
    }
}

// The due number v, which stands at `at` and ends before `next`.
pub fn judged(s: State, v: u64, at: usize, next: usize) -> Result<Number, Refusal>
    ensures { result ≡ judged_as limit s v at next }
{
    fault(s, v, at)?;
    Ok(Number { value: v, next })
}

// What has been read after the due number v, which has no fault.
#[tactic(auto, unfolding(crate::specs::State::next_of))]
pub fn after(s: State, v: u64) -> State
    requires { fault_of limit s v ≡ None }
    ensures { result ≡ next_of s v }
{
    match s.due {
        Due::Layer => State {
            due: Due::Count,
            layer: v,
            ..s
        },
        Due::Count => State {
            due: Due::X,
            more: v - 1,
            room: s.room - v,
            ..s
        },
        Due::X => State {
            due: Due::Y,
            px: v,
            fx: s.x().first_of(v),
            ..s
        },
        Due::Y => {
            if s.more == 0 {
                return between(s.room);
            }
            State {
                due: Due::X,
                more: s.more - 1,
                fresh: false,
                py: v,
                fy: s.y().first_of(v),
                ..s
            }
        }
    }
}

// May a file or a ring list end here?
pub fn may_end(due: Due) -> bool
    ensures { result ≡ may_end due }
{
    due == Due::Layer
}

// A number of a ring list, 2^31 above itself.
fn number(list: &[i32], i: usize) -> u32
    requires { i < length list.now }
    ensures { result ≡ key_of (get_or list.now i (pos 0)) }
{
    whole::key(list[i])
}

// Is the due number an x or a y?
pub fn is_coordinate(due: Due) -> bool
    ensures { result ≡ is_coordinate due }
{
    matches!(due, Due::X | Due::Y)
}

// The due number of a ring list, which stands at i.
#[tactic(auto, unfolding(crate::specs::State::due_in_list))]
pub fn due_in(list: &[i32], i: usize, s: State) -> Result<Number, Refusal>
    requires { i < length list.now }
    ensures { result ≡ due_in_list limit s (key_of (get_or list.now i (pos 0))) i }
{
    let u = u64::from(number(list, i));
    // For speed x and y are two arms, alike as they are, and `is_coordinate` is not asked: so what follows is compiled for each, and not asked anew which is due.
    match s.due {
        Due::X => judged(s, u, i, i + 1),
        Due::Y => judged(s, u, i, i + 1),
        Due::Layer | Due::Count => {
            if u < HALF {
                return Err(Refusal::RingOutOfRange(i));
            }
            judged(s, u - HALF, i, i + 1)
        }
    }
}

// Writes at n, where there is room for it, the number that stands 2^31 below k.
//
// What may not change: it takes any u64 that fits, and a narrower type would ask more of its callers. A place beside a buffer: see `numbers::put`.
pub fn put(out: &mut [i32], n: usize, k: u64)
    requires { k < 4294967296 }
    ensures { out.new ≡ set out.old n (unkey_of k) }
{
    numbers::put(out, n, whole::unkey(k as u32));
}
