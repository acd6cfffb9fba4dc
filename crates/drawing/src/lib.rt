// Drawn numbers: one record in a view, its three numbers as exact 32-bit floats, or a refusal.
#![tactic(auto)]

ghost use Rattle.std.specs.Prelude.{true, ◌≡◌, ◌≤◌, nat_abs, ◌-ℤ◌};
ghost use Rattle.meaning.specs.Numbers.{zero_to, pick, in_range};
ghost use Rattle.meaning.specs.Drawn.{view_in_range, record_in_range, farthest, all_drawn, ExactFloat};
ghost use Rattle.drawing.specs.Drawing.{ExactFloats, ByOffsets, Drawing};

// A view: its origin, and the zoom.
#[derive(Clone, Copy, Debug, PartialEq, Eq)]
pub struct View {
    pub ox: i32,
    pub oy: i32,
    pub zoom: i32,
}

// A record as it is given: four numbers.
// One struct with `edge::Record` would be no plainer: there the first number is a layer, and the test is another.
// The kind is no enum. What may not change is that `Drawing` speaks of every kind, and answers one that is none with 3: C hands any number in.
#[derive(Clone, Copy, Debug, PartialEq, Eq)]
pub struct Record {
    pub kind: i32,
    pub place: i32,
    pub from: i32,
    pub to: i32,
}

// What a drawn edge carries: its place and its two ends.
#[derive(Clone, Copy, Debug)]
pub struct Floats {
    pub place: f32,
    pub from: f32,
    pub to: f32,
}

// A level edge, an upright one, or a refusal's number.
// A rule of the project: the specification, under "The form each place takes", names an enum with a refusal case that has a number, so a refusal is no `Err` and no `Refusal` here.
#[derive(Clone, Copy, Debug)]
pub enum Drawn {
    Level(Floats),
    Upright(Floats),
    Refused(u32),
}

fn is_zoom(zoom: i32) -> bool
    ensures { result ≡ zero_to 16 zoom }
{
    (0..=16).contains(&zoom)
}

fn is_kind(kind: i32) -> bool
    ensures { result ≡ zero_to 1 kind }
{
    (0..=1).contains(&kind)
}

impl View {
    #[tactic(auto, unfolding(meaning::specs::Drawn::view_in_range))]
    fn in_range(self) -> bool
        ensures { result ≡ view_in_range self.ox self.oy self.zoom }
    {
        whole::in_range(self.ox) && whole::in_range(self.oy) && is_zoom(self.zoom)
    }
}

impl Record {
    #[tactic(auto, unfolding(meaning::specs::Drawn::record_in_range), using(std::proofs::lemmas::Int::wraps))]
    fn in_range(self) -> bool
        ensures { result ≡ record_in_range self.kind self.place self.from self.to }
    {
        is_kind(self.kind)
            && whole::in_range(self.place)
            && whole::in_range(self.from)
            && whole::in_range(self.to)
    }
}

// A record's numbers less the origins of their axes: up to 2^31 in size, so in 64 bits.
#[derive(Clone, Copy)]
struct Offsets {
    place: i64,
    from: i64,
    to: i64,
}

// Whether an offset is drawn: its size is at most 2^24, up to which a float holds every whole number.
fn is_drawn(d: i64) -> bool
    ensures { result ≡ in_range farthest d }
{
    (-16777216..=16777216).contains(&d)
}

// A coordinate less the origin of its axis.
fn offset(coordinate: i32, origin: i32) -> i64
    ensures { result ≡ coordinate -ℤ origin }
{
    i64::from(coordinate) - i64::from(origin)
}

// d / 2^z. The cast loses nothing, and each half is exact.
// That z is at most 16 is asked here and in the two functions that hand it on. A type for it would be no plainer: it would be opened here again.
fn halved(d: i64, z: u32) -> f32
    requires d_bound { nat_abs d ≤ farthest }
    requires z_bound { z ≤ 16 }
    ensures { ExactFloat d z result }
{
    let mut x = d as f32;
    for _ in 0..z {
        x *= 0.5;
    }
    x
}

impl Offsets {
    #[tactic(auto, unfolding(meaning::specs::Drawn::all_drawn))]
    fn are_drawn(self) -> bool
        ensures { result ≡ all_drawn self.place self.from self.to }
    {
        is_drawn(self.place) && is_drawn(self.from) && is_drawn(self.to)
    }

    fn halved(self, z: u32) -> Floats
        requires drawn { all_drawn self.place self.from self.to ≡ true }
        requires z_bound { z ≤ 16 }
        ensures { ExactFloats self.place self.from self.to z result }
    {
        Floats {
            place: halved(self.place, z),
            from: halved(self.from, z),
            to: halved(self.to, z),
        }
    }
}

// The edge with these three offsets.
// `level` is a bool: an enum of the two would be no plainer, since it chooses the case of the answer and no step.
fn by_offsets(level: bool, offsets: Offsets, z: u32) -> Drawn
    requires { z ≤ 16 }
    ensures { ByOffsets level offsets.place offsets.from offsets.to z result }
{
    if !offsets.are_drawn() {
        return Drawn::Refused(20);
    }
    let floats = offsets.halved(z);
    if level {
        Drawn::Level(floats)
    } else {
        Drawn::Upright(floats)
    }
}

// The record in the view: its place on the axis across the edge, its ends on the axis along it.
pub fn draw(view: View, given: Record) -> Drawn
    ensures { Drawing view.ox view.oy view.zoom given.kind given.place given.from given.to result }
{
    if !view.in_range() {
        return Drawn::Refused(19);
    }
    if !given.in_range() {
        return Drawn::Refused(3);
    }
    if given.from == given.to {
        return Drawn::Refused(4);
    }
    let z = view.zoom as u32;
    let level = given.kind == 0;
    let (across, along) = if level {
        (view.oy, view.ox)
    } else {
        (view.ox, view.oy)
    };
    let offsets = Offsets {
        place: offset(given.place, across),
        from: offset(given.from, along),
        to: offset(given.to, along),
    };
    by_offsets(level, offsets, z)
}
