// The scanline and the counts that it hands on. A count stands raised by ZERO, so that it is never negative.
#![tactic(auto)]

ghost use Rattle.std.specs.Prelude.{◌≡◌, ◌<◌, get_or};
ghost use Rattle.scanline.specs.Handed.{crossed_by, fresh_counts, fresh_line, past};

// The eight counts: of each layer, the west edges less the east edges that were passed.
#[derive(Clone, Copy)]
pub struct Counts {
    pub raised: [u16; Scanline::LAYERS],
}

impl Counts {
    pub fn fresh() -> Self
        ensures { result ≡ fresh_counts }
    {
        Self {
            raised: [Scanline::ZERO; Scanline::LAYERS],
        }
    }

    // The counts past one crossing more, of an edge of this layer and direction: one of the eight is changed by one.
    //
    // A rule of the project: the specification, under "The form each place takes", names this function, direction and all. A layer is a number below 8: see `strips::turned`.
    pub fn crossed(mut self, layer: usize, west: bool) -> Self
        requires { (layer < 8) × (0 < get_or self.raised layer 0) × (get_or self.raised layer 0 < 65535) }
        ensures { result ≡ crossed_by self layer west }
    {
        if west {
            self.raised[layer] += 1;
        } else {
            self.raised[layer] -= 1;
        }
        self
    }
}

// A scanline on its way: how many crossings it passed, and the counts there.
#[derive(Clone, Copy)]
pub struct Scanline {
    pub passed: u16,
    pub counts: Counts,
}

impl Scanline {
    // Layers a to h.
    pub const LAYERS: usize = 8;

    // The greatest coordinate, 2^30.
    pub const LIMIT: u32 = 1073741824;

    // A count of nought, as it stands.
    pub const ZERO: u16 = 8192;

    // No crossing, and every count at zero.
    pub fn fresh() -> Self
        ensures { result ≡ fresh_line }
    {
        let counts = Counts::fresh();
        Self { passed: 0, counts }
    }

    // The scanline past one crossing more: it hands on the counts with one of them changed by one.
    pub fn crossing(self, layer: usize, west: bool) -> Self
        requires { (layer < 8) × (self.passed < 65535) × (0 < get_or self.counts.raised layer 0) × (get_or self.counts.raised layer 0 < 65535) }
        ensures { result ≡ past self layer west }
    {
        let counts = self.counts;
        let next = counts.crossed(layer, west);
        Self {
            passed: self.passed + 1,
            counts: next,
        }
    }
}
