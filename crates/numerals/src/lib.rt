// Bytes, words and numbers written into a buffer that the caller lends, one after the other: from the place that is reached on, for which there must be room.
#![tactic(auto)]

ghost use Rattle.std.specs.Prelude.{[], ◌∷◌, ◌+◌, ◌≤◌, ◌<◌, length};
ghost use Rattle.meaning.specs.Printed.{decimal, signed_text};
ghost use Rattle.numerals.specs.Stored.{Stored};

// The lent buffer, and the place after what is written.
// A rule of the project: there is no heap, so the caller lends the room.
#[derive(Drop)]
pub struct Writer<'a> {
    pub out: &'a mut [u8],
    pub at: usize,
}

impl<'a> Writer<'a> {
    // One byte.
    pub fn byte(&mut self, b: u8)
        requires { self.old.at < length self.old.out.now }
        ensures { Stored self.old (b ∷ []) self.new }
    {
        self.out[self.at] = b;
        self.at += 1;
    }

    // The bytes of a word.
    pub fn word(&mut self, w: &[u8])
        requires { self.old.at + length w.now ≤ length self.old.out.now }
        ensures { Stored self.old w.now self.new }
    {
        for b in w {
            self.byte(*b);
        }
    }

    // A number in decimal.
    pub fn number(&mut self, n: u64)
        requires { self.old.at + length (decimal n) ≤ length self.old.out.now }
        ensures { Stored self.old (decimal n) self.new }
    {
        self.word(itoa::Buffer::new().format(n).as_bytes());
    }

    // A signed number in decimal, with `-` before a negative one.
    pub fn signed(&mut self, z: i32)
        requires { self.old.at + length (signed_text z) ≤ length self.old.out.now }
        ensures { Stored self.old (signed_text z) self.new }
    {
        if z < 0 {
            self.byte(b'-');
        }
        self.number(u64::from(z.unsigned_abs()));
    }
}
