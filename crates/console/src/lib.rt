// Standard output as a place for `write!`, for the programs that run examples.
#![tactic(auto)]

ghost use Rattle.std.specs.Prelude.{IsOk, ⊤};

use std::fmt;

// Standard output.
const STDOUT: i32 = 1;

// What is written goes to standard output at once.
#[derive(Clone, Copy, Debug)]
pub struct Console;

impl fmt::Write for Console {
    // A write that fails is passed over: no contract can say what a terminal takes.
    fn write_str(&mut self, s: &str) -> fmt::Result
        ensures ok { IsOk result → ⊤ }
        ensures goes_on { IsOk result }
    {
        io::write_all(STDOUT, s.as_bytes());
        Ok(())
    }
}
