ghost use Rattle.std.specs.Prelude.{◌≡◌, ◌<◌};
ghost use Rattle.inst_gen.specs.Draws.{next_state, drawn};

use crate::limits::{INCREMENT, MULTIPLIER};

/// Numbers drawn one after another, all of which the start determines: a linear congruential
/// generator modulo 2^64 (Knuth, The Art of Computer Programming, volume 2, section 3.2.1).
#[derive(Drop)]
pub struct Draws {
    state: u64,
}

impl Draws {
    pub fn new(start: u64) -> Draws
        ensures { result.state ≡ start }
    {
        Draws { state: start }
    }

    /// Draws a number below k.
    pub fn draw(&mut self, k: u32) -> u32
        requires { 0 < k }
        ensures number { result ≡ drawn k self.old.state }
        ensures below { result < k }
        ensures state { self.new.state ≡ next_state self.old.state }
    {
        self.state = self.state.wrapping_mul(MULTIPLIER).wrapping_add(INCREMENT);
        ((self.state >> 33) % u64::from(k)) as u32
    }
}
