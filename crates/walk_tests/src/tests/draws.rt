/// Numbers drawn one after another, all of which the start determines: a linear congruential
/// generator modulo 2^64 (Knuth, The Art of Computer Programming, volume 2, section 3.2.1).
#[derive(Drop)]
pub struct Draws {
    state: u64,
}

impl Draws {
    /// Numbers from a start. Starts that are close to each other give different numbers.
    pub fn new(start: u32) -> Draws {
        let mut draws = Draws {
            state: u64::from(start),
        };
        draws.below(2);
        draws.below(2);
        draws
    }

    /// Draws a number below k, or 0 if k is 0.
    pub fn below(&mut self, k: u32) -> u32 {
        if k == 0 {
            return 0;
        }
        self.state = self
            .state
            .wrapping_mul(6_364_136_223_846_793_005)
            .wrapping_add(1_442_695_040_888_963_407);
        u32::try_from((self.state >> 33) % u64::from(k)).unwrap_or(0)
    }
}
