//! Random numbers.

/// Numbers that come one after the other by a fixed rule.
#[derive(Drop)]
pub struct Random {
    pub state: u64,
}

impl Random {
    /// The next number, below the bound where that is more than 0.
    pub fn draw(&mut self, bound: u64) -> u64 {
        self.state = self
            .state
            .wrapping_mul(6_364_136_223_846_793_005)
            .wrapping_add(1_442_695_040_888_963_407);
        let high = self.state >> 33;
        if bound == 0 {
            return high;
        }
        high % bound
    }
}
