//! Numbers at random, the same for the same seed.

/// Random numbers, by a linear congruence.
#[derive(Drop)]
pub struct Random(pub u64);

impl Random {
    /// A number below `limit`, or 0 if there is none.
    pub fn below(&mut self, limit: u64) -> u64 {
        self.0 = self
            .0
            .wrapping_mul(6_364_136_223_846_793_005)
            .wrapping_add(1_442_695_040_888_963_407);
        (self.0 >> 33).checked_rem(limit).unwrap_or(0)
    }
}
