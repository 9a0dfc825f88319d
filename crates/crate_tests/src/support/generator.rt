//! Numbers that are the same in each run.

/// Marsaglia's generator with three shifts, of 64 bits.
#[derive(Drop)]
pub struct Generator {
    pub state: u64,
}

impl Generator {
    /// The next number.
    pub fn draw(&mut self) -> u64 {
        let mut state = self.state;
        state ^= state << 13;
        state ^= state >> 7;
        state ^= state << 17;
        self.state = state;
        state >> 11
    }

    /// A number below a limit, and 0 where there is none.
    pub fn below(&mut self, limit: usize) -> usize {
        let drawn = self.draw() as usize;
        drawn.checked_rem(limit).unwrap_or(0)
    }
}
