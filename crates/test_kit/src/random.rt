//! Pseudorandom numbers for tests.

/// Pseudorandom numbers, the same in every run: a xorshift of 64 bits.
#[derive(Clone, Copy)]
pub struct Random {
    state: u64,
}

impl Random {
    /// Creates the numbers of a seed.
    pub fn new(seed: u32) -> Random {
        Random {
            state: u64::from(seed)
                .wrapping_mul(0x9E37_79B9_7F4A_7C15)
                .wrapping_add(1),
        }
    }

    fn step(&mut self) {
        self.state ^= self.state.wrapping_shl(13);
        self.state ^= self.state.wrapping_shr(7);
        self.state ^= self.state.wrapping_shl(17);
    }

    /// Returns the next 48 bits.
    pub fn next_long(&mut self) -> u64 {
        self.step();
        self.state / 65_536
    }

    /// Returns the next 32 bits.
    pub fn next(&mut self) -> u32 {
        self.step();
        (self.state / 4_294_967_296) as u32
    }

    /// Returns a number below `limit`, or 0 if the limit is 0.
    pub fn below(&mut self, limit: u32) -> u32 {
        let next = self.next();
        if limit == 0 { 0 } else { next % limit }
    }

    /// Returns true once in `limit` times on average.
    pub fn once_in(&mut self, limit: u32) -> bool {
        self.below(limit) == 0
    }

    /// Returns 32 bits with a sign; once in four times the least or the greatest number.
    pub fn weight(&mut self) -> i32 {
        match self.below(8) {
            0 => i32::MIN,
            1 => i32::MAX,
            _ => self.next().cast_signed(),
        }
    }

    /// Returns a number from -10 to 9; once in four times the least or the greatest number of 64 bits.
    pub fn amount(&mut self) -> i64 {
        match self.below(8) {
            0 => i64::MIN,
            1 => i64::MAX,
            _ => i64::from(self.below(20)) - 10,
        }
    }
}
