//! Numbers that look random and are the same on every machine.

/// A sequence by shifts and exclusive ors.
#[derive(Clone, Copy)]
pub(crate) struct Random {
    state: u64,
}

impl Random {
    /// The one sequence.
    pub fn new() -> Random {
        Random {
            state: 0x9e37_79b9_7f4a_7c16,
        }
    }

    fn next(&mut self) -> u64 {
        let mut state = self.state;
        state ^= state << 13;
        state ^= state >> 7;
        state ^= state << 17;
        self.state = state;
        state
    }

    /// A number below `sides`, or 0.
    pub fn below(&mut self, sides: u32) -> u32 {
        let sides = u64::from(sides.max(1));
        (self.next() % sides) as u32
    }

    /// A number from 0 to `most`.
    pub fn up_to(&mut self, most: i64) -> i64 {
        if most <= 0 {
            return 0;
        }
        let sides = most.unsigned_abs().wrapping_add(1).max(1);
        (self.next() % sides).cast_signed()
    }
}
