//! A sequence by shifts and exclusive ors, the same in each run and on every machine.
ghost use Rattle.std.specs.Prelude.{◌<◌};

#[derive(Drop)]
pub(crate) struct Dice {
    state: u64,
}

impl Dice {
    pub(crate) fn new() -> Dice {
        Dice {
            state: 88172645463325252,
        }
    }

    /// The next number below `sides`.
    pub(crate) fn roll(&mut self, sides: u64) -> u64
        requires { 0 < sides }
        ensures { result < sides }
    {
        let mut state = self.state;
        state ^= state << 13;
        state ^= state >> 7;
        state ^= state << 17;
        self.state = state;
        state % sides
    }

    /// The next of eight symbols.
    pub(crate) fn symbol(&mut self, symbols: &[u8; 8]) -> u8 {
        symbols[self.roll(8) as usize]
    }
}
