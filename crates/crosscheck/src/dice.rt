// Random numbers from a seed: the same seed gives the same numbers.

// The generator splitmix64.
#[derive(Drop)]
pub struct Dice {
    state: u64,
}

impl Dice {
    pub fn from_seed(seed: u64) -> Dice {
        Dice { state: seed }
    }

    fn roll(&mut self) -> u64 {
        self.state = self.state.wrapping_add(0x9e37_79b9_7f4a_7c15);
        let z = self.state;
        let z = (z ^ (z >> 30)).wrapping_mul(0xbf58_476d_1ce4_e5b9);
        let z = (z ^ (z >> 27)).wrapping_mul(0x94d0_49bb_1331_11eb);
        z ^ (z >> 31)
    }

    // A number below n, and 0 where n is 0. A draw of one of n cases is matched by its number: an enum for each such draw
    // would be no plainer.
    pub fn below(&mut self, n: usize) -> usize {
        if n == 0 {
            return 0;
        }
        (self.roll() % n as u64) as usize
    }

    // A number from low to high.
    pub fn between(&mut self, low: usize, high: usize) -> usize {
        let span = high.saturating_sub(low).saturating_add(1);
        low.saturating_add(self.below(span))
    }

    // Yes once in n times.
    pub fn once_in(&mut self, n: usize) -> bool {
        self.below(n) == 0
    }

    pub fn byte(&mut self) -> u8 {
        (self.roll() & 0xff) as u8
    }
}
