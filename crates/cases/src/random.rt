// Marsaglia's xorshift with 64 bits of state.
ghost use Rattle.std.specs.Prelude.{◌≡◌};

#[derive(Drop)]
pub struct Random {
    state: u64,
}

impl Random {
    // Draws on from a state; 0 gives 0 for ever.
    pub fn from_state(state: u64) -> Random
        ensures { result.state ≡ state }
    {
        Random { state }
    }

    // Neighbouring seeds are spread out first, for a state of few bits starts slowly.
    pub fn new(seed: u64) -> Random {
        let state = seed.wrapping_add(1).wrapping_mul(0x9e37_79b9_7f4a_7c15) | 1;
        let mut random = Random::from_state(state);
        for _ in 0..4 {
            let _ = random.draw();
        }
        random
    }

    pub fn draw(&mut self) -> u64 {
        let mut x = self.state;
        x ^= x << 13;
        x ^= x >> 7;
        x ^= x << 17;
        self.state = x;
        x
    }

    // A number below `n`; 0 where there is none.
    pub fn below(&mut self, n: u32) -> u32 {
        let x = self.draw() >> 32;
        let rest = x.checked_rem(u64::from(n)).unwrap_or(0);
        u32::try_from(rest).unwrap_or(0)
    }

    // A number from `low` to `high`.
    pub fn between(&mut self, low: u32, high: u32) -> u32 {
        let span = high.saturating_sub(low).saturating_add(1);
        low.saturating_add(self.below(span))
    }

    // True once in `n` times.
    pub fn once_in(&mut self, n: u32) -> bool {
        self.below(n) == 0
    }

    // One of the bytes; 0 where there is none.
    pub fn pick(&mut self, bytes: &[u8]) -> u8 {
        self.any_of(bytes).unwrap_or(0)
    }

    // One of the items; none where there is none.
    pub(crate) fn any_of<T: Copy>(&mut self, items: &[T]) -> Option<T> {
        let n = u32::try_from(items.len()).unwrap_or(u32::MAX);
        items.get(self.below(n) as usize).copied()
    }
}
