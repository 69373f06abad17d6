ghost use Rattle.std.specs.Prelude.{◌≤◌};

// The strength of a pull lies from low to high; 0 is none and 7 the strongest.
#[derive(Clone, Copy)]
pub struct Range {
    pub low: u8,
    pub high: u8,
    ghost ordered: { low ≤ high },
    ghost small: { high ≤ 7 },
}

// A value of the family: the pull towards 1 and the pull towards 0.
#[derive(Clone, Copy)]
pub struct Pull {
    pub up: Range,
    pub down: Range,
}
