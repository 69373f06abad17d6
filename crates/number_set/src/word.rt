ghost use Rattle.std.specs.Prelude.{◌≡◌, ℕ, ◌<◌, ◌≢◌, ◌==◌};
ghost use Rattle.std.specs.Int.{bit_at};
ghost use Rattle.number_set.specs.Members.{flag};

pub(crate) fn has(w: u64, i: u32) -> bool
    requires { i < 64 }
    ensures { result ≡ (bit_at w i == 1) }
{
    (w >> i) & 1 == 1
}

// The word with bit `i` as `on` says.
pub(crate) fn with_bit(w: u64, i: u32, on: bool) -> u64
    requires { i < 64 }
    ensures here { bit_at result i ≡ flag on }
    ensures rest { (j : ℕ) → j < 64 → j ≢ i → bit_at result j ≡ bit_at w j }
{
    let bit = 1u64 << i;
    if on { w | bit } else { w & !bit }
}

// The lowest bit.
pub(crate) fn first(w: u64) -> u32
    requires { 0 < w }
    ensures below { result < 64 }
    ensures set { bit_at w result ≡ 1 }
    ensures least { (j : ℕ) → j < result → bit_at w j ≡ 0 }
{
    w.trailing_zeros()
}
