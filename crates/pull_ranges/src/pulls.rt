ghost use Rattle.std.specs.Prelude.{◌≡◌, refl};
ghost use Rattle.pull_ranges.specs.Pulls.{pulls, pull_names, r00, r06, r07, r33, r66, reading, shape, larger, within, range_of, range_spelt};
ghost use Rattle.pull_ranges.specs.Laws.{pull_laws};
ghost use Rattle.pull_ranges.specs.Names.{pull_spelling};

use crate::range::{Pull, Range};
use logic::family::Family;
use logic::named::Named;
use nine_values::nine::{Nine, NineValues};

// The level that a value counts as in a logic operation: 0, 1 or X.
fn read(a: Pull) -> Nine
    ensures { result ≡ reading a }
{
    if a.up.low > a.down.high {
        Nine::One
    } else if a.down.low > a.up.high {
        Nine::Zero
    } else {
        Nine::X
    }
}

// Kept as it is: five functions and no constants: a proof has no name for a constant with ghost fields.
fn none() -> Range
    ensures { result ≡ r00 }
{
    Range { low: 0, high: 0 }
}

fn perhaps() -> Range
    ensures { result ≡ r06 }
{
    Range { low: 0, high: 6 }
}

fn any() -> Range
    ensures { result ≡ r07 }
{
    Range { low: 0, high: 7 }
}

fn weak() -> Range
    ensures { result ≡ r33 }
{
    Range { low: 3, high: 3 }
}

fn strong() -> Range
    ensures { result ≡ r66 }
{
    Range { low: 6, high: 6 }
}

// The value that a gate gives for a level.
fn form(x: Nine) -> Pull
    ensures { result ≡ shape x }
{
    match x {
        Nine::Zero => Pull {
            up: none(),
            down: strong(),
        },
        Nine::One => Pull {
            up: strong(),
            down: none(),
        },
        _ => Pull {
            up: perhaps(),
            down: perhaps(),
        },
    }
}

fn max_range(a: Range, b: Range) -> Range
    ensures { result ≡ larger a b }
{
    Range {
        low: a.low.max(b.low),
        high: a.high.max(b.high),
    }
}

// Whether b lies within a.
fn lies_within(b: Range, a: Range) -> bool
    ensures { result ≡ within b a }
{
    a.low <= b.low && b.high <= a.high
}

fn range_of(low: u8, high: u8) -> Option<Range>
    ensures { result ≡ range_of low high }
{
    if low <= high && high <= 7 {
        Some(Range { low, high })
    } else {
        None
    }
}

// The range of two digits.
fn range_spelt(low: u8, high: u8) -> Option<Range>
    ensures { result ≡ range_spelt low high }
{
    range_of(low.checked_sub(b'0')?, high.checked_sub(b'0')?)
}

#[derive(Drop)]
pub struct PullRanges;

impl Family for PullRanges {
    type Value = Pull;

    ghost logic = { pulls };

    ghost laws = { pull_laws };

    fn unset() -> Pull {
        Pull {
            up: any(),
            down: any(),
        }
    }

    fn pull_up() -> Pull {
        Pull {
            up: weak(),
            down: none(),
        }
    }

    fn pull_down() -> Pull {
        Pull {
            up: none(),
            down: weak(),
        }
    }

    fn not(a: Pull) -> Pull {
        form(NineValues::not(read(a)))
    }

    fn and(a: Pull, b: Pull) -> Pull {
        form(NineValues::and(read(a), read(b)))
    }

    fn or(a: Pull, b: Pull) -> Pull {
        form(NineValues::or(read(a), read(b)))
    }

    fn xor(a: Pull, b: Pull) -> Pull {
        form(NineValues::xor(read(a), read(b)))
    }

    fn tri(data: Pull, enable: Pull) -> Pull {
        match (read(data), read(enable)) {
            (d, e) if e == Nine::One => form(d),
            (_, e) if e == Nine::Zero => Pull {
                up: none(),
                down: none(),
            },
            (d, _) if d == Nine::One => Pull {
                up: perhaps(),
                down: none(),
            },
            (d, _) if d == Nine::Zero => Pull {
                up: none(),
                down: perhaps(),
            },
            _ => Pull {
                up: perhaps(),
                down: perhaps(),
            },
        }
    }

    fn resolve(a: Pull, b: Pull) -> Pull {
        Pull {
            up: max_range(a.up, b.up),
            down: max_range(a.down, b.down),
        }
    }

    fn refines(b: Pull, a: Pull) -> bool {
        lies_within(b.up, a.up) && lies_within(b.down, a.down)
    }

    fn definite(a: Pull) -> bool {
        a.up.low == a.up.high && a.down.low == a.down.high
    }

    fn code(a: Pull) -> u16 {
        a.up.low as u16 * 512 + a.up.high as u16 * 64 + a.down.low as u16 * 8 + a.down.high as u16
    }

    fn of_code(code: u16) -> Option<Pull> {
        let up = range_of((code / 512) as u8, (code / 64 % 8) as u8)?;
        let down = range_of((code / 8 % 8) as u8, (code % 8) as u8)?;
        Some(Pull { up, down })
    }
}

impl Named for PullRanges {
    const WIDTH: usize = 4;

    ghost WIDTH = { 4 };

    ghost naming = { pull_names };

    ghost wide = { refl };

    ghost spelling = { pull_spelling };

    fn name_byte(a: Pull, i: usize) -> u8 {
        match i {
            0 => b'0' + a.up.low,
            1 => b'0' + a.up.high,
            2 => b'0' + a.down.low,
            3 => b'0' + a.down.high,
            _ => 0,
        }
    }

    fn of_name(name: &[u8]) -> Option<Pull> {
        let [a, b, c, d] = name else {
            return None;
        };
        let up = range_spelt(*a, *b)?;
        let down = range_spelt(*c, *d)?;
        Some(Pull { up, down })
    }
}
