ghost use Rattle.std.specs.Prelude.{◌≡◌, ℕ, ◌<◌, Some};
ghost use Rattle.fanout.specs.Seek.{named};

use crate::pin::Pin;
use crate::wiring::Wiring;

// The gates that meet a net at a pin, in file order.
#[derive(Drop)]
pub(crate) struct GatesAt<'a> {
    pub(crate) wiring: &'a Wiring,
    pub(crate) pin: Pin,
    pub(crate) at: Option<u16>,
    ghost inside: { (g : ℕ) → at ≡ Some g → g < wiring.now.net.head.gates },
}

impl<'a> Iterator for GatesAt<'a> {
    ghost use Rattle.std.specs.Iterator.{item_count, YieldsFirst};
    ghost use Rattle.fanout.specs.Left.{left};

    type Item = u16;

    ghost next_gives = { YieldsFirst left };

    ghost remaining = { item_count left };

    fn next(&mut self) -> Option<u16> {
        let g = self.at?;
        self.at = named(self.wiring.chain(self.pin).next[g as usize]);
        Some(g)
    }
}

// The gate that an entry of a chain names.
pub(crate) fn named(entry: u16) -> Option<u16>
    ensures { result ≡ named entry }
{
    (entry < 1024).then_some(entry)
}
