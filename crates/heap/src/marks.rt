ghost use Rattle.std.specs.Prelude.{◌≡◌, ℕ, ◌%◌, ◌<◌, ◌&&◌, if◌then◌else◌, ◌==◌, nat_eq};
ghost use Rattle.heap.specs.Marks.{marked};

use crate::heap::GATES;

// A row for each tick that can wait, in it a mark for each gate.
// Kept as it is: rows of `NumberSet` prove, and cost more: of `calendar_speed 100000` the heap's part is then 75.9 million
// instructions, with flags 66.8 million.
#[derive(Drop)]
pub struct Marks {
    pub rows: [[bool; GATES as usize]; 65],
}

impl Marks {
    pub(crate) fn stands(&self, tick: u32, gate: u16) -> bool
        requires { gate < 1024 }
        ensures { result ≡ marked self.now.rows (tick % 65) gate }
    {
        self.rows[(tick % 65) as usize][gate as usize]
    }

    pub(crate) fn mark(&mut self, tick: u32, gate: u16, on: bool)
        requires { gate < 1024 }
        ensures { (r g : ℕ) → marked self.new.rows r g ≡ (if nat_eq r (tick % 65) && g == gate then on else marked self.old.rows r g) }
    {
        let row = &mut self.rows[(tick % 65) as usize];
        row[gate as usize] = on;
    }
}
