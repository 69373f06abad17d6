ghost use Rattle.std.specs.Prelude.{◌≡◌, ◌≤◌, [], ◌∷◌, ◌++◌, length, take};

use arrayvec::ArrayVec;

// The bytes that are kept of a line: one more than the longest command line, so that a longer line still shows.
pub const KEPT: usize = 33;

// The line so far, of which at most the first 33 bytes are kept.
#[derive(Drop)]
pub struct Held {
    kept: ArrayVec<u8, KEPT>,
}

impl Held {
    pub fn new() -> Held
        ensures { result.kept.items ≡ [] }
    {
        Held {
            kept: ArrayVec::new(),
        }
    }

    #[tactic(auto, using(crate::proofs::Keeping::kept_more, crate::proofs::Keeping::kept_full))]
    pub fn push(&mut self, b: u8)
        ensures { self.new.kept.items ≡ take 33 (self.old.kept.items ++ (b ∷ [])) }
    {
        if self.kept.len() < KEPT {
            self.kept.push(b);
        }
    }

    pub fn clear(&mut self)
        ensures { self.new.kept.items ≡ [] }
    {
        self.kept.clear();
    }

    pub fn text(&self) -> &[u8]
        ensures value { result.now ≡ self.now.kept.items }
        ensures fits { length result.now ≤ 33 }
    {
        self.kept.as_slice()
    }
}
