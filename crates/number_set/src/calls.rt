ghost use Rattle.std.specs.Prelude.{◌≡◌, ℕ, ◌<◌, ◌≤◌, true, false, if◌then◌else◌, nat_eq};
ghost use Rattle.number_set.specs.Members.{member, Least, Sound};

use crate::set::NumberSet;
use crate::word::{first, has, with_bit};

impl NumberSet {
    // The empty set.
    pub fn new() -> NumberSet
        ensures empty { (m : ℕ) → m < 1024 → member result.words m ≡ false }
        ensures sound { Sound result }
    {
        NumberSet {
            words: [0; 16],
            used: 0,
        }
    }

    // Whether a number stands in the set; none from 1,024 on does.
    pub fn contains(&self, n: u16) -> bool
        ensures member { result ≡ member self.now.words n }
        ensures past { 1024 ≤ n → result ≡ false }
        ensures sound { Sound self.now }
    {
        n < 1024 && has(self.words[n as usize / 64], (n % 64) as u32)
    }

    // Adds a number; one from 1,024 on is passed over.
    pub fn insert(&mut self, n: u16)
        ensures there { (m : ℕ) → m < 1024 → member self.new.words m ≡ (if nat_eq m n then true else member self.old.words m) }
        ensures sound { Sound self.new }
    {
        self.set(n, true);
    }

    // Removes a number; one from 1,024 on is passed over.
    pub fn remove(&mut self, n: u16)
        ensures there { (m : ℕ) → m < 1024 → member self.new.words m ≡ (if nat_eq m n then false else member self.old.words m) }
        ensures sound { Sound self.new }
    {
        self.set(n, false);
    }

    // Adds a number or removes it, as `on` says; a number from 1,024 on is passed over.
    pub fn set(&mut self, n: u16, on: bool)
        ensures there { (m : ℕ) → m < 1024 → member self.new.words m ≡ (if nat_eq m n then on else member self.old.words m) }
        ensures sound { Sound self.new }
    {
        let used = self.used;
        if n >= 1024 {
            return;
        }
        let at = n as usize / 64;
        let word = with_bit(self.words[at], (n % 64) as u32, on);
        self.used = with_bit(used, (n / 64) as u32, word > 0);
        self.words[at] = word;
    }

    // The least number of the set.
    pub fn first(&self) -> Option<u16>
        ensures least { Least self.now.words result }
        ensures sound { Sound self.now }
    {
        if self.used == 0 {
            return None;
        }
        let word = first(self.used);
        let bit = first(self.words[word as usize]);
        Some((word * 64 + bit) as u16)
    }
}
