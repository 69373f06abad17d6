use std::marker::Model;

// A set of numbers below 1,024: a bit for each, and a bit for each word that is not 0.
#[derive(Clone, Copy)]
pub struct NumberSet {
    pub words: [u64; 16],
    pub used: u64,
}

// Callers see the words and the used bits. What holds of them is an invariant of the model and no ghost field, so that a calendar
// that holds sets beside a lent buffer can be held by value; each call says that it holds.
impl Model for NumberSet {
    ghost use Rattle.std.specs.Prelude.{◌≡◌, length};
    ghost use Rattle.number_set.specs.Members.{Numbers, Summed};

    ghost Value = { Numbers };

    ghost view = { λ s. record { words = s.words; used = s.used } };

    ghost inverse = { λ n. record { words = n.words; used = n.used } };

    ghost invariant = { λ s. (length s.words ≡ 16) × Summed s.words s.used };
}
