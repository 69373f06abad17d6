// The worked examples of the bench, each a consequence of the definitions.

#![tactic(auto)]

ghost use Rattle.std.specs.Prelude.{◌≡◌, true};
ghost use Rattle.examples.specs.Examples.{Examples};
ghost use Rattle.examples.specs.Inviting.{InvitingAndWrong};

use logic::family::Family;
use logic::values::same;
use nine_values::nine::{Nine, NineValues};
use pull_ranges::pulls::PullRanges;

// Whether the code that runs agrees on the rows of the nine values, as it does.
fn nines_agree() -> bool
    ensures { result ≡ true }
{
    same::<NineValues>(NineValues::and(Nine::U, Nine::Zero), Nine::Zero)
        && same::<NineValues>(NineValues::resolve(Nine::Zero, Nine::One), Nine::X)
        && same::<NineValues>(NineValues::resolve(Nine::L, Nine::H), Nine::W)
        && same::<NineValues>(NineValues::resolve(Nine::Dash, Nine::Z), Nine::X)
        && same::<NineValues>(NineValues::tri(Nine::U, Nine::X), Nine::U)
}

// The same of the pull ranges: 0066 with 3300 has code 1782, and TRI(6600, 0000) is 0600, code 384.
fn pulls_agree() -> bool
    ensures { result ≡ true }
{
    let (up, down) = (PullRanges::pull_up(), PullRanges::pull_down());
    let off = PullRanges::tri(up, down);
    PullRanges::code(PullRanges::resolve(PullRanges::not(up), up)) == 1782
        && PullRanges::code(PullRanges::tri(PullRanges::not(down), off)) == 384
}

// The examples follow from the definitions, and what looks as good is wrong.
// Answers whether the code that runs agrees on them.
pub fn worked_examples() -> bool
    ensures agrees { result ≡ true }
    ensures examples { Examples }
    ensures inviting { InvitingAndWrong }
{
    nines_agree() && pulls_agree()
}
