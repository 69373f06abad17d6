ghost use Rattle.std.specs.Prelude.{Some};
ghost use Rattle.script_stream.specs.Verdicts.{verdict_text};

use std::fmt;
use std::fmt::{Display, Formatter};

// What is said of two runs side by side: the net at which the second contradicts the first, if there is one.
#[derive(Clone, Copy)]
pub struct Verdict(pub Option<u16>);

impl Display for Verdict {
    ghost output = { λ v. Some (verdict_text v.0) };

    fn fmt<W: fmt::Write>(&self, f: &mut Formatter<W>) -> fmt::Result {
        match self.0 {
            None => f.write_str("agrees"),
            Some(net) => write!(f, "contradicts {net}"),
        }
    }
}
