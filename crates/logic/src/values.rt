ghost use Rattle.logic.specs.Same.{TellsSame};

use crate::family::Family;

// Whether two values of any family are equal. Codes tell them apart, so a family needs no `==`.
pub fn same<F: Family>(a: F::Value, b: F::Value) -> bool
    ensures { TellsSame a b result }
{
    F::code(a) == F::code(b)
}
