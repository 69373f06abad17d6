ghost use Rattle.std.specs.Prelude.{◌≡◌, ℕ, slice_index};
ghost use Rattle.logic.specs.Naming.{Naming, NamingLaws};

use crate::family::Family;

// A family whose values have names of one width, for scripts.
pub trait Named: Family {
    const WIDTH: usize;

    ghost WIDTH: { ℕ };

    ghost naming: { Naming Self.Value };

    // Byte i of the name of a value, and 0 behind its end.
    // Kept as it is: a family is a trait with a WIDTH constant, and no public call asks anything of its callers.
    fn name_byte(a: Self::Value, i: usize) -> u8
        ensures { result ≡ slice_index (naming.name a) i };

    // The value of a name, if any.
    fn of_name(name: &[u8]) -> Option<Self::Value>
        ensures { result ≡ naming.of_name name.now };

    // The constant is the width of every name.
    ghost wide: { WIDTH ≡ naming.width };

    ghost spelling: { NamingLaws naming };

    // The width of every name, 1 to 4.
    final fn name_width() -> usize
        ensures { result ≡ naming.width }
    {
        Self::WIDTH
    }
}
