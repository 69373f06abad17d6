ghost use Rattle.std.specs.Prelude.{◌≡◌, codes, slice_get, unwrap_or};

// The values that a board is worked in.
#[derive(Clone, Copy, Debug, PartialEq, Eq)]
pub enum Values {
    Nine,
    Pulls,
}

// The letters of the nine values in the order of their codes.
const LETTERS: &[u8; 9] = b"UX01ZWLH-";

// The letter of one of the nine values; `?` for a code that none has.
pub fn letter(code: u32) -> char
    ensures { result ≡ unwrap_or (slice_get (codes "UX01ZWLH-") code) 63 }
{
    LETTERS
        .get(code as usize)
        .map_or('?', |letter| char::from(*letter))
}
