// Where a gate meets its nets.
#[derive(Clone, Copy)]
pub enum Pin {
    Output,
    First,
    Second,
}
