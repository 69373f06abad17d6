// A tick that a run can complete.
ghost use Rattle.std.specs.Prelude.{◌≤◌};

#[derive(Clone, Copy)]
pub struct Moment {
    pub tick: u32,
    ghost early: { tick ≤ 16777216 },
}
