// One component of the error, which the search follows through its samples.
ghost use Rattle.std.specs.Prelude.{◌<◌};

use crate::Fixed;

#[derive(Clone, Copy)]
pub struct Branch {
    pub fixed: Fixed,
    pub i: u8,
    ghost in_range: { i < 4 },
}
