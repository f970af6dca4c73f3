// The families of arms, by the names of their reference functions.
ghost use Rattle.std.specs.Prelude.{◌≡◌};
ghost use Rattle.refusals.specs.Family.{family_of};

use crate::refusal::Refusal;

#[derive(Clone, Copy, Debug, PartialEq, Eq)]
pub enum Family {
    SphericalTwoParallel,
    SphericalTwoIntersecting,
    Spherical,
    ThreeParallelTwoIntersecting,
    ThreeParallel,
    TwoParallel,
}

impl Family {
    // The family of a number from 1 to 6.
    pub fn new(number: u64) -> Result<Family, Refusal>
        ensures { result ≡ family_of number }
    {
        match number {
            1 => Ok(Family::SphericalTwoParallel),
            2 => Ok(Family::SphericalTwoIntersecting),
            3 => Ok(Family::Spherical),
            4 => Ok(Family::ThreeParallelTwoIntersecting),
            5 => Ok(Family::ThreeParallel),
            6 => Ok(Family::TwoParallel),
            _ => Err(Refusal::Family),
        }
    }
}
