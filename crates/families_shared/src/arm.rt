// The arm of a solve: the axes that the families rotate about are normalised once.
ghost use Rattle.std.specs.Prelude.{◌≡◌};
ghost use Rattle.linear.specs.Matrix.{rot};
ghost use Rattle.linear.specs.Vector.{normalize, negᵛ};

use kinematics::Kinematics;
use linear::{Matrix3, Vector3};

// An axis, and the same normalised.
#[derive(Clone, Copy)]
pub struct Axis {
    h: Vector3,
    unit: Vector3,
    ghost normalised: { unit ≡ normalize h },
}

impl Axis {
    pub fn new(h: Vector3) -> Axis
        ensures { result.h ≡ h }
    {
        Axis {
            h,
            unit: linear::normalize(h),
        }
    }

    // rot(h, q).
    #[tactic(auto, unfolding(linear::specs::Matrix::rot))]
    pub fn ahead(self, q: f64) -> Matrix3
        ensures { result ≡ rot self.h q }
    {
        linear::rot_unit(self.unit, q)
    }

    // rot(-h, q): an axis and its negation have exactly negated normalised parts.
    #[tactic(auto, using(crate::proofs::Negated::normalize_negated), unfolding(linear::specs::Matrix::rot))]
    pub fn back(self, q: f64) -> Matrix3
        ensures { result ≡ rot (negᵛ self.h) q }
    {
        linear::rot_unit(-self.unit, q)
    }
}

// An arm, its axes 1, 2, 3 and 5, and what subproblem1 flags by: 1e-6 in the Rust.
#[derive(Clone, Copy)]
pub struct Arm {
    pub kin: Kinematics,
    pub h1: Axis,
    pub h2: Axis,
    pub h3: Axis,
    pub h5: Axis,
    pub tolerance: f64,
    ghost axis1: { h1.h ≡ kin.h1 },
    ghost axis2: { h2.h ≡ kin.h2 },
    ghost axis3: { h3.h ≡ kin.h3 },
    ghost axis5: { h5.h ≡ kin.h5 },
}

impl Arm {
    pub fn new(kin: Kinematics, tolerance: f64) -> Arm
        ensures kin { result.kin ≡ kin }
        ensures tolerance { result.tolerance ≡ tolerance }
    {
        Arm {
            kin,
            h1: Axis::new(kin.h1),
            h2: Axis::new(kin.h2),
            h3: Axis::new(kin.h3),
            h5: Axis::new(kin.h5),
            tolerance,
        }
    }
}
