// What there is to solve once nothing is refused.
ghost use Rattle.std.specs.Prelude.{◌≡◌};
ghost use Rattle.full_list.specs.Task.{task_of};

use kinematics::{Kinematics, from_numbers, pose_place, pose_rotation};
use linear::{Matrix3, Vector3};
use refusals::Family;

// The tolerance of subproblem1's flag.
pub(crate) const TOLERANCE: f64 = 1e-6;

// A family, the samples of its search, an arm and a pose.
#[derive(Clone, Copy)]
pub struct Task {
    pub family: Family,
    pub n: usize,
    pub kin: Kinematics,
    pub r_06: Matrix3,
    pub p_0t: Vector3,
}

impl Task {
    pub fn new(family: Family, n: u64, arm: &[f64; 39], pose: &[f64; 12]) -> Task
        ensures { result ≡ task_of family n arm.now pose.now }
    {
        Task {
            family,
            n: n as usize,
            kin: from_numbers(arm),
            r_06: pose_rotation(pose),
            p_0t: pose_place(pose),
        }
    }
}
