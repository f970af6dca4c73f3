// Families 1 to 5: their answers, of which there are at most eight.
ghost use Rattle.std.specs.Prelude.{◌≡◌, ◌≢◌};
ghost use Rattle.refusals.specs.Family.{family_number};
ghost use Rattle.refusals.specs.declared.family.Family.TheVariants.{TwoParallel};
ghost use Rattle.full_list.specs.Full.{without_search, tolerance};
ghost use Rattle.full_list.specs.Task.{of_task};

use crate::task::{TOLERANCE, Task};
use answers::Answer;
use array_vec::ArrayVec;
use kinematics::Kinematics;
use linear::{Matrix3, Vector3};
use refusals::Family;

#[tactic(auto, unfolding(crate::specs::Full::without_search))]
fn found(family: Family, r: Matrix3, p: Vector3, kin: Kinematics) -> ArrayVec<Answer, 8>
    requires { family ≢ TwoParallel }
    ensures { result.items ≡ without_search (family_number family) r p kin tolerance }
{
    match family {
        Family::SphericalTwoParallel => families::spherical_two_parallel(r, p, kin, TOLERANCE),
        Family::SphericalTwoIntersecting => {
            families::spherical_two_intersecting(r, p, kin, TOLERANCE)
        }
        Family::Spherical => families::spherical(r, p, kin, TOLERANCE),
        Family::ThreeParallelTwoIntersecting => {
            families::three_parallel_two_intersecting(r, p, kin, TOLERANCE)
        }
        Family::ThreeParallel => families::three_parallel(r, p, kin, TOLERANCE),
        Family::TwoParallel => unreachable!(),
    }
}

// The full list of a family that does not search.
pub fn without_search(task: &Task) -> ArrayVec<Answer, 8>
    requires { task.now.family ≢ TwoParallel }
    ensures { result.items ≡ (of_task task.now).answers }
{
    found(task.family, task.r_06, task.p_0t, task.kin)
}
