// Families 1 to 5. An arm is 39 numbers and a pose 12, as in document 01.
ghost use Rattle.std.specs.Prelude.{◌≡◌};
ghost use Rattle.answers.specs.Written.{Wrote};
ghost use Rattle.calls_c.specs.Numbered.{by_number, family_answers};

use answers::Answer;
use array_vec::ArrayVec;
use kinematics::Kinematics;
use linear::{Matrix3, Vector3};

// What subproblem1 flags by.
const TOLERANCE: f64 = 1e-6;

// The families alone: `full_list` has such a match too, behind a task whose family searches or does not,
// and needs the search and its crates below it.
#[tactic(auto, unfolding(crate::specs::Numbered::by_number))]
fn by_number(
    id: u64,
    r: Matrix3,
    p: Vector3,
    kin: Kinematics,
    tolerance: f64,
) -> ArrayVec<Answer, 8>
    ensures { result.items ≡ by_number id r p kin tolerance }
{
    match id {
        1 => families::spherical_two_parallel(r, p, kin, tolerance),
        2 => families::spherical_two_intersecting(r, p, kin, tolerance),
        3 => families::spherical(r, p, kin, tolerance),
        4 => families::three_parallel_two_intersecting(r, p, kin, tolerance),
        5 => families::three_parallel(r, p, kin, tolerance),
        _ => ArrayVec::new(),
    }
}

// The number of answers of family 1 to 5. No other family has any.
pub fn family(
    id: u64,
    arm: &[f64; 39],
    pose: &[f64; 12],
    angles: &mut [f64],
    flags: &mut [u8],
) -> usize
    ensures { Wrote (family_answers id arm.now pose.now) angles.old flags.old angles.new flags.new result }
{
    let kin = kinematics::from_numbers(arm);
    let r = kinematics::pose_rotation(pose);
    let p = kinematics::pose_place(pose);
    answers::write(&by_number(id, r, p, kin, TOLERANCE), angles, flags)
}
