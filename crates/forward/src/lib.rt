// Forward kinematics over plain numbers, for the library: it judges the lengths of its lists.
#![tactic(auto)]

ghost use Rattle.std.specs.Prelude.{◌≡◌};
ghost use Rattle.refusals.specs.Refusal.{number_of};
ghost use Rattle.forward.specs.Forward.{forward_refusal, forward_pose};

use refusals::Refusal;

// The pose of six angles. A list of another length than 39, 6 or 12 is refused, and the pose's list
// is then left as it came.
pub fn forward(arm: &[f64], angles: &[f64], pose: &mut [f64]) -> Result<(), Refusal>
    ensures result { number_of result ≡ forward_refusal arm.now angles.now pose.old }
    ensures pose { pose.new ≡ forward_pose arm.now angles.now pose.old }
{
    let arm = arm.as_array::<39>().ok_or(Refusal::ArmLength)?;
    let pose = pose.as_mut_array::<12>().ok_or(Refusal::PoseLength)?;
    let angles = angles.as_array::<6>().ok_or(Refusal::AnglesLength)?;
    let kin = kinematics::from_numbers(arm);
    *pose = kinematics::forward_kinematics(kin, *angles).numbers();
    Ok(())
}
