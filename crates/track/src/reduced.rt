// The arm that is left where a joint is locked, as numbers, and the pose that it is to make.
ghost use Rattle.std.specs.Prelude.{◌≡◌};
ghost use Rattle.track.specs.Reduced.{to_numbers, reduced_arm, handed_on};

use kinematics::{Kinematics, Pose};
use partial::Locked;

fn to_numbers(kin: Kinematics) -> [f64; 39]
    ensures { result ≡ to_numbers kin }
{
    let h1 = kin.h1;
    let h2 = kin.h2;
    let h3 = kin.h3;
    let h4 = kin.h4;
    let h5 = kin.h5;
    let h6 = kin.h6;
    let p0 = kin.p0;
    let p1 = kin.p1;
    let p2 = kin.p2;
    let p3 = kin.p3;
    let p4 = kin.p4;
    let p5 = kin.p5;
    let p6 = kin.p6;
    [
        h1.x, h1.y, h1.z, h2.x, h2.y, h2.z, h3.x, h3.y, h3.z, h4.x, h4.y, h4.z, h5.x, h5.y, h5.z,
        h6.x, h6.y, h6.z, p0.x, p0.y, p0.z, p1.x, p1.y, p1.z, p2.x, p2.y, p2.z, p3.x, p3.y, p3.z,
        p4.x, p4.y, p4.z, p5.x, p5.y, p5.z, p6.x, p6.y, p6.z,
    ]
}

pub(crate) fn reduced_arm(arm: &[f64; 45], lock: Locked) -> [f64; 39]
    ensures { result ≡ reduced_arm arm.now lock.joint lock.angle }
{
    let left = partial::forward_kinematics_partial(arm, lock, linear::identity());
    to_numbers(left.kin)
}

pub(crate) fn handed_on(arm: &[f64; 45], lock: Locked, pose: &[f64; 12]) -> [f64; 12]
    ensures { result ≡ handed_on arm.now lock.joint lock.angle pose.now }
{
    let r_n = lock.rotation(arm);
    let wanted = kinematics::pose_rotation(pose);
    let back = linear::transpose(r_n);
    let rotation = linear::product(wanted, back);
    let place = kinematics::pose_place(pose);
    Pose { rotation, place }.numbers()
}
