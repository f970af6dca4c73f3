// Family 3: spherical. (Why it gathers its answers by loops: families_shared, `append`.)
#![tactic(auto)]

ghost use Rattle.std.specs.Prelude.{◌≡◌};
ghost use Rattle.family3.specs.Spherical.{t123, at_q123, spherical};

use answers::Answer;
use array_vec::ArrayVec;
use families_shared::{Arm, append, p_16, product4};
use families_wrist::wrist;
use kinematics::Kinematics;
use linear::{Matrix3, Vector3};
use solutionset::{SolutionSet4, Triple};

#[tactic(auto, unfolding(crate::specs::Spherical::t123))]
fn t123(kin: Kinematics, p_16: Vector3) -> SolutionSet4<Triple>
    ensures { result ≡ t123 kin p_16 }
{
    subproblem5::subproblem5(-kin.p1, p_16, kin.p2, kin.p3, -kin.h1, kin.h2, kin.h3)
}

#[tactic(auto, unfolding(crate::specs::Spherical::at_q123, families_wrist::specs::Wrist::r_36))]
fn at_q123(arm: &Arm, r_06: Matrix3, q123: Triple) -> ArrayVec<Answer, 2>
    ensures { result.items ≡ at_q123 r_06 arm.now.kin arm.now.tolerance q123 }
{
    let Triple {
        first: q1,
        second: q2,
        third: q3,
    } = q123;
    let r_36 = product4(arm.h3.back(q3), arm.h2.back(q2), arm.h1.back(q1), r_06);
    wrist(arm, r_36, q1, q2, q3, false)
}

#[tactic(auto, using(families_shared::proofs::Gathered::whole), unfolding(crate::specs::Spherical::spherical))]
pub fn spherical(
    r_06: Matrix3,
    p_0t: Vector3,
    kin: Kinematics,
    tolerance: f64,
) -> ArrayVec<Answer, 8>
    ensures { result.items ≡ spherical r_06 p_0t kin tolerance }
{
    let arm = Arm::new(kin, tolerance);
    let p = p_16(r_06, p_0t, kin);
    let triples = t123(kin, p).get_all();
    let mut all = ArrayVec::new();
    for q123 in triples.iter() {
        append(&mut all, &at_q123(&arm, r_06, *q123));
    }
    all
}
