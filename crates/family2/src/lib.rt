// Family 2: spherical_two_intersecting. (Why it gathers its answers by loops: families_shared, `append`.)
#![tactic(auto)]

ghost use Rattle.std.specs.Prelude.{◌≡◌};
ghost use Rattle.linear.specs.Matrix.{rot};
ghost use Rattle.linear.specs.Vector.{negᵛ};
ghost use Rattle.family2.specs.SphericalTwoIntersecting.{p_16, t3, t12, at_q12, at_q3, spherical_two_intersecting};

use answers::Answer;
use array_vec::ArrayVec;
use families_shared::{Arm, append, product4};
use families_wrist::wrist;
use kinematics::Kinematics;
use linear::{Matrix3, Vector3};
use solutionset::Pair;
use subproblems::Solved2;

// Not the p_16 of families 3 to 6: the Rust subtracts in another order here, and each difference rounds.
#[tactic(auto, unfolding(crate::specs::SphericalTwoIntersecting::p_16))]
fn p_16(r_0t: Matrix3, p_0t: Vector3, kin: Kinematics) -> Vector3
    ensures { result ≡ p_16 r_0t p_0t kin }
{
    p_0t - linear::apply(r_0t, kin.p6) - kin.p0
}

#[tactic(auto, unfolding(crate::specs::SphericalTwoIntersecting::t3))]
fn t3(kin: Kinematics, p_16: Vector3) -> Solved2<f64>
    ensures { result ≡ t3 kin p_16 }
{
    subproblems::subproblem3(kin.p3, -kin.p2, kin.h3, linear::norm(p_16))
}

#[tactic(auto, unfolding(crate::specs::SphericalTwoIntersecting::t12))]
fn t12(arm: &Arm, p_16: Vector3, q3: f64) -> Solved2<Pair>
    ensures { result ≡ t12 arm.now.kin p_16 q3 }
{
    let kin = arm.kin;
    let p = kin.p2 + linear::apply(arm.h3.ahead(q3), kin.p3);
    subproblems::subproblem2(p_16, p, -kin.h1, kin.h2)
}

// What q3 gives to all pairs (q1, q2): r_32, the rotation back by q3.
#[derive(Clone, Copy)]
struct GivenQ3<'a> {
    arm: &'a Arm,
    r_0t: Matrix3,
    q3: f64,
    r_32: Matrix3,
    ghost back: { r_32 ≡ rot (negᵛ arm.now.kin.h3) q3 },
}

impl GivenQ3<'_> {
    #[tactic(auto, unfolding(crate::specs::SphericalTwoIntersecting::at_q12, families_wrist::specs::Wrist::r_36))]
    fn at_q12(&self, is_ls: bool, q12: Pair) -> ArrayVec<Answer, 2>
        ensures { result.items ≡ at_q12 self.now.r_0t self.now.arm.now.kin self.now.arm.now.tolerance self.now.q3 is_ls q12 }
    {
        let Pair {
            first: q1,
            second: q2,
        } = q12;
        let arm = self.arm;
        let r_36 = product4(self.r_32, arm.h2.back(q2), arm.h1.back(q1), self.r_0t);
        wrist(arm, r_36, q1, q2, self.q3, is_ls)
    }
}

#[tactic(auto, using(families_shared::proofs::Gathered::whole), unfolding(crate::specs::SphericalTwoIntersecting::at_q3))]
fn at_q3(arm: &Arm, r_0t: Matrix3, p_16: Vector3, t3_is_ls: bool, q3: f64) -> ArrayVec<Answer, 4>
    ensures { result.items ≡ at_q3 r_0t arm.now.kin arm.now.tolerance p_16 t3_is_ls q3 }
{
    let r_32 = arm.h3.back(q3);
    let given = GivenQ3 {
        arm,
        r_0t,
        q3,
        r_32,
    };
    let t = t12(arm, p_16, q3);
    let is_ls = t3_is_ls || t.is_ls;
    let mut all = ArrayVec::new();
    for q12 in t.set.get_all().iter() {
        append(&mut all, &given.at_q12(is_ls, *q12));
    }
    all
}

#[tactic(auto, using(families_shared::proofs::Gathered::whole), unfolding(crate::specs::SphericalTwoIntersecting::spherical_two_intersecting))]
pub fn spherical_two_intersecting(
    r_0t: Matrix3,
    p_0t: Vector3,
    kin: Kinematics,
    tolerance: f64,
) -> ArrayVec<Answer, 8>
    ensures { result.items ≡ spherical_two_intersecting r_0t p_0t kin tolerance }
{
    let arm = Arm::new(kin, tolerance);
    let p = p_16(r_0t, p_0t, kin);
    let t = t3(kin, p);
    let mut all = ArrayVec::new();
    for q3 in t.set.get_all().iter() {
        append(&mut all, &at_q3(&arm, r_0t, p, t.is_ls, *q3));
    }
    all
}
