// Family 5: three_parallel. (Why it gathers its answers by loops: families_shared, `append`.)
#![tactic(auto)]

ghost use Rattle.std.specs.Prelude.{◌≡◌};
ghost use Rattle.linear.specs.Matrix.{product, apply};
ghost use Rattle.linear.specs.Vector.{◌-ᵛ◌};
ghost use Rattle.family5.specs.ThreeParallel.{theta15, q6, at_q15, three_parallel};

use answers::Answer;
use array_vec::ArrayVec;
use families_elbow::{GivenQ156, theta14};
use families_shared::{Arm, append, p_16};
use kinematics::Kinematics;
use linear::{Matrix3, Vector3};
use solutionset::{Pair, SolutionSet4};
use subproblems::Solved1;

#[tactic(auto, unfolding(crate::specs::ThreeParallel::theta15))]
fn theta15(r_06: Matrix3, kin: Kinematics, p_16: Vector3) -> SolutionSet4<Pair>
    ensures { result ≡ theta15 r_06 kin p_16 }
{
    let h1 = -kin.h1;
    let h2 = kin.h2;
    let h5 = kin.h5;
    let p_sp = [p_16, -kin.p5, linear::apply(r_06, kin.h6), -kin.h6];
    let d1 = linear::dot(h2, kin.p2 + kin.p3 + kin.p4 + kin.p1);
    subproblem6::subproblem6([h2, h2, h2, h2], [h1, h5, h1, h5], p_sp, d1, 0.0)
}

#[tactic(auto, unfolding(crate::specs::ThreeParallel::q6))]
fn q6(arm: &Arm, r_06: Matrix3, r_01: Matrix3, r_45: Matrix3) -> Solved1<f64>
    ensures { result ≡ q6 r_06 arm.now.kin arm.now.tolerance r_01 r_45 }
{
    let h2 = arm.kin.h2;
    let p1 = linear::apply(linear::transpose(r_45), h2);
    let p2 = linear::apply(linear::product(linear::transpose(r_06), r_01), h2);
    subproblems::subproblem1_within(p1, p2, -arm.kin.h6, arm.tolerance)
}

// `reach` is r_01.transpose() * p_16.
fn d_inner(kin: Kinematics, reach: Vector3, r_45: Matrix3, r_14: Matrix3) -> Vector3
    ensures { result ≡ reach -ᵛ kin.p1 -ᵛ apply (product r_14 r_45) kin.p5 -ᵛ apply r_14 kin.p4 }
{
    reach
        - kin.p1
        - linear::apply(linear::product(r_14, r_45), kin.p5)
        - linear::apply(r_14, kin.p4)
}

#[tactic(auto, unfolding(crate::specs::ThreeParallel::at_q15, crate::specs::ThreeParallel::d_inner, families_elbow::specs::Elbow::theta14))]
fn at_q15(arm: &Arm, r_06: Matrix3, p_16: Vector3, q15: Pair) -> ArrayVec<Answer, 2>
    ensures { result.items ≡ at_q15 r_06 arm.now.kin arm.now.tolerance p_16 q15 }
{
    let Pair {
        first: q1,
        second: q5,
    } = q15;
    let r_01 = arm.h1.ahead(q1);
    let r_45 = arm.h5.ahead(q5);
    let r_10 = linear::transpose(r_01);
    let to = linear::apply(linear::product(r_10, r_06), arm.kin.h6);
    let t = theta14(arm, to, r_45);
    let s = q6(arm, r_06, r_01, r_45);
    let r_14 = arm.h2.ahead(t.theta);
    let known = GivenQ156 {
        d_inner: d_inner(arm.kin, linear::apply(r_10, p_16), r_45, r_14),
        theta14: t.theta,
        q1,
        q5,
        q6: s.theta,
        is_ls: t.is_ls || s.is_ls,
    };
    known.elbow(arm)
}

#[tactic(auto, using(families_shared::proofs::Gathered::whole), unfolding(crate::specs::ThreeParallel::three_parallel))]
pub fn three_parallel(
    r_06: Matrix3,
    p_0t: Vector3,
    kin: Kinematics,
    tolerance: f64,
) -> ArrayVec<Answer, 8>
    ensures { result.items ≡ three_parallel r_06 p_0t kin tolerance }
{
    let arm = Arm::new(kin, tolerance);
    let p = p_16(r_06, p_0t, kin);
    let mut all = ArrayVec::new();
    for q15 in theta15(r_06, kin, p).get_all().iter() {
        append(&mut all, &at_q15(&arm, r_06, p, *q15));
    }
    all
}
