// Family 4: three_parallel_two_intersecting. (Why it gathers its answers by loops: families_shared, `append`.)
#![tactic(auto)]

ghost use Rattle.std.specs.Prelude.{◌≡◌};
ghost use Rattle.linear.specs.Matrix.{product, apply, transpose, rot};
ghost use Rattle.family4.specs.ThreeParallelTwoIntersecting.{theta1, theta5, d_inner, q6, at_q5, at_q1, three_parallel_two_intersecting};

use answers::Answer;
use array_vec::ArrayVec;
use families_elbow::{GivenQ156, theta14};
use families_shared::{Arm, append, p_16, product4};
use kinematics::Kinematics;
use linear::{Matrix3, Vector3};
use subproblems::{Solved1, Solved2};

#[tactic(auto, unfolding(crate::specs::ThreeParallelTwoIntersecting::theta1))]
fn theta1(kin: Kinematics, p_16: Vector3) -> Solved2<f64>
    ensures { result ≡ theta1 kin p_16 }
{
    let d = linear::dot(kin.h2, linear::column_sum(kin.p1, kin.p2, kin.p3, kin.p4));
    subproblems::subproblem4(kin.h2, p_16, -kin.h1, d)
}

// What q1 gives to all q5: r_10 is r_01.transpose(), `to` is r_10 * r_06 * h6 and `reach` r_10 * p_16.
#[derive(Clone, Copy)]
struct GivenQ1<'a> {
    arm: &'a Arm,
    r_06: Matrix3,
    p_16: Vector3,
    q1: f64,
    theta1_is_ls: bool,
    r_10: Matrix3,
    to: Vector3,
    reach: Vector3,
    ghost back: { r_10 ≡ transpose (rot arm.now.kin.h1 q1) },
    ghost to_value: { to ≡ apply (product r_10 r_06) arm.now.kin.h6 },
    ghost reach_value: { reach ≡ apply r_10 p_16 },
}

impl GivenQ1<'_> {
    #[tactic(auto, unfolding(crate::specs::ThreeParallelTwoIntersecting::theta5))]
    fn theta5(&self) -> Solved2<f64>
        ensures { result ≡ theta5 self.now.r_06 self.now.arm.now.kin (rot self.now.arm.now.kin.h1 self.now.q1) }
    {
        let kin = &self.arm.kin;
        let row = linear::row_apply(linear::row_apply(kin.h2, self.r_10), self.r_06);
        subproblems::subproblem4(kin.h2, kin.h6, kin.h5, linear::dot(row, kin.h6))
    }

    #[tactic(auto, unfolding(crate::specs::ThreeParallelTwoIntersecting::d_inner))]
    fn d_inner(&self, r_14: Matrix3) -> Vector3
        ensures { result ≡ d_inner self.now.arm.now.kin self.now.p_16 (rot self.now.arm.now.kin.h1 self.now.q1) r_14 }
    {
        let kin = &self.arm.kin;
        self.reach - kin.p1 - linear::apply(r_14, kin.p4 + kin.p5)
    }

    #[tactic(auto, unfolding(crate::specs::ThreeParallelTwoIntersecting::q6))]
    fn q6(&self, r_45: Matrix3, r_14: Matrix3) -> Solved1<f64>
        ensures { result ≡ q6 self.now.r_06 self.now.arm.now.kin self.now.arm.now.tolerance (rot self.now.arm.now.kin.h1 self.now.q1) r_45 r_14 }
    {
        let arm = self.arm;
        let h5 = arm.kin.h5;
        let r_54 = linear::transpose(r_45);
        let r_50 = product4(r_54, linear::transpose(r_14), self.r_10, self.r_06);
        subproblems::subproblem1_within(h5, linear::apply(r_50, h5), arm.kin.h6, arm.tolerance)
    }

    #[tactic(auto, unfolding(crate::specs::ThreeParallelTwoIntersecting::at_q5, families_elbow::specs::Elbow::theta14))]
    fn at_q5(&self, theta5_is_ls: bool, q5: f64) -> ArrayVec<Answer, 2>
        ensures { result.items ≡ at_q5 self.now.r_06 self.now.arm.now.kin self.now.arm.now.tolerance self.now.p_16 (rot self.now.arm.now.kin.h1 self.now.q1) self.now.q1 self.now.theta1_is_ls theta5_is_ls q5 }
    {
        let arm = self.arm;
        let r_45 = arm.h5.ahead(q5);
        let t = theta14(arm, self.to, r_45);
        let r_14 = arm.h2.ahead(t.theta);
        let d = self.d_inner(r_14);
        let s = self.q6(r_45, r_14);
        let is_ls = self.theta1_is_ls || theta5_is_ls || t.is_ls || s.is_ls;
        let known = GivenQ156 {
            d_inner: d,
            theta14: t.theta,
            q1: self.q1,
            q5,
            q6: s.theta,
            is_ls,
        };
        known.elbow(arm)
    }
}

#[tactic(auto, using(families_shared::proofs::Gathered::whole), unfolding(crate::specs::ThreeParallelTwoIntersecting::at_q1))]
fn at_q1(
    arm: &Arm,
    r_06: Matrix3,
    p_16: Vector3,
    theta1_is_ls: bool,
    q1: f64,
) -> ArrayVec<Answer, 4>
    ensures { result.items ≡ at_q1 r_06 arm.now.kin arm.now.tolerance p_16 theta1_is_ls q1 }
{
    let r_10 = linear::transpose(arm.h1.ahead(q1));
    let given = GivenQ1 {
        arm,
        r_06,
        p_16,
        q1,
        theta1_is_ls,
        r_10,
        to: linear::apply(linear::product(r_10, r_06), arm.kin.h6),
        reach: linear::apply(r_10, p_16),
    };
    let t = given.theta5();
    let mut all = ArrayVec::new();
    for q5 in t.set.get_all().iter() {
        append(&mut all, &given.at_q5(t.is_ls, *q5));
    }
    all
}

#[tactic(auto, using(families_shared::proofs::Gathered::whole), unfolding(crate::specs::ThreeParallelTwoIntersecting::three_parallel_two_intersecting))]
pub fn three_parallel_two_intersecting(
    r_06: Matrix3,
    p_0t: Vector3,
    kin: Kinematics,
    tolerance: f64,
) -> ArrayVec<Answer, 8>
    ensures { result.items ≡ three_parallel_two_intersecting r_06 p_0t kin tolerance }
{
    let arm = Arm::new(kin, tolerance);
    let p = p_16(r_06, p_0t, kin);
    let t = theta1(kin, p);
    let mut all = ArrayVec::new();
    for q1 in t.set.get_all().iter() {
        append(&mut all, &at_q1(&arm, r_06, p, t.is_ls, *q1));
    }
    all
}
