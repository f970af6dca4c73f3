// Family 1: spherical_two_parallel. (Why it gathers its answers by loops: families_shared, `append`.)
#![tactic(auto)]

ghost use Rattle.std.specs.Prelude.{◌≡◌};
ghost use Rattle.linear.specs.Matrix.{apply, rot};
ghost use Rattle.linear.specs.Vector.{◌+ᵛ◌, negᵛ};
ghost use Rattle.family1.specs.SphericalTwoParallel.{t1, t3, q2, at_q3, at_q1, spherical_two_parallel};

use answers::Answer;
use array_vec::ArrayVec;
use families_shared::{Arm, append, product4};
use families_wrist::wrist;
use kinematics::Kinematics;
use linear::{Matrix3, Vector3};
use subproblems::{Solved1, Solved2};

#[tactic(auto, unfolding(crate::specs::SphericalTwoParallel::t1))]
fn t1(r_0t: Matrix3, p_0t: Vector3, kin: Kinematics) -> Solved2<f64>
    ensures { result ≡ t1 r_0t p_0t kin }
{
    let p = p_0t - linear::apply(r_0t, kin.p6) - kin.p0;
    let d = linear::dot(kin.h2, kin.p1 + kin.p2 + kin.p3);
    subproblems::subproblem4(kin.h2, p, -kin.h1, d)
}

// -p_0t + r_0t * p6 + p0, which is not minus the place that t1 has: signs of zeros differ.
fn from_wrist(r_0t: Matrix3, p_0t: Vector3, kin: Kinematics) -> Vector3
    ensures { result ≡ negᵛ p_0t +ᵛ apply r_0t kin.p6 +ᵛ kin.p0 }
{
    -p_0t + linear::apply(r_0t, kin.p6) + kin.p0
}

// What q1 gives to all q3: r_10, the rotation back by q1, and p_13.
#[derive(Clone, Copy)]
struct GivenQ1<'a> {
    arm: &'a Arm,
    r_0t: Matrix3,
    q1: f64,
    q1_is_ls: bool,
    r_10: Matrix3,
    p_13: Vector3,
    ghost back: { r_10 ≡ rot (negᵛ arm.now.kin.h1) q1 },
}

impl GivenQ1<'_> {
    #[tactic(auto, unfolding(crate::specs::SphericalTwoParallel::t3))]
    fn t3(&self) -> Solved2<f64>
        ensures { result ≡ t3 self.now.arm.now.kin self.now.p_13 }
    {
        let kin = &self.arm.kin;
        subproblems::subproblem3(-kin.p3, kin.p2, kin.h3, linear::norm(self.p_13))
    }

    #[tactic(auto, unfolding(crate::specs::SphericalTwoParallel::q2))]
    fn q2(&self, q3: f64) -> Solved1<f64>
        ensures { result ≡ q2 self.now.arm.now.kin self.now.arm.now.tolerance self.now.p_13 q3 }
    {
        let arm = self.arm;
        let kin = &arm.kin;
        let p = -kin.p2 - linear::apply(arm.h3.ahead(q3), kin.p3);
        subproblems::subproblem1_within(p, self.p_13, kin.h2, arm.tolerance)
    }

    #[tactic(auto, unfolding(crate::specs::SphericalTwoParallel::at_q3, families_wrist::specs::Wrist::r_36))]
    fn at_q3(&self, q3_is_ls: bool, q3: f64) -> ArrayVec<Answer, 2>
        ensures { result.items ≡ at_q3 self.now.r_0t self.now.arm.now.kin self.now.arm.now.tolerance self.now.p_13 self.now.q1 self.now.q1_is_ls q3_is_ls q3 }
    {
        let arm = self.arm;
        let s = self.q2(q3);
        let r_36 = product4(arm.h3.back(q3), arm.h2.back(s.theta), self.r_10, self.r_0t);
        let is_ls = self.q1_is_ls || s.is_ls || q3_is_ls;
        wrist(arm, r_36, self.q1, s.theta, q3, is_ls)
    }
}

// `origin` is the same for all q1; p_0t is for the contract alone. One function asks this, and once: a struct
// for it would be longer.
#[tactic(auto, using(families_shared::proofs::Gathered::whole), unfolding(crate::specs::SphericalTwoParallel::at_q1, crate::specs::SphericalTwoParallel::p_13))]
fn at_q1(
    arm: &Arm,
    r_0t: Matrix3,
    p_0t: Vector3,
    origin: Vector3,
    q1_is_ls: bool,
    q1: f64,
) -> ArrayVec<Answer, 4>
    requires { origin ≡ negᵛ p_0t +ᵛ apply r_0t arm.now.kin.p6 +ᵛ arm.now.kin.p0 }
    ensures { result.items ≡ at_q1 r_0t p_0t arm.now.kin arm.now.tolerance q1_is_ls q1 }
{
    let r_10 = arm.h1.back(q1);
    let given = GivenQ1 {
        arm,
        r_0t,
        q1,
        q1_is_ls,
        r_10,
        p_13: linear::apply(r_10, origin) + arm.kin.p1,
    };
    let t = given.t3();
    let mut all = ArrayVec::new();
    for q3 in t.set.get_all().iter() {
        append(&mut all, &given.at_q3(t.is_ls, *q3));
    }
    all
}

#[tactic(auto, using(families_shared::proofs::Gathered::whole), unfolding(crate::specs::SphericalTwoParallel::spherical_two_parallel))]
pub fn spherical_two_parallel(
    r_0t: Matrix3,
    p_0t: Vector3,
    kin: Kinematics,
    tolerance: f64,
) -> ArrayVec<Answer, 8>
    ensures { result.items ≡ spherical_two_parallel r_0t p_0t kin tolerance }
{
    let arm = Arm::new(kin, tolerance);
    let origin = from_wrist(r_0t, p_0t, kin);
    let t = t1(r_0t, p_0t, kin);
    let mut all = ArrayVec::new();
    for q1 in t.set.get_all().iter() {
        append(&mut all, &at_q1(&arm, r_0t, p_0t, origin, t.is_ls, *q1));
    }
    all
}
