// The error of two_parallel (inverse_kinematics/mod.rs) as a named function of what the arm and the pose
// give, and of q1. What does not depend on q1 is computed once.
#![tactic(auto)]

ghost use Rattle.std.specs.Prelude.{◌≡◌};
ghost use Rattle.search_error.specs.Error as Plain;
ghost use Rattle.linear.specs.Matrix.{apply};
ghost use Rattle.search_error.specs.Fixed.{fixed, given_q1, t64, given_t64, t23, p_13, answer_error, error_of, error_at, branch_error};

mod component;

pub use component::Branch;
use families_shared::p_16;
use kinematics::Kinematics;
use linear::{Matrix3, Vector3};
use solutionset::{Pair, SolutionSet4};

// The arm; the axes that are rotated about, normalised; two negations; r_06; p_16; and the length of p2,
// or f64::MIN_POSITIVE if that is more.
#[derive(Clone, Copy)]
pub struct Fixed {
    pub kin: Kinematics,
    pub u1: Vector3,
    pub u2: Vector3,
    pub u4: Vector3,
    pub u6: Vector3,
    pub minus_h5: Vector3,
    pub minus_h6: Vector3,
    pub r_06: Matrix3,
    pub p_16: Vector3,
    pub l2: f64,
}

// What q1 gives to all answers: r_01^T r_06, the first of subproblem 6's vectors h, and
// r_01^T p_16 - p1.
#[derive(Clone, Copy)]
pub struct GivenQ1 {
    pub rotation: Matrix3,
    pub h: Vector3,
    pub p: Vector3,
}

// What an answer (t6, t4) of subproblem 6 gives at q1: the rotations by t4 and by t6, and r_16, which is
// r_01^T r_06 r_56^T.
#[derive(Clone, Copy)]
pub struct GivenT64 {
    pub r_34: Matrix3,
    pub r_56: Matrix3,
    pub r_16: Matrix3,
}

// The larger of x and MIN_POSITIVE; of a NaN the latter. (f64::max promises of two numbers that compare
// equal only that it gives one of them, so this equation does not follow from it.)
fn max_positive(x: f64) -> f64
    ensures { result ≡ Plain.max_positive x }
{
    if x > f64::MIN_POSITIVE {
        x
    } else {
        f64::MIN_POSITIVE
    }
}

impl Fixed {
    #[tactic(auto, unfolding(crate::specs::Fixed::fixed))]
    pub fn new(kin: Kinematics, r_06: Matrix3, p_0t: Vector3) -> Fixed
        ensures { result ≡ fixed kin r_06 p_0t }
    {
        Fixed {
            kin,
            u1: linear::normalize(kin.h1),
            u2: linear::normalize(kin.h2),
            u4: linear::normalize(kin.h4),
            u6: linear::normalize(kin.h6),
            minus_h5: -kin.h5,
            minus_h6: -kin.h6,
            r_06,
            p_16: p_16(r_06, p_0t, kin),
            l2: max_positive(linear::norm(kin.p2)),
        }
    }

    #[tactic(auto, unfolding(crate::specs::Fixed::given_q1))]
    pub fn given_q1(&self, q1: f64) -> GivenQ1
        ensures { result ≡ given_q1 self.now q1 }
    {
        let r_10 = linear::transpose(linear::rot_unit(self.u1, q1));
        let h1 = linear::row_apply(self.kin.h2, r_10);
        GivenQ1 {
            rotation: linear::product(r_10, self.r_06),
            h: linear::row_apply(h1, self.r_06),
            p: linear::apply(r_10, self.p_16) - self.kin.p1,
        }
    }

    // Subproblem 6's answers (t6, t4).
    #[tactic(auto, unfolding(crate::specs::Fixed::t64))]
    pub fn t64(&self, t: &GivenQ1) -> SolutionSet4<Pair>
        ensures { result ≡ t64 self.now t.now }
    {
        let h1 = t.h;
        let h2 = self.kin.h2;
        let k1 = self.minus_h6;
        let k2 = self.kin.h4;
        let p = t.p - self.kin.p2 - self.kin.p3;
        subproblem6::subproblem6(
            [h1, h2, h1, h2],
            [k1, k2, k1, k2],
            [self.kin.p5, self.kin.p4, self.kin.h5, self.minus_h5],
            linear::dot(h2, p),
            0.0,
        )
    }

    #[tactic(auto, unfolding(crate::specs::Fixed::given_t64))]
    pub fn given_t64(&self, t: &GivenQ1, a: Pair) -> GivenT64
        ensures { result ≡ given_t64 self.now t.now a }
    {
        let r_56 = linear::rot_unit(self.u6, a.first);
        GivenT64 {
            r_34: linear::rot_unit(self.u4, a.second),
            r_56,
            r_16: linear::product(t.rotation, linear::transpose(r_56)),
        }
    }

    // The vectors that t23 turns one to the other: r_34 * h5 and r_16 * h5.
    pub fn h5_turned(&self, r: &GivenT64) -> (Vector3, Vector3)
        ensures { result ≡ (apply r.now.r_34 self.now.kin.h5, apply r.now.r_16 self.now.kin.h5) }
    {
        (
            linear::apply(r.r_34, self.kin.h5),
            linear::apply(r.r_16, self.kin.h5),
        )
    }

    #[tactic(auto, unfolding(crate::specs::Fixed::t23))]
    fn t23(&self, r: &GivenT64) -> f64
        ensures { result ≡ t23 self.now r.now.r_16 r.now.r_34 }
    {
        let (p1, p2) = self.h5_turned(r);
        subproblems::subproblem1_theta(p1, p2, self.kin.h2)
    }

    // What p2 has to be turned to, if joints 2 and 3 together turn by t23.
    #[tactic(auto, unfolding(crate::specs::Fixed::p_13))]
    pub fn p_13(&self, t: &GivenQ1, r: &GivenT64, t23: f64) -> Vector3
        ensures { result ≡ p_13 self.now t.now r.now.r_16 r.now.r_34 t23 }
    {
        let r_13 = linear::rot_unit(self.u2, t23);
        let p3 = t.p - linear::apply(r_13, self.kin.p3);
        let r_14 = linear::product(r_13, r.r_34);
        let p4 = p3 - linear::apply(r_14, self.kin.p4);
        p4 - linear::apply(r.r_16, self.kin.p5)
    }

    // What one answer sets: how long p2 would have to be, less its length. Relative to |p2|, so that the
    // search's touch threshold is independent of the length unit.
    #[tactic(auto, unfolding(crate::specs::Fixed::answer_error, crate::specs::Fixed::gap, crate::specs::Fixed::given_t64))]
    pub fn answer_error(&self, t: &GivenQ1, a: Pair) -> f64
        ensures { result ≡ answer_error self.now t.now a }
    {
        let r = self.given_t64(t, a);
        let gap = linear::norm(self.p_13(t, &r, self.t23(&r)));
        (gap - self.l2) / self.l2
    }

    // The error's four components at q1, all infinite at first; component i is set from answer i.
    #[tactic(auto, using(std::proofs::lemmas::List::take_all), unfolding(crate::specs::Fixed::error_of))]
    pub fn error(&self, q1: f64) -> [f64; 4]
        ensures { result ≡ error_of self.now q1 }
    {
        let t = self.given_q1(q1);
        let answers = self.t64(&t).get_all();
        let mut e = [float::infinity(); 4];
        for (i, a) in answers.iter().enumerate() {
            e[i] = self.answer_error(&t, *a);
        }
        e
    }
}

// The same by the Rust's name, which the search in steps calls.
pub fn error_given_q1(fixed: Fixed, q1: f64) -> [f64; 4]
    ensures { result ≡ error_of fixed q1 }
{
    fixed.error(q1)
}

impl Branch {
    // One evaluation of the error.
    #[tactic(auto, unfolding(crate::specs::Fixed::error_at))]
    pub fn error(&self, q1: f64) -> f64
        ensures { result ≡ branch_error self.now q1 }
    {
        self.fixed.error(q1)[self.i as usize]
    }
}
