// The answers of family 6's pairs (q1, i), which the search finds: two_parallel of inverse_kinematics/mod.rs
// after its search. What each needs that the search's error needs too are methods of `Fixed`.
#![tactic(auto)]

ghost use Rattle.std.specs.Prelude.{◌≡◌};
ghost use Rattle.float.specs.Num.{◌⊖◌};
ghost use Rattle.float.specs.Wrap.{wrap_to_pi};
ghost use Rattle.family6_answers.specs.FixedAnswer.{t23, q2, q5, answer, answer_at};
ghost use Rattle.family6_answers.specs.Pairs.{pair, Answered};

use answers::Answer;
use search_error::{Fixed, GivenQ1, GivenT64};
use solutionset::Pair;
use subproblems::Solved1;

// By the wrap_to_pi of inverse_kinematics/auxiliary.rs: -PI at PI.
fn q3(t23: f64, q2: f64) -> f64
    ensures { result ≡ wrap_to_pi (t23 ⊖ q2) }
{
    float::wrap_to_pi(t23 - q2)
}

// An arm and a pose, and what subproblem1 flags by.
#[derive(Clone, Copy)]
struct Flagging<'a> {
    fixed: &'a Fixed,
    tolerance: f64,
}

impl Flagging<'_> {
    #[tactic(auto, unfolding(crate::specs::FixedAnswer::t23))]
    fn t23(&self, r: &GivenT64) -> Solved1<f64>
        ensures { result ≡ t23 self.now.fixed.now self.now.tolerance r.now.r_16 r.now.r_34 }
    {
        let (p1, p2) = self.fixed.h5_turned(r);
        subproblems::subproblem1_within(p1, p2, self.fixed.kin.h2, self.tolerance)
    }

    #[tactic(auto, unfolding(crate::specs::FixedAnswer::q2, search_error::specs::Fixed::p_13))]
    fn q2(&self, t: &GivenQ1, r: &GivenT64, theta: f64) -> Solved1<f64>
        ensures { result ≡ q2 self.now.fixed.now self.now.tolerance t.now r.now.r_16 r.now.r_34 theta }
    {
        let kin = &self.fixed.kin;
        let p_13 = self.fixed.p_13(t, r, theta);
        subproblems::subproblem1_within(kin.p2, p_13, kin.h2, self.tolerance)
    }

    #[tactic(auto, unfolding(crate::specs::FixedAnswer::q5))]
    fn q5(&self, q1: f64, r: &GivenT64) -> Solved1<f64>
        ensures { result ≡ q5 self.now.fixed.now self.now.tolerance q1 r.now.r_34 r.now.r_56 }
    {
        let fixed = self.fixed;
        let r_01 = linear::rot_unit(fixed.u1, q1);
        let r_50 = linear::product(r.r_56, linear::transpose(fixed.r_06));
        let p1 = linear::apply(linear::transpose(r.r_34), fixed.kin.h2);
        let p2 = linear::apply(linear::product(r_50, r_01), fixed.kin.h2);
        subproblems::subproblem1_within(p1, p2, fixed.minus_h5, self.tolerance)
    }

    // `t` is what q1 gives, `a` one of subproblem 6's answers (t6, t4) there.
    #[tactic(auto, unfolding(crate::specs::FixedAnswer::answer, search_error::specs::Fixed::given_t64))]
    fn answer(&self, q1: f64, t: &GivenQ1, a: Pair) -> Answer
        ensures { result ≡ answer self.now.fixed.now self.now.tolerance q1 t.now a }
    {
        let r = self.fixed.given_t64(t, a);
        let s23 = self.t23(&r);
        let s2 = self.q2(t, &r, s23.theta);
        let s5 = self.q5(q1, &r);
        Answer {
            q1,
            q2: s2.theta,
            q3: q3(s23.theta, s2.theta),
            q4: a.second,
            q5: s5.theta,
            q6: a.first,
            is_ls: s23.is_ls || s2.is_ls || s5.is_ls,
        }
    }
}

// The answer of the pair (q1, i). The Rust's index of t64 is in bounds.
#[tactic(auto, unfolding(crate::specs::FixedAnswer::answer_at))]
pub fn answer_at(fixed: &Fixed, tolerance: f64, q1: f64, i: usize) -> Answer
    requires { Answered fixed.now q1 i }
    ensures { result ≡ answer_at fixed.now tolerance (pair q1 i) }
{
    let t = fixed.given_q1(q1);
    let a = fixed.t64(&t).at(i);
    Flagging { fixed, tolerance }.answer(q1, &t, a)
}
