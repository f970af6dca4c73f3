// refine_bracket in steps: what it holds between two evaluations, by value, and what it comes to with the
// value at the angle that it asks. Nothing here knows the error.
#![tactic(auto)]

ghost use Rattle.std.specs.Prelude.{◌≡◌};
ghost use Rattle.search_definition.specs.Found.{Origin};
ghost use Rattle.search_steps.specs.RefineSteps as Steps;
ghost use Rattle.step_refine.specs.State.{point_of, bracket_of, refining_of, way_of};

use float::is_finite;
pub use search_refine::Point;
use search_refine::refine::Bracket;
use std::ops::ControlFlow;

// The bracket whose next angle is asked, and how many turns may follow.
#[derive(Clone, Copy)]
pub struct Refining {
    pub left: usize,
    pub at: Bracket,
}

// At most `left` turns from a bracket: it goes on where it asks, and breaks with an angle where it is over.
// An angle that is not finite ends it with no evaluation.
pub fn way(left: usize, s: Bracket) -> ControlFlow<f64, Refining>
    ensures { (o : Origin) → way_of o result ≡ Steps.refine_way o left (bracket_of s) }
{
    if left == 0 {
        return ControlFlow::Break(s.x);
    }
    if is_finite(s.next()) {
        return ControlFlow::Continue(Refining {
            left: left - 1,
            at: s,
        });
    }
    ControlFlow::Break(s.x)
}

#[tactic(auto, unfolding(search_steps::specs::RefineSteps::refine_start))]
pub fn start(p: Point, q: Point) -> ControlFlow<f64, Refining>
    ensures { (o : Origin) → way_of o result ≡ Steps.refine_start o (point_of p) (point_of q) }
{
    way(60, Bracket::between(p, q))
}

// The turn's end, with the value y at the angle that was asked.
pub fn next(r: Refining, y: f64) -> ControlFlow<f64, Refining>
    ensures { (o : Origin) → way_of o result ≡ Steps.refine_next o (refining_of r) y }
{
    let s = r.at;
    if !is_finite(y) {
        return ControlFlow::Break(s.x);
    }
    let x = s.next();
    if s.is_near(y) {
        return ControlFlow::Break(x);
    }
    way(r.left, s.narrowed(Point { x, y }))
}
