// refine_bracket: Illinois false position on a bracket whose ends differ in sign.
ghost use Rattle.std.specs.Prelude.{◌≡◌, ◌<◌, cond};
ghost use Rattle.std.specs.Bool.{beq};
ghost use Rattle.float.specs.Num.{◌⊖◌, ◌⊗◌, ◌⊘◌};
ghost use Rattle.search_definition.specs.Refine.{half, negative, bracket, next, near, narrowed, refine_bracket};
ghost use Rattle.search_error.specs.Fixed.{branch_error};
ghost use Rattle.search_refine.specs.Counted.{with_count, total};
ghost use Rattle.search_refine.specs.Bracket.{bracket_of};

use crate::Point;
use float::{abs, is_finite};
use search_error::Branch;

// An angle, and the evaluations made on the way to it.
#[derive(Clone, Copy)]
pub struct Root {
    pub x: f64,
    pub evals: u64,
}

// Which end of the bracket the last step moved.
#[derive(Clone, Copy, PartialEq, Eq)]
pub enum Moved {
    Neither,
    A,
    B,
}

// The ends of the bracket, and the angle that it has reached.
#[derive(Clone, Copy)]
pub struct Bracket {
    pub a: Point,
    pub b: Point,
    pub moved: Moved,
    pub x: f64,
}

// Where the chord between the ends of a bracket is zero. It may lie outside the bracket.
pub fn chord_zero(a: f64, b: f64, fa: f64, fb: f64) -> f64
    ensures { result ≡ (a ⊗ fb ⊖ b ⊗ fa) ⊘ (fb ⊖ fa) }
{
    (a * fb - b * fa) / (fb - fa)
}

// Illinois: halve the stale end so the bracket keeps shrinking.
pub fn halved_if(stale: bool, p: Point) -> Point
    ensures x { result.x ≡ p.x }
    ensures y { result.y ≡ cond stale (p.y ⊗ half) p.y }
{
    if stale {
        Point {
            x: p.x,
            y: p.y * 0.5,
        }
    } else {
        p
    }
}

impl Bracket {
    // Between two points, before the first step.
    pub fn between(a: Point, b: Point) -> Bracket
        ensures { bracket_of result ≡ bracket a.x b.x a.y b.y }
    {
        Bracket {
            a,
            b,
            moved: Moved::Neither,
            x: a.x,
        }
    }

    // The angle that the next step asks.
    #[tactic(auto, unfolding(search_definition::specs::Refine::next))]
    pub fn next(self) -> f64
        ensures { result ≡ next (bracket_of self) }
    {
        chord_zero(self.a.x, self.b.x, self.a.y, self.b.y)
    }

    // Whether a value y is close enough to zero, or the ends to one another.
    #[tactic(auto, unfolding(search_definition::specs::Refine::near))]
    pub fn is_near(self, y: f64) -> bool
        ensures { result ≡ near (bracket_of self) y }
    {
        abs(y) < 1e-15 || abs(self.b.x - self.a.x) < 1e-14
    }

    // The point p takes the place of the end whose sign it has.
    #[tactic(auto, unfolding(search_definition::specs::Refine::narrowed, search_definition::specs::Refine::negative))]
    pub fn narrowed(self, p: Point) -> Bracket
        ensures { bracket_of result ≡ narrowed (beq (negative p.y) (negative self.a.y)) p.x p.y (bracket_of self) }
    {
        if (p.y < 0.0) == (self.a.y < 0.0) {
            let stale = matches!(self.moved, Moved::A);
            Bracket {
                a: p,
                b: halved_if(stale, self.b),
                moved: Moved::A,
                x: p.x,
            }
        } else {
            let stale = matches!(self.moved, Moved::B);
            Bracket {
                a: halved_if(stale, self.a),
                b: p,
                moved: Moved::B,
                x: p.x,
            }
        }
    }
}

pub fn refine_bracket(branch: &Branch, a: Point, b: Point) -> Root
    ensures { with_count result.x result.evals ≡ total (refine_bracket (branch_error branch.now) a.x b.x a.y b.y) }
{
    let mut bracket = Bracket::between(a, b);
    for evals in 0..60u64 {
        let x = bracket.next();
        if !is_finite(x) {
            return Root {
                x: bracket.x,
                evals,
            };
        }
        let y = branch.error(x);
        if !is_finite(y) {
            return Root {
                x: bracket.x,
                evals: evals + 1,
            };
        }
        if bracket.is_near(y) {
            return Root {
                x,
                evals: evals + 1,
            };
        }
        bracket = bracket.narrowed(Point { x, y });
    }
    Root {
        x: bracket.x,
        evals: 60,
    }
}
