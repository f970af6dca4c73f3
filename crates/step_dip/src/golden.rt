// The golden section with the values given. A valley's count of evaluations is search_dip's own; here it stays 0.
ghost use Rattle.std.specs.Prelude.{◌≡◌};
ghost use Rattle.search_definition.specs.Dip as Dip;
ghost use Rattle.search_steps.specs.DipSteps as Steps;
ghost use Rattle.search_dip.specs.Valley.{valley};

use float::{infinity, is_finite};
use search_dip::dip::{Valley, left_of, pick, right_of};

// The depth of a point with value y.
pub fn depth_of(sign: f64, y: f64) -> f64
    ensures { result ≡ Steps.depth_of sign y }
{
    if is_finite(y) {
        return sign * y;
    }
    infinity()
}

// Between a and b, with the depths of the two inner points.
pub fn opened(a: f64, b: f64, g1: f64, g2: f64) -> Valley
    ensures { valley result ≡ Steps.opened_of a b g1 g2 }
{
    let x1 = left_of(a, b);
    let x2 = right_of(a, b);
    let c = g1 < g2;
    let best_x = pick(c, x1, x2);
    let best_g = pick(c, g1, g2);
    Valley {
        lo: a,
        hi: b,
        x1,
        x2,
        g1,
        g2,
        best_x,
        best_g,
        evals: 0,
    }
}

// The angle that a turn asks.
pub fn probe(v: Valley) -> f64
    ensures { result ≡ Dip.probe (Steps.leftward (valley v)) (valley v) }
{
    if v.g1 < v.g2 {
        return left_of(v.lo, v.x2);
    }
    right_of(v.x1, v.hi)
}

// The side with the lower point is kept; g is the depth of its new point.
pub fn moved(v: Valley, g: f64) -> Valley
    ensures { valley result ≡ Steps.moved_of (Steps.leftward (valley v)) (valley v) g }
{
    if v.g1 < v.g2 {
        let p = left_of(v.lo, v.x2);
        return Valley {
            hi: v.x2,
            x1: p,
            x2: v.x1,
            g1: g,
            g2: v.g1,
            ..v
        };
    }
    let p = right_of(v.x1, v.hi);
    Valley {
        lo: v.x1,
        x1: v.x2,
        x2: p,
        g1: v.g2,
        g2: g,
        ..v
    }
}
