// minimise_dip: golden section for the point of a component closest to zero where both ends have one sign.
// A minimum that crosses zero gives two refinements; one that does not is a tangent candidate.
ghost use Rattle.std.specs.Prelude.{◌≡◌, cond, ◌<◌, ◌≤◌, ◌+◌};
ghost use Rattle.std.specs.Float.Ieee.{lt};
ghost use Rattle.search_definition.specs.Found.{Part, Origin, component};
ghost use Rattle.search_definition.specs.Dip as Dip;
ghost use Rattle.search_definition.specs.Dip.{left_of, right_of, sign_of, minimise_dip};
ghost use Rattle.search_error.specs.Fixed.{branch_error};
ghost use Rattle.search_refine.specs.Counted.{with_count, total};
ghost use Rattle.search_refine.specs.Point.{point_of};
ghost use Rattle.search_pairs.specs.State.{Roomy, state, afterwards};
ghost use Rattle.search_dip.specs.Valley.{valley};

use float::{infinity, is_finite};
use search_error::Branch;
use search_pairs::LentPairs;
use search_refine::Point;

const INV_PHI: f64 = 0.618033988749895;

#[derive(Clone, Copy)]
pub struct Valley {
    pub lo: f64,
    pub hi: f64,
    pub x1: f64,
    pub x2: f64,
    pub g1: f64,
    pub g2: f64,
    pub best_x: f64,
    pub best_g: f64,
    pub evals: u64,
}

pub fn pick(c: bool, a: f64, b: f64) -> f64
    ensures { result ≡ cond c a b }
{
    if c { a } else { b }
}

#[tactic(auto, unfolding(search_definition::specs::Dip::left_of))]
pub fn left_of(lo: f64, hi: f64) -> f64
    ensures { result ≡ left_of lo hi }
{
    hi - INV_PHI * (hi - lo)
}

#[tactic(auto, unfolding(search_definition::specs::Dip::right_of))]
pub fn right_of(lo: f64, hi: f64) -> f64
    ensures { result ≡ right_of lo hi }
{
    lo + INV_PHI * (hi - lo)
}

#[tactic(auto, unfolding(search_definition::specs::Dip::sign_of, search_definition::specs::Refine::negative))]
pub fn sign_of(y: f64) -> f64
    ensures { result ≡ sign_of y }
{
    if y < 0.0 { -1.0 } else { 1.0 }
}

// The Rust's closure g: one evaluation, infinite where the component is not finite.
#[tactic(auto, unfolding(search_definition::specs::Dip::depth))]
pub fn depth(branch: &Branch, sign: f64, x: f64) -> f64
    ensures { result ≡ Dip.depth (branch_error branch.now) sign x }
{
    let y = branch.error(x);
    if is_finite(y) { sign * y } else { infinity() }
}

// One golden section: the side with the lower point is kept, and its new point evaluated.
#[tactic(auto, unfolding(search_definition::specs::Dip::moved, search_definition::specs::Dip::probe))]
pub fn moved(branch: &Branch, sign: f64, v: Valley) -> Valley
    requires { v.evals < 1000 }
    ensures { with_count (valley result) result.evals ≡ with_count (Dip.moved (branch_error branch.now) sign (lt v.g1 v.g2) (valley v)) (v.evals + 1) }
{
    let evals = v.evals + 1;
    if v.g1 < v.g2 {
        let x1 = left_of(v.lo, v.x2);
        let g1 = depth(branch, sign, x1);
        Valley {
            hi: v.x2,
            x1,
            x2: v.x1,
            g1,
            g2: v.g1,
            evals,
            ..v
        }
    } else {
        let x2 = right_of(v.x1, v.hi);
        let g2 = depth(branch, sign, x2);
        Valley {
            lo: v.x1,
            x1: v.x2,
            x2,
            g1: v.g2,
            g2,
            evals,
            ..v
        }
    }
}

// The lower of the two inner points becomes the best where it is lower than that.
#[tactic(auto, unfolding(search_definition::specs::Dip::best, search_definition::specs::Dip::bettered))]
pub fn best(v: Valley) -> Valley
    ensures { with_count (valley result) result.evals ≡ with_count (Dip.best (valley v)) v.evals }
{
    let (x, g) = if v.g1 < v.g2 {
        (v.x1, v.g1)
    } else {
        (v.x2, v.g2)
    };
    if g < v.best_g {
        Valley {
            best_x: x,
            best_g: g,
            ..v
        }
    } else {
        v
    }
}

// The first two inner points, with their two evaluations.
#[tactic(auto, unfolding(search_definition::specs::Dip::opened))]
pub fn opened(branch: &Branch, sign: f64, a: f64, b: f64) -> Valley
    ensures { with_count (valley result) result.evals ≡ with_count (Dip.opened (branch_error branch.now) sign a b) 2 }
{
    let x1 = left_of(a, b);
    let x2 = right_of(a, b);
    let g1 = depth(branch, sign, x1);
    let g2 = depth(branch, sign, x2);
    let (best_x, best_g) = if g1 < g2 { (x1, g1) } else { (x2, g2) };
    Valley {
        lo: a,
        hi: b,
        x1,
        x2,
        g1,
        g2,
        best_x,
        best_g,
        evals: 2,
    }
}

// Golden section between a and b, until the best is below zero.
pub fn lowest(branch: &Branch, sign: f64, a: f64, b: f64) -> Valley
    ensures { with_count (valley result) result.evals ≡ total (Dip.lowest (branch_error branch.now) sign a b) }
{
    let mut v = opened(branch, sign, a, b);
    for k in 0..16u64 {
        v = best(moved(branch, sign, v));
        if v.best_g < 0.0 {
            return v;
        }
    }
    v
}

// The dip between a and b: one pair or two, or none. The contract says it for every way o to name what
// added a pair, so that a caller can take its own; the state is the pairs listed so far and the
// evaluations, and the counts are so low that no counter overflows.
pub fn minimise_dip(branch: &Branch, a: Point, b: Point, list: &mut LentPairs)
    requires { Roomy 1000000 list.old }
    ensures { ((o : Part → Origin) → ((h : Part) → component (o h) ≡ branch.now.i) → state list.new ≡ afterwards (state list.old) (minimise_dip (branch_error branch.now) o (point_of a) (point_of b))) }
{
    let sign = sign_of(a.y);
    let v = lowest(branch, sign, a.x, b.x);
    list.evals += v.evals;
    if v.best_g < 0.0 {
        let m = Point {
            x: v.best_x,
            y: sign * v.best_g,
        };
        list.put_refined(branch, a, m);
        list.put_refined(branch, m, b);
    } else if is_finite(v.best_g) {
        list.put_pair(branch.i, v.best_x);
    }
}
