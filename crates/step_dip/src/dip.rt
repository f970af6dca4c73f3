// minimise_dip in steps, between the points p and q. Its pairs are of component i.
ghost use Rattle.std.specs.Prelude.{◌≡◌};
ghost use Rattle.search_definition.specs.Found.{Part, Origin, component};
ghost use Rattle.search_steps.specs.DipSteps as Steps;
ghost use Rattle.step_refine.specs.State.{point_of};
ghost use Rattle.step_pairs.specs.Landed.{landed, came};
ghost use Rattle.search_dip.specs.Valley.{valley};
ghost use Rattle.step_dip.specs.State.{dip_of};

use crate::golden::{depth_of, moved, opened, probe};
use array_vec::ArrayVec;
use float::is_finite;
use search_dip::dip::{Valley, best, left_of, right_of, sign_of};
use step_pairs::{Found, add_pair, refined};
use step_refine::{Point, Refining};

#[derive(Clone, Copy)]
pub enum Dip {
    Opening,
    OpenedLeft(f64),
    Sinking(usize, Valley),
    Before(Point, Refining),
    After(Refining),
}

// The second refinement, between the lowest point m and q.
pub fn after_way<const N: usize>(
    i: u8,
    m: Point,
    q: Point,
    found: &mut ArrayVec<Found, N>,
) -> Option<Dip>
    ensures { (o : Part → Origin) → ((h : Part) → component (o h) ≡ i) → (p : _) → came dip_of found.new.items result ≡ landed N found.old.items (Steps.after_way o p (point_of q) (point_of m)) }
{
    refined(i, step_refine::start(m, q), found).map(|r| Dip::After(r))
}

// From the lowest point of a valley: two refinements where the row crosses there, a pair where it touches.
pub fn crossed_way<const N: usize>(
    i: u8,
    p: Point,
    q: Point,
    v: Valley,
    found: &mut ArrayVec<Found, N>,
) -> Option<Dip>
    ensures { (o : Part → Origin) → ((h : Part) → component (o h) ≡ i) → came dip_of found.new.items result ≡ landed N found.old.items (Steps.crossed_way o (point_of p) (point_of q) (valley v)) }
{
    let x = v.best_x;
    let g = v.best_g;
    if g < 0.0 {
        let y = sign_of(p.y) * g;
        let m = Point { x, y };
        return match refined(i, step_refine::start(p, m), found) {
            Some(r) => Some(Dip::Before(m, r)),
            None => after_way(i, m, q, found),
        };
    }
    if is_finite(g) {
        add_pair(i, x, found);
    }
    None
}

// At most `left` turns from a valley.
pub fn sink_way<const N: usize>(
    i: u8,
    p: Point,
    q: Point,
    left: usize,
    v: Valley,
    found: &mut ArrayVec<Found, N>,
) -> Option<Dip>
    ensures { (o : Part → Origin) → ((h : Part) → component (o h) ≡ i) → came dip_of found.new.items result ≡ landed N found.old.items (Steps.sink_way o (point_of p) (point_of q) left (valley v)) }
{
    if left == 0 {
        return crossed_way(i, p, q, v, found);
    }
    Some(Dip::Sinking(left - 1, v))
}

// One turn, with the depth g of the point that it asked.
pub fn sunk<const N: usize>(
    i: u8,
    p: Point,
    q: Point,
    left: usize,
    v: Valley,
    g: f64,
    found: &mut ArrayVec<Found, N>,
) -> Option<Dip>
    ensures { (o : Part → Origin) → ((h : Part) → component (o h) ≡ i) → came dip_of found.new.items result ≡ landed N found.old.items (Steps.turned_way o (point_of p) (point_of q) left (valley v) g) }
{
    let w = best(moved(v, g));
    if w.best_g < 0.0 {
        return crossed_way(i, p, q, w, found);
    }
    sink_way(i, p, q, left, w, found)
}

// The angle that a dip asks.
pub fn dip_angle(p: Point, q: Point, d: Dip) -> f64
    ensures { (o : Part → Origin) → result ≡ Steps.dip_angle o (point_of p) (point_of q) (dip_of d) }
{
    match d {
        Dip::Opening => left_of(p.x, q.x),
        Dip::OpenedLeft(_) => right_of(p.x, q.x),
        Dip::Sinking(_, v) => probe(v),
        Dip::Before(_, r) => r.at.next(),
        Dip::After(r) => r.at.next(),
    }
}

// What a dip comes to with the value y at the angle that it asks.
pub fn dip_next<const N: usize>(
    i: u8,
    p: Point,
    q: Point,
    d: Dip,
    y: f64,
    found: &mut ArrayVec<Found, N>,
) -> Option<Dip>
    ensures { (o : Part → Origin) → ((h : Part) → component (o h) ≡ i) → came dip_of found.new.items result ≡ landed N found.old.items (Steps.dip_next o (point_of p) (point_of q) (dip_of d) y) }
{
    match d {
        Dip::Opening => Some(Dip::OpenedLeft(depth_of(sign_of(p.y), y))),
        Dip::OpenedLeft(g) => {
            let v = opened(p.x, q.x, g, depth_of(sign_of(p.y), y));
            sink_way(i, p, q, 16, v, found)
        }
        Dip::Sinking(left, v) => sunk(i, p, q, left, v, depth_of(sign_of(p.y), y), found),
        Dip::Before(m, r) => {
            match refined(i, step_refine::next(r, y), found) {
                Some(r) => Some(Dip::Before(m, r)),
                None => after_way(i, m, q, found),
            }
        }
        Dip::After(r) => refined(i, step_refine::next(r, y), found).map(|r| Dip::After(r)),
    }
}
