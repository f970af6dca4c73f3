// The end of a branch between two grid samples: it is located by bisection, and the last stretch is
// resampled densely towards it.
ghost use Rattle.std.specs.Prelude.{◌≡◌, [], ◌++◌, map, ◌+◌, ◌<◌, ◌≤◌, ◌^◌};
ghost use Rattle.array_vec.specs.ArrayVec.{array_vec_len};
ghost use Rattle.float.specs.Num.{◌⊕◌, ◌⊖◌, ◌⊗◌};
ghost use Rattle.float.specs.Number.{is_finite};
ghost use Rattle.search_definition.specs.Found.{Place, Origin, component};
ghost use Rattle.search_definition.specs.Search as Search;
ghost use Rattle.search_definition.specs.Search.{keep, if_inside, if_first_inside, edge_points, edge_from, edge_at};
ghost use Rattle.search_error.specs.Fixed.{branch_error};
ghost use Rattle.search_refine.specs.Counted.{with_count, total};
ghost use Rattle.search_refine.specs.Point.{point_of};
ghost use Rattle.search_pairs.specs.Row.{points};
ghost use Rattle.search_pairs.specs.State.{Roomy, state, afterwards};
ghost use Rattle.search_edge.specs.State.{gap};

use array_vec::ArrayVec;
use float::is_finite;
use search_error::Branch;
use search_pairs::{LentPairs, Row};
use search_refine::Point;
use search_scan::scan::scan_samples;

// The evaluations of an edge: so many bisections, and so many samples towards the branch's end.
const HALVINGS: u64 = 16;

const SUBSAMPLES: u64 = 7;

// A point of the branch, and an angle where the branch is not.
#[derive(Clone, Copy)]
pub struct Gap {
    pub inside: Point,
    pub outside: f64,
}

impl Gap {
    // Between the samples p and q, of which one is finite.
    #[tactic(auto, unfolding(search_definition::specs::Search::if_first_inside))]
    pub fn beside(p: Point, q: Point) -> Gap
        ensures { gap result ≡ if_first_inside (is_finite p.y) (point_of p) (point_of q) }
    {
        if is_finite(p.y) {
            Gap {
                inside: p,
                outside: q.x,
            }
        } else {
            Gap {
                inside: q,
                outside: p.x,
            }
        }
    }

    #[tactic(auto, unfolding(search_definition::specs::Search::mid))]
    pub fn mid(self) -> f64
        ensures { result ≡ Search.mid (gap self) }
    {
        0.5 * (self.inside.x + self.outside)
    }

    // With the value y at the angle x within.
    #[tactic(auto, unfolding(search_definition::specs::Search::if_inside))]
    pub fn halved(self, x: f64, y: f64) -> Gap
        ensures { gap result ≡ if_inside (is_finite y) x y (gap self) }
    {
        if is_finite(y) {
            Gap {
                inside: Point { x, y },
                ..self
            }
        } else {
            Gap { outside: x, ..self }
        }
    }
}

// One evaluation.
#[tactic(auto, unfolding(search_definition::specs::Search::halved))]
pub fn halved(branch: &Branch, g: Gap) -> Gap
    ensures { gap result ≡ Search.halved (branch_error branch.now) (gap g) }
{
    let x = g.mid();
    g.halved(x, branch.error(x))
}

pub fn bisect(branch: &Branch, g: Gap) -> Gap
    ensures { with_count (gap result) HALVINGS ≡ total (Search.bisect (branch_error branch.now) 16 (gap g)) }
{
    let mut h = g;
    for k in 0..HALVINGS {
        h = halved(branch, h);
    }
    h
}

// The square of j / 8.
#[tactic(auto, unfolding(search_definition::specs::Search::share))]
pub fn share(j: u64) -> f64
    ensures { result ≡ Search.share j }
{
    let q = std::num::nearest_u64_to_f64(j) / std::num::nearest_u64_to_f64(8);
    q * q
}

// The angle of sample number j from the branch's end at lo towards the grid's sample at x.
pub fn sub_angle(lo: f64, x: f64, j: u64) -> f64
    ensures { result ≡ lo ⊕ (x ⊖ lo) ⊗ Search.share j }
{
    lo + (x - lo) * share(j)
}

// A sample goes to the end of a row, if it is finite.
#[tactic(auto, using(crate::proofs::EdgeSteps::kept, crate::proofs::EdgeSteps::passed_over))]
pub fn keep_finite<const E: usize>(row: &mut ArrayVec<Point, E>, p: Point)
    requires { array_vec_len row.old < E }
    ensures len { array_vec_len row.new ≤ array_vec_len row.old + 1 }
    ensures kept { map point_of row.new.items ≡ map point_of row.old.items ++ keep (is_finite p.y) (point_of p) [] }
{
    if is_finite(p.y) {
        row.push(p);
    }
}

// From the branch's end e to the grid's sample p, with quadratic spacing so that the sqrt-like start is
// resolved. Of the samples between them those are kept that are finite.
pub fn edge_row(branch: &Branch, e: Point, p: Point) -> ArrayVec<Point, 9>
    ensures { with_count (map point_of result.items) SUBSAMPLES ≡ total (edge_points (branch_error branch.now) (point_of e) (point_of p)) }
{
    let mut row: ArrayVec<Point, 9> = ArrayVec::new();
    row.push(e);
    for j in 1..SUBSAMPLES + 1 {
        let x = sub_angle(e.x, p.x, j);
        let y = branch.error(x);
        keep_finite(&mut row, Point { x, y });
    }
    row.push(p);
    row
}

// What is found towards the end of a branch, whose samples go from the left to the right.
pub fn scan_edge(branch: &Branch, g: Gap, list: &mut LentPairs)
    requires { Roomy 800000 list.old }
    ensures { (o : Place → Origin) → ((p : Place) → component (o p) ≡ branch.now.i) → state list.new ≡ afterwards (state list.old) (edge_from (branch_error branch.now) o (gap g)) }
{
    let e = bisect(branch, g);
    list.evals += HALVINGS;
    let mut row = edge_row(branch, e.inside, g.inside);
    list.evals += SUBSAMPLES;
    if g.inside.x < e.inside.x {
        row.reverse();
    }
    scan_samples(branch, Row::Edge(row.as_slice()), 0, row.len(), list);
}

// What is found at the edge, if there is one, between the grid's samples k and k + 1.
pub fn edge_at(branch: &Branch, row: Row, k: usize, list: &mut LentPairs)
    requires { (k + 1 < 2 ^ 64) × Roomy 800000 list.old }
    ensures { state list.new ≡ afterwards (state list.old) (edge_at (branch_error branch.now) branch.now.i (points row.entry) k) }
{
    let p = row.at(k);
    let q = row.at(k + 1);
    if is_finite(p.y) == is_finite(q.y) {
        return;
    }
    scan_edge(branch, Gap::beside(p, q), list);
}
