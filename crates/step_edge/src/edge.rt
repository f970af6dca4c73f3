// An edge of a branch between two grid samples, beside the one inside the branch, p. Its pairs are of
// component i.
ghost use Rattle.std.specs.Prelude.{◌≡◌, List, ℕ, ◌≤◌, ◌<◌, ◌-◌, ◌^◌, length, map, Float, Some};
ghost use Rattle.search_definition.specs.Found.{Place, Origin, component};
ghost use Rattle.search_definition.specs.Dip as DipDefinition;
ghost use Rattle.search_steps.specs.Kept.{EdgeKept};
ghost use Rattle.search_steps.specs.EdgeSteps as Steps;
ghost use Rattle.step_refine.specs.State.{point_of};
ghost use Rattle.step_pairs.specs.Landed.{landing, landed, came};
ghost use Rattle.step_pairs.specs.declared.Found as DeclaredFound;
ghost use Rattle.step_edge.specs.State.{gap, edge_of};

use crate::row::{close_row, whole};
use array_vec::ArrayVec;
pub use search_edge::edge::Gap;
use search_edge::edge::{keep_finite, sub_angle};
use search_pairs::Row;
use step_pairs::Found;
use step_refine::Point;
use step_scan::scan::{Scan, scan_angle, scan_next, scan_way};

// Halves the gap, so many times more; takes a sample of this number from the branch's end on; or scans the row.
#[derive(Clone, Copy)]
pub enum Edge {
    Halving(usize, Gap),
    Taking(Point, u64),
    InRow(Scan),
}

// The row is scanned.
pub fn row_way<const E: usize, const N: usize>(
    i: u8,
    row: &ArrayVec<Point, E>,
    found: &mut ArrayVec<Found, N>,
) -> Option<Edge>
    requires { 2 ^ 32 < E → length row.now.items ≤ 2 ^ 32 }
    ensures { (o : Place → Origin) → ((q : Place) → component (o q) ≡ i) → (p : DipDefinition.Point) → came (edge_of row.now.items) found.new.items result ≡ landed N found.old.items (Steps.row_way o p (map point_of row.now.items)) }
{
    scan_way(i, Row::Edge(row.as_slice()), whole(row), found).map(|z| Edge::InRow(z))
}

// The samples from number j to 7 are still to be taken behind the branch's end e.
pub fn take_way<const E: usize, const N: usize>(
    i: u8,
    p: Point,
    e: Point,
    j: u64,
    row: &mut ArrayVec<Point, E>,
    found: &mut ArrayVec<Found, N>,
) -> Option<Edge>
    requires { (length row.old.items ≤ 7) × (9 ≤ E) }
    ensures { (o : Place → Origin) → ((q : Place) → component (o q) ≡ i) → came (edge_of row.new.items) found.new.items result ≡ landed N found.old.items (Steps.take_way o (point_of p) (point_of e) (8 - j) j (map point_of row.old.items)) }
{
    if j < 8 {
        return Some(Edge::Taking(e, j));
    }
    close_row(e, p, row);
    row_way(i, row, found)
}

// k halvings are still to be made.
pub fn halve_way<const E: usize>(k: usize, g: Gap, row: &mut ArrayVec<Point, E>) -> Edge
    ensures { (o : Place → Origin) (p : DipDefinition.Point) (room : ℕ) (h : List DeclaredFound.Found) → landing h (Some (edge_of row.new.items result)) ≡ landed room h (Steps.halve_way o p k (gap g)) }
{
    if k == 0 {
        row.clear();
        return Edge::Taking(g.inside, 1);
    }
    Edge::Halving(k - 1, g)
}

// An edge asks at once: 16 halvings are to be made.
pub fn edge_way(g: Gap) -> Edge
    ensures { (o : Place → Origin) (r : List _) (room : ℕ) (h : List DeclaredFound.Found) → landing h (Some (edge_of r result)) ≡ landed room h (Steps.edge_way o (gap g)) }
{
    Edge::Halving(15, g)
}

// The sample number j behind the branch's end e has the value y: it is kept where that is finite.
pub fn take_next<const E: usize, const N: usize>(
    i: u8,
    p: Point,
    e: Point,
    j: u64,
    y: f64,
    row: &mut ArrayVec<Point, E>,
    found: &mut ArrayVec<Found, N>,
) -> Option<Edge>
    requires { (length row.old.items < j) × (j ≤ 7) × (9 ≤ E) }
    ensures { (o : Place → Origin) → ((q : Place) → component (o q) ≡ i) → came (edge_of row.new.items) found.new.items result ≡ landed N found.old.items (Steps.edge_next o (point_of p) (Steps.taking (point_of e) (7 - j) j (map point_of row.old.items)) y) }
{
    let x = sub_angle(e.x, p.x, j);
    keep_finite(row, Point { x, y });
    take_way(i, p, e, j + 1, row, found)
}

// The angle that an edge asks. (Beside a list with room for at most 2^32 points it may be in any state.)
pub fn edge_angle<const E: usize>(p: Point, z: Edge, row: &ArrayVec<Point, E>) -> f64
    requires { 2 ^ 32 < E → EdgeKept (edge_of row.now.items z) }
    ensures { (o : Place → Origin) → result ≡ Steps.edge_angle o (point_of p) (edge_of row.now.items z) }
{
    match z {
        Edge::Halving(_, g) => g.mid(),
        Edge::Taking(e, j) => sub_angle(e.x, p.x, j),
        Edge::InRow(s) => scan_angle(Row::Edge(row.as_slice()), whole(row), s),
    }
}

// What an edge comes to with the value y at the angle that it asks. What is kept of its numbers is no ghost
// field of Edge, since it speaks of the row too, which lies in a list that the caller lends.
pub fn edge_next<const E: usize, const N: usize>(
    i: u8,
    p: Point,
    z: Edge,
    y: f64,
    row: &mut ArrayVec<Point, E>,
    found: &mut ArrayVec<Found, N>,
) -> Option<Edge>
    requires { EdgeKept (edge_of row.old.items z) × (9 ≤ E) }
    ensures { (o : Place → Origin) → ((q : Place) → component (o q) ≡ i) → came (edge_of row.new.items) found.new.items result ≡ landed N found.old.items (Steps.edge_next o (point_of p) (edge_of row.old.items z) y) }
{
    match z {
        Edge::Halving(k, g) => Some(halve_way(k, g.halved(g.mid(), y), row)),
        Edge::Taking(e, j) => take_next(i, p, e, j, y, row, found),
        Edge::InRow(s) => {
            let run = whole(row);
            scan_next(i, Row::Edge(row.as_slice()), run, s, y, found).map(|z| Edge::InRow(z))
        }
    }
}

#[cfg(test)]
mod tests {
    use super::*;

    fn row_of(points: &[Point]) -> ArrayVec<Point, 9>
        requires { length points.now ≤ 9 }
    {
        let mut row = ArrayVec::new();
        row.extend_from_slice(points);
        row
    }

    // A row with room for nine points may be in any state: no search comes to 20 halvings nor to a ninth sample.
    // The angles are those of exact arithmetic.
    #[test]
    fn angles_of_any_state(rt: HostRuntime) {
        let row = row_of(&[]);
        let p = Point { x: 1.0, y: 0.0 };
        let e = Point { x: 0.0, y: 0.0 };
        let g = Gap {
            inside: p,
            outside: 3.0,
        };
        assert_eq!(rt; edge_angle(p, Edge::Halving(20, g), &row), 2.0);
        assert_eq!(rt; edge_angle(p, Edge::Taking(e, 9), &row), 1.265625);
    }

    // The whole of a row is scanned: between a negative value and a positive one it pauses to refine.
    #[test]
    fn row_of_two_points(rt: HostRuntime) {
        let row = row_of(&[Point { x: 0.0, y: -1.0 }, Point { x: 1.0, y: 1.0 }]);
        let run = whole(&row);
        assert_eq!(rt; run.from, 0);
        assert_eq!(rt; run.count, 2);
        let mut found: ArrayVec<Found, 1> = ArrayVec::new();
        let crossing = match row_way(0, &row, &mut found) {
            Some(Edge::InRow(Scan::Crossing(l, _))) => l == 0,
            _ => false,
        };
        assert!(rt; crossing);
        assert_eq!(rt; found.len(), 0);
    }
}
