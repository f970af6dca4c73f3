// A component i over its samples at the grid's points 0 to n; `row` is an edge's row.
ghost use Rattle.std.specs.Prelude.{◌≡◌, List, ℕ, suc, ◌-◌, ◌^◌, ◌≤◌, ◌<◌};
ghost use Rattle.search_steps.specs.ComponentSteps as Steps;
ghost use Rattle.step_refine.specs.Point as DeclaredPoint;
ghost use Rattle.step_pairs.specs.Landed.{landed, came};
ghost use Rattle.step_pairs.specs.declared.Found as DeclaredFound;
ghost use Rattle.search_pairs.specs.Row.{points};
ghost use Rattle.step_component.specs.State.{component_of, Handy};

use crate::grid::{alike, gap_at, run_length};
use array_vec::ArrayVec;
use search_pairs::Row;
use step_edge::edge::{Edge, edge_angle, edge_next, edge_way};
use step_pairs::Found;
use step_refine::Point;
use step_scan::run::Run;
use step_scan::scan::{Scan, scan_angle, scan_next, scan_way};

// In a run of finite samples; or at the edge between a sample and the next, of which one is finite.
#[derive(Clone, Copy)]
pub enum Component {
    InRun(Run, Scan),
    InEdge(u32, Edge),
}

// The pairs of neighbours from one on, up to the first edge.
pub fn edges_way(grid: Row, n: u32, from: usize) -> Option<Component>
    ensures { (i : ℕ) (r : List DeclaredPoint.Point) (room : ℕ) (h : List DeclaredFound.Found) → came (component_of n r) h result ≡ landed room h (Steps.edges_way i (points grid.entry) n (n - from) from) }
{
    for k in from..n as usize {
        if !alike(grid, k) {
            return Some(Component::InEdge(k as u32, edge_way(gap_at(grid, k))));
        }
    }
    None
}

// The runs of finite samples from one sample on, then the edges.
pub fn runs_way<const N: usize>(
    i: u8,
    grid: Row,
    n: u32,
    from: usize,
    found: &mut ArrayVec<Found, N>,
) -> Option<Component>
    ensures { (r : List DeclaredPoint.Point) → came (component_of n r) found.new.items result ≡ landed N found.old.items (Steps.runs_way i (points grid.entry) n (suc n - from) from 0) }
{
    // Not a `for`: a step is as long as the run that was scanned, so it counts nothing by ones.
    let mut s = from;
    while s <= n as usize {
        let m = run_length(grid, n, s);
        let run = Run {
            from: s as u32,
            count: m as u64,
        };
        if let Some(z) = scan_way(i, grid, run, found) {
            return Some(Component::InRun(run, z));
        }
        s = s + m + 1;
    }
    edges_way(grid, n, 0)
}

// All of a component, up to the first evaluation.
pub fn component_way<const N: usize>(
    i: u8,
    grid: Row,
    n: u32,
    found: &mut ArrayVec<Found, N>,
) -> Option<Component>
    ensures { (r : List DeclaredPoint.Point) → came (component_of n r) found.new.items result ≡ landed N found.old.items (Steps.component_way i (points grid.entry) n) }
{
    runs_way(i, grid, n, 0, found)
}

// The angle that a component asks. (Beside a list with room for at most 2^32 points it may be in any state.)
pub fn component_angle<const E: usize>(grid: Row, z: Component, row: &ArrayVec<Point, E>) -> f64
    requires { 2 ^ 32 < E → (n : ℕ) → Handy (component_of n row.now.items z) }
    ensures { (i n : ℕ) → result ≡ Steps.component_angle i (points grid.entry) n (component_of n row.now.items z) }
{
    match z {
        Component::InRun(run, w) => scan_angle(grid, run, w),
        Component::InEdge(k, w) => edge_angle(gap_at(grid, k as usize).inside, w, row),
    }
}

// What a component comes to with the value y at the angle that it asks. What is kept of its numbers is no ghost
// field of Component, since it speaks of the edge's row too, which lies in a list that the caller lends.
pub fn component_next<const E: usize, const N: usize>(
    i: u8,
    grid: Row,
    n: u32,
    z: Component,
    y: f64,
    row: &mut ArrayVec<Point, E>,
    found: &mut ArrayVec<Found, N>,
) -> Option<Component>
    requires { Handy (component_of n row.old.items z) × (9 ≤ E) }
    ensures { came (component_of n row.new.items) found.new.items result ≡ landed N found.old.items (Steps.component_next i (points grid.entry) n (component_of n row.old.items z) y) }
{
    match z {
        Component::InRun(run, w) => {
            match scan_next(i, grid, run, w, y, found) {
                Some(w) => Some(Component::InRun(run, w)),
                None => {
                    let ended = run.from as usize + run.count as usize;
                    runs_way(i, grid, n, ended + 1, found)
                }
            }
        }
        Component::InEdge(k, w) => {
            let p = gap_at(grid, k as usize).inside;
            match edge_next(i, p, w, y, row, found) {
                Some(w) => Some(Component::InEdge(k, w)),
                None => edges_way(grid, n, k as usize + 1),
            }
        }
    }
}

#[cfg(test)]
mod tests {
    use super::*;
    use step_edge::edge::Gap;

    // Beside a row with room for nine points an edge may be in any state: no search comes to 20 halvings. The
    // angle is that of exact arithmetic.
    #[test]
    fn angle_of_any_state(rt: HostRuntime) {
        let row: ArrayVec<Point, 9> = ArrayVec::new();
        let g = Gap {
            inside: Point { x: 1.0, y: 0.0 },
            outside: 3.0,
        };
        let z = Component::InEdge(0, Edge::Halving(20, g));
        assert_eq!(rt; component_angle(Row::Edge(&[]), z, &row), 2.0);
    }
}
