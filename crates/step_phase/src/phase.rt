// The walk over the four components, each over its own of the grid's samples; n is the last sample's number.
ghost use Rattle.std.specs.Prelude.{◌≡◌, ◌≤◌, List, ℕ, ◌-◌};
ghost use Rattle.search_pairs.specs.Row.{points};
ghost use Rattle.search_steps.specs.Steps.{taken_at, components_way};
ghost use Rattle.step_refine.specs.Point as DeclaredPoint;
ghost use Rattle.step_pairs.specs.Landed.{landed, came};
ghost use Rattle.step_scan.specs.State.{samples_of};
ghost use Rattle.step_component.specs.State.{component_of, Handy};
ghost use Rattle.step_phase.specs.State.{place_of, searched};

use array_vec::ArrayVec;
use search_pairs::{Column, Row, Sample};
use step_component::component::{Component, component_next, component_way};
use step_pairs::Found;
use step_refine::Point;

// In a component, by its number: those of the higher numbers follow.
#[derive(Clone, Copy)]
pub struct Place {
    pub i: u8,
    pub at: Component,
}

// Component i of the samples. A number beyond the fourth component's is read as the fourth's.
pub fn grid<'a>(samples: &'a [Sample], i: u8) -> Row<'a>
    ensures { points result ≡ taken_at (samples_of samples.now) i }
{
    Row::Grid(Column {
        samples,
        i: i.min(3),
    })
}

// The components from i on, up to the first evaluation.
pub fn components_way<const N: usize>(
    i: u8,
    samples: &[Sample],
    n: u32,
    found: &mut ArrayVec<Found, N>,
) -> Option<Place>
    ensures { (r : List DeclaredPoint.Point) → came (place_of n r) found.new.items result ≡ landed N found.old.items (components_way n (samples_of samples.now) (4 - i) i) }
{
    for k in i..4 {
        if let Some(at) = component_way(k, grid(samples, k), n, found) {
            return Some(Place { i: k, at });
        }
    }
    None
}

// What the search comes to in component i, with the value y of that component at the angle that it asks.
pub fn search_next<const E: usize, const N: usize>(
    p: Place,
    samples: &[Sample],
    n: u32,
    y: f64,
    row: &mut ArrayVec<Point, E>,
    found: &mut ArrayVec<Found, N>,
) -> Option<Place>
    requires { Handy (component_of n row.old.items p.at) × (9 ≤ E) }
    ensures { came (place_of n row.new.items) found.new.items result ≡ landed N found.old.items (searched n (samples_of samples.now) p.i (component_of n row.old.items p.at) y) }
{
    let i = p.i;
    match component_next(i, grid(samples, i), n, p.at, y, row, found) {
        Some(at) => Some(Place { i, at }),
        None => components_way(i.saturating_add(1), samples, n, found),
    }
}
