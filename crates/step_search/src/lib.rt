// The whole search in steps of one evaluation each: the grid's samples, then the four components. A phase is
// plain data by value; the samples, an edge's row and the pairs lie in lists that the caller lends: room for S
// samples, where n + 1 are taken, for E points of an edge, of which there are nine, and for N pairs.
#![tactic(auto)]

ghost use Rattle.std.specs.Prelude.{◌≡◌, List, ℕ, ◌+◌, ◌<◌, ◌≤◌, ◌^◌, length};
ghost use Rattle.std.specs.Option.{option_map};
ghost use Rattle.search_error.specs.Fixed.{error_at};
ghost use Rattle.search_steps.specs.Steps as Steps;
ghost use Rattle.search_steps.specs.Steps.{State, angle_in, more};
ghost use Rattle.search_steps.specs.Kept.{PhaseKept};
ghost use Rattle.search_steps.specs.Run as Run;
ghost use Rattle.step_refine.specs.Point as DeclaredPoint;
ghost use Rattle.step_scan.specs.State.{samples_of};
ghost use Rattle.step_phase.specs.State.{place_of};
ghost use Rattle.step_search.specs.Holds.{values, memory, phase_of, phase_at, is_over, Holds, StepsTo};

use array_vec::ArrayVec;
use search::angle;
use search_error::{Fixed, error_given_q1};
use search_pairs::{Sample, not_a_number};
use step_component::component::component_angle;
use step_pairs::Found;
use step_phase::phase::{Place, components_way, grid, search_next};
use step_refine::Point;

// Asks the grid's angle behind the samples taken; or is in a component; or is over.
#[derive(Clone, Copy)]
pub enum SearchPhase {
    Sampling,
    Searching(Place),
    Ended,
}

// Nothing is taken and nothing found yet.
pub fn start<const S: usize, const N: usize>(
    samples: &mut ArrayVec<Sample, S>,
    found: &mut ArrayVec<Found, N>,
) -> SearchPhase
    ensures { (n : ℕ) (r : List DeclaredPoint.Point) → Holds n N (Steps.start n) result (memory samples.new.items r found.new.items) }
{
    samples.clear();
    found.clear();
    SearchPhase::Sampling
}

pub fn over(phase: SearchPhase) -> bool
    ensures { result ≡ is_over phase }
{
    match phase {
        SearchPhase::Ended => true,
        _ => false,
    }
}

// The angle that a phase asks. (Over lists with room for fewer than 2^32 samples and points it may be any phase.)
pub fn asked_angle<const S: usize, const E: usize>(
    n: u32,
    phase: SearchPhase,
    samples: &ArrayVec<Sample, S>,
    row: &ArrayVec<Point, E>,
) -> f64
    requires { 2 ^ 32 ≤ S + E → PhaseKept n (phase_of n samples.now.items row.now.items phase) }
    ensures { result ≡ angle_in n (samples_of samples.now.items) (phase_of n samples.now.items row.now.items phase) }
{
    match phase {
        SearchPhase::Sampling => angle(n, samples.len() as u32),
        SearchPhase::Searching(p) => { component_angle(grid(samples.as_slice(), p.i), p.at, row) }
        SearchPhase::Ended => not_a_number(),
    }
}

// Where the walk over the components has come to, as the whole search's.
pub fn arrived(r: Option<Place>) -> SearchPhase
    ensures { (n : ℕ) (s : List _) (l : List DeclaredPoint.Point) → phase_of n s l result ≡ phase_at (option_map (place_of n l) r) }
{
    match r {
        Some(p) => SearchPhase::Searching(p),
        None => SearchPhase::Ended,
    }
}

// What the search comes to from the sample that it asks, where e are the error's values. The last sample's step
// goes on to the first evaluation in a component. That n is at most 400 is no type's, since it is about the room
// of `samples`, a list that the caller lends: a type for n alone would say it of no list.
pub fn sample_next<const S: usize, const N: usize>(
    n: u32,
    e: [f64; 4],
    samples: &mut ArrayVec<Sample, S>,
    found: &mut ArrayVec<Found, N>,
) -> SearchPhase
    requires { (length samples.old.items ≤ n) × (n ≤ 400) × (n < S) }
    ensures { (r : List DeclaredPoint.Point) → StepsTo n N e SearchPhase.Sampling (memory samples.old.items r found.old.items) result (memory samples.new.items r found.new.items) }
{
    let k = samples.len();
    let x = angle(n, k as u32);
    samples.push(Sample { x, y: e });
    if k < n as usize {
        return SearchPhase::Sampling;
    }
    arrived(components_way(0, samples.as_slice(), n, found))
}

// What the search comes to in a component, where e are the error's values at the angle that it asks.
pub fn component_next<const S: usize, const E: usize, const N: usize>(
    n: u32,
    p: Place,
    e: [f64; 4],
    samples: &ArrayVec<Sample, S>,
    row: &mut ArrayVec<Point, E>,
    found: &mut ArrayVec<Found, N>,
) -> SearchPhase
    requires { PhaseKept n (place_of n row.old.items p) × (9 ≤ E) }
    ensures { StepsTo n N e (SearchPhase.Searching p) (memory samples.now.items row.old.items found.old.items) result (memory samples.now.items row.new.items found.new.items) }
{
    let y = e[p.i as usize];
    arrived(search_next(p, samples.as_slice(), n, y, row, found))
}

// What a phase comes to, where e are the error's values at the angle that it asks. What is kept of its numbers is
// no ghost field, since it speaks of the lists too, which the caller lends.
pub fn next<const S: usize, const E: usize, const N: usize>(
    n: u32,
    phase: SearchPhase,
    e: [f64; 4],
    samples: &mut ArrayVec<Sample, S>,
    row: &mut ArrayVec<Point, E>,
    found: &mut ArrayVec<Found, N>,
) -> SearchPhase
    requires { (n ≤ 400) × (n < S) × (9 ≤ E) × PhaseKept n (phase_of n samples.old.items row.old.items phase) }
    ensures { StepsTo n N e phase (memory samples.old.items row.old.items found.old.items) result (memory samples.new.items row.new.items found.new.items) }
{
    match phase {
        SearchPhase::Sampling => sample_next(n, e, samples, found),
        SearchPhase::Searching(p) => component_next(n, p, e, samples, row, found),
        SearchPhase::Ended => phase,
    }
}

// One step: one evaluation of the error, at the angle that the phase asks.
pub fn step<const S: usize, const E: usize, const N: usize>(
    fixed: Fixed,
    n: u32,
    phase: SearchPhase,
    samples: &mut ArrayVec<Sample, S>,
    row: &mut ArrayVec<Point, E>,
    found: &mut ArrayVec<Found, N>,
) -> SearchPhase
    requires { (n ≤ 400) × (n < S) × (9 ≤ E) × PhaseKept n (phase_of n samples.old.items row.old.items phase) }
    ensures { (s : State) → Holds n N s phase (memory samples.old.items row.old.items found.old.items) → Holds n N (Run.step (error_at fixed) n s) result (memory samples.new.items row.new.items found.new.items) }
{
    let x = asked_angle(n, phase, samples, row);
    let e = error_given_q1(fixed, x);
    next(n, phase, e, samples, row, found)
}

#[cfg(test)]
mod tests {
    use super::*;

    // With room for 401 samples and nine points a phase may be any: no search over two samples takes three. The
    // angles are those of the machine's arithmetic.
    #[test]
    fn angles_of_any_phase(rt: HostRuntime) {
        let mut samples: ArrayVec<Sample, 401> = ArrayVec::new();
        let row: ArrayVec<Point, 9> = ArrayVec::new();
        let first = asked_angle(1, SearchPhase::Sampling, &samples, &row);
        samples.extend_from_slice(&[Sample::default(); 3]);
        let fourth = asked_angle(1, SearchPhase::Sampling, &samples, &row);
        assert_eq!(rt; first, -3.141592653589793);
        assert_eq!(rt; fourth, 15.707963267948966);
        assert!(rt; asked_angle(1, SearchPhase::Ended, &samples, &row).is_nan());
    }
}
