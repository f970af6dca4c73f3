// The pairs (q1, i) that the machine finds, in the list where they are kept.
#![tactic(auto)]

ghost use Rattle.std.specs.Prelude.{◌≡◌};
ghost use Rattle.search_definition.specs.Found.{Origin, component};
ghost use Rattle.step_refine.specs.State.{refining_of, way_of};
ghost use Rattle.step_pairs.specs.Landed.{put_one, entry_of, landed, came};

use array_vec::ArrayVec;
use std::ops::ControlFlow;
use step_refine::Refining;

// A pair (q1, i): the angle q1, and the component i.
#[derive(Clone, Copy, Default)]
pub struct Found {
    pub q1: f64,
    pub component: u8,
}

// A pair is kept where the list has room.
pub fn add_pair<const N: usize>(i: u8, x: f64, found: &mut ArrayVec<Found, N>)
    ensures { (o : Origin) → component o ≡ i → found.new.items ≡ put_one N found.old.items (entry_of x o) }
{
    if !found.is_full() {
        found.push(Found {
            q1: x,
            component: i,
        });
    }
}

// A refinement, from its way on: it asks, or its pair is kept.
pub fn refined<const N: usize>(
    i: u8,
    w: ControlFlow<f64, Refining>,
    found: &mut ArrayVec<Found, N>,
) -> Option<Refining>
    ensures { (o : Origin) → component o ≡ i → came refining_of found.new.items result ≡ landed N found.old.items (way_of o w) }
{
    match w {
        ControlFlow::Continue(r) => Some(r),
        ControlFlow::Break(x) => {
            add_pair(i, x, found);
            None
        }
    }
}
