// The pairs (q1, i) that a search lists, with their count and the count of evaluations.
ghost use Rattle.std.specs.Prelude.{◌≡◌, ◌≤◌, set};

use search_error::Branch;
use search_refine::Point;
use search_refine::refine::refine_bracket;

// The pairs that a search lists, in two lists that a caller lends, of any lengths: the angles q1 and, in their
// order, the components i, each as far as there is room. They are two lists because of the memory: an array of
// pairs takes 16 bytes a pair and not 9, which is 123 KB more for a solve, and a controller's thread has 256 KB.
// `pairs` counts all pairs that are found, and `evals` the evaluations of the error so far. What bounds
// them is no fact of the type, since each part of a search adds its own to the bound that it asks (Roomy).
#[derive(Drop)]
pub struct LentPairs<'a> {
    pub angles: &'a mut [f64],
    pub components: &'a mut [u8],
    pub pairs: usize,
    pub evals: u64,
}

// A value is written where there is room.
fn put<T: Copy>(list: &mut [T], at: usize, value: T)
    ensures { list.new ≡ set list.old at value }
{
    if at < list.len() {
        list[at] = value;
    }
}

impl<'a> LentPairs<'a> {
    ghost use Rattle.search_definition.specs.Found.{Origin, component};
    ghost use Rattle.search_definition.specs.Dip.{entry, refined};
    ghost use Rattle.search_error.specs.Fixed.{branch_error};
    ghost use Rattle.search_refine.specs.Point.{point_of};
    ghost use Rattle.search_pairs.specs.State.{Roomy, lists_of, held, emptied, state, afterwards};

    // Nothing is listed yet in the lists that are lent.
    pub fn new(angles: &'a mut [f64], components: &'a mut [u8]) -> LentPairs<'a>
        ensures { state result ≡ held angles.old components.old 0 0 (lists_of angles.entry components.entry) }
    {
        LentPairs {
            angles,
            components,
            pairs: 0,
            evals: 0,
        }
    }

    // As if nothing were listed yet.
    pub fn clear(&mut self)
        ensures { state self.new ≡ emptied (state self.old) }
    {
        self.pairs = 0;
        self.evals = 0;
    }

    // A pair goes to the end of the lists.
    pub fn put_pair(&mut self, i: u8, x: f64)
        requires { self.old.pairs ≤ 2000000 }
        ensures { (o : Origin) → component o ≡ i → state self.new ≡ afterwards (state self.old) (entry x o) }
    {
        put(self.angles, self.pairs, x);
        put(self.components, self.pairs, i);
        self.pairs += 1;
    }

    // The pair of one refinement.
    pub fn put_refined(&mut self, branch: &Branch, a: Point, b: Point)
        requires { Roomy 2000000 self.old }
        ensures { (o : Origin) → component o ≡ branch.now.i → state self.new ≡ afterwards (state self.old) (refined (branch_error branch.now) o (point_of a) (point_of b)) }
    {
        let root = refine_bracket(branch, a, b);
        self.evals += root.evals;
        self.put_pair(branch.i, root.x);
    }
}
