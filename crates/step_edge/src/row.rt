// The row of an edge: at first the samples kept behind the branch's end, and when it is closed that end, those
// samples and the grid's sample, in the order of the angles.
ghost use Rattle.std.specs.Prelude.{◌≡◌, [], ◌∷◌, ◌++◌, ◌<◌, ◌≤◌, ◌+◌, ◌^◌, length, map};
ghost use Rattle.std.specs.Float.Ieee.{lt};
ghost use Rattle.search_definition.specs.Search as Search;
ghost use Rattle.step_refine.specs.State.{point_of};

use array_vec::ArrayVec;
use step_refine::Point;
use step_scan::run::Run;

// All of a row. (A run counts up to 2^32: a list with room for no more asks nothing.)
pub fn whole<const E: usize>(row: &ArrayVec<Point, E>) -> Run
    requires { 2 ^ 32 < E → length row.now.items ≤ 2 ^ 32 }
    ensures from { result.from ≡ 0 }
    ensures count { result.count ≡ length row.now.items }
{
    Run {
        from: 0,
        count: row.len() as u64,
    }
}

// The branch's end e before the samples kept, and the grid's sample p behind them, in the order of the
// angles.
pub fn close_row<const E: usize>(e: Point, p: Point, row: &mut ArrayVec<Point, E>)
    requires { length row.old.items + 1 < E }
    ensures len { length row.new.items ≡ length row.old.items + 2 }
    ensures closed { map point_of row.new.items ≡ Search.reversed_if (lt p.x e.x) (point_of e ∷ (map point_of row.old.items ++ (point_of p ∷ []))) }
{
    let mut all = ArrayVec::new();
    all.push(e);
    all.extend_from_slice(row.as_slice());
    all.push(p);
    if p.x < e.x {
        all.reverse();
    }
    *row = all;
}
