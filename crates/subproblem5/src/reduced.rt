// The choice among more than four candidates of subproblem 5.
ghost use Rattle.std.specs.Prelude.{◌≡◌, map, ◌≤◌, length, take};
ghost use Rattle.float.specs.Num.{infinity};
ghost use Rattle.solutionset.specs.SolutionSet4.{from_vec};
ghost use Rattle.subproblem5.specs.Port.{by_first, with_gaps};
ghost use Rattle.subproblem5.specs.Reduced.{solution_of, reduced_solutionset};

use array_vec::ArrayVec;
use solutionset::{SolutionSet4, Triple};
use triple_sort::{Ordered, sort};

// The solutions with their first numbers as ordering values: as such they sort by the triple, of which that is what
// decides first. A loop of pushes, and not `map` and `collect`: that takes an allocator, and may fail.
fn by_first(solutions: &ArrayVec<Triple, 16>) -> ArrayVec<Ordered, 16>
    ensures { result.items ≡ map by_first solutions.now.items }
{
    let mut ordered = ArrayVec::new();
    for solution in solutions.iter() {
        ordered.push(Ordered {
            ordering: solution.first,
            solution: *solution,
        });
    }
    ordered
}

// The ordering values: the nearer to the one before, the higher.
fn with_ordering(t: &mut [Ordered])
    ensures { t.new ≡ with_gaps infinity t.old }
{
    let mut last = float::infinity();
    for o in t.iter_mut() {
        let delta = o.solution.first - last;
        o.ordering = 1.0 / (delta * delta);
        last = o.solution.first;
    }
}

fn first_four(t: &[Ordered]) -> SolutionSet4<Triple>
    requires { 4 ≤ length t.now }
    ensures { result ≡ from_vec (take 4 (map solution_of t.now)) }
{
    match t {
        [a, b, c, d, ..] => SolutionSet4::Four(a.solution, b.solution, c.solution, d.solution),
        _ => unreachable!(),
    }
}

// Up to four solutions as they came; of more, the four that are furthest from the one before them.
pub fn reduced_solutionset(solutions: &ArrayVec<Triple, 16>) -> SolutionSet4<Triple>
    ensures { result ≡ reduced_solutionset solutions.now.items }
{
    if solutions.len() <= 4 {
        return SolutionSet4::from_vec(solutions);
    }
    let mut slots = [Ordered::default(); 16];
    let ordered = &mut slots[..solutions.len()];
    ordered.copy_from_slice(&by_first(solutions));
    sort(ordered);
    with_ordering(ordered);
    sort(ordered);
    first_four(ordered)
}
