// The grid's samples of a component: where they are finite, and the gaps between. n is the last sample's number.
ghost use Rattle.std.specs.Prelude.{◌≡◌, ℕ, suc, ◌-◌};
ghost use Rattle.std.specs.Bool.{beq};
ghost use Rattle.float.specs.Number.{is_finite};
ghost use Rattle.search_steps.specs.ComponentSteps as Steps;
ghost use Rattle.search_pairs.specs.Row.{points};
ghost use Rattle.step_edge.specs.State.{gap};
ghost use Rattle.step_component.specs.State.{Ran};

use float::is_finite;
use search_pairs::Row;
use step_edge::edge::Gap;

// Between the samples k and k + 1, of which one is finite.
pub fn gap_at(grid: Row, k: usize) -> Gap
    ensures { (i n : ℕ) → gap result ≡ Steps.gap_at i (points grid.entry) n k }
{
    Gap::beside(grid.at(k), grid.behind(k, 1))
}

// Whether the samples k and k + 1 are both finite, or neither.
pub fn alike(grid: Row, k: usize) -> bool
    ensures { result ≡ beq (is_finite (points grid.entry k).y) (is_finite (points grid.entry (suc k)).y) }
{
    let p = grid.at(k);
    let q = grid.behind(k, 1);
    is_finite(p.y) == is_finite(q.y)
}

// How many samples from one on are finite, before the first that is not.
pub fn run_length(grid: Row, n: u32, from: usize) -> usize
    ensures { Ran (points grid.entry) (suc n - from) from result }
{
    let end = n as usize + 1;
    for at in from..end {
        let p = grid.at(at);
        if !is_finite(p.y) {
            return at - from;
        }
    }
    end.saturating_sub(from)
}
