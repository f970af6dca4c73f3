// The sort of subproblem 5's candidates.
#![tactic(auto)]

ghost use Rattle.std.specs.Prelude.{◌≡◌};
ghost use Rattle.triple_sort.specs.Port.{sorted};
ghost use Rattle.triple_sort.specs.Sort.{ordered_above, exchanges, pass, sort};

use solutionset::Triple;
use std::cmp::OrderedFloat;

type Key = (
    OrderedFloat<f64>,
    OrderedFloat<f64>,
    OrderedFloat<f64>,
    OrderedFloat<f64>,
);

// A candidate of subproblem 5 with the number that decides whether it is kept.
#[derive(Clone, Copy, Default)]
pub struct Ordered {
    pub ordering: f64,
    pub solution: Triple,
}

impl Ordered {
    // What candidates compare by: the first unequal number, with a NaN above every number.
    fn key(self) -> Key
        ensures { result ≡ (record { 0 = self.ordering }, record { 0 = self.solution.first }, record { 0 = self.solution.second }, record { 0 = self.solution.third }) }
    {
        (
            OrderedFloat(self.ordering),
            OrderedFloat(self.solution.first),
            OrderedFloat(self.solution.second),
            OrderedFloat(self.solution.third),
        )
    }
}

// Whether a compares above b.
#[tactic(auto, using(crate::proofs::NumberOrder::key_above))]
fn ordered_above(a: Ordered, b: Ordered) -> bool
    ensures { result ≡ ordered_above a b }
{
    a.key() > b.key()
}

// A pass: two neighbours are exchanged exactly if the earlier is above the later. Whether any were.
fn pass(t: &mut [Ordered]) -> bool
    ensures list { t.new ≡ pass ordered_above t.old }
    ensures any { result ≡ exchanges ordered_above t.old }
{
    let mut any = false;
    for j in 1..t.len() {
        if ordered_above(t[j - 1], t[j]) {
            t.swap(j - 1, j);
            any = true;
        }
    }
    any
}

// In order, equals in the order in which they came. Passes up to and with the first that exchanges none, at most
// one fewer than there are members; the result is their number.
pub fn sort(t: &mut [Ordered]) -> usize
    ensures { sorted t.new result ≡ sort ordered_above t.old }
{
    for made in 1..t.len() {
        if !pass(t) {
            return made;
        }
    }
    t.len().saturating_sub(1)
}
