// The list of the search, as one call gives it.
ghost use Rattle.std.specs.Prelude.{◌≤◌};

use crate::record;
use cases::Tally;
use search::LentPairs;

// How many pairs a search lists, and its evaluations.
#[derive(Clone, Copy)]
pub(crate) struct Counts {
    pub(crate) pairs: u64,
    pub(crate) evals: u64,
}

fn check_pairs(
    book: &[u8; 1830400],
    m: usize,
    angles: &[f64; 17600],
    components: &[u8; 17600],
    tally: &mut Tally,
)
    requires { m ≤ 17600 }
{
    for j in 0..m {
        let ok = record::is_pair(book, j, angles[j], components[j]);
        cases::count(tally, record::CHECKS, record::PAIR, ok);
    }
}

pub(crate) fn check(
    head: &[u8; 432],
    book: &[u8; 1830400],
    n: usize,
    m: usize,
    tally: &mut Tally,
) -> Counts
    requires { m ≤ 17600 }
{
    let mut angles = [0.0; 17600];
    let mut components = [0; 17600];
    let mut list = LentPairs::new(&mut angles, &mut components);
    let kin = record::arm(head);
    let r = record::rotation(head);
    let p = record::place(head);
    search::search_two_parallel(kin, r, p, n, &mut list);
    let counts = Counts {
        pairs: list.pairs as u64,
        evals: list.evals,
    };
    let ok = record::counts(head, counts.pairs, counts.evals);
    cases::count(tally, record::CHECKS, record::SEARCHES, ok);
    check_pairs(book, m, &angles, &components, tally);
    counts
}
