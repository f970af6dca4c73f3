// The lists that a caller has for a search's pairs.
ghost use Rattle.std.specs.Prelude.{◌≡◌};

// Room for N pairs (q1, i) in the two lists that a search is lent (LentPairs), and its two counts.
#[derive(Drop)]
pub struct PairList<const N: usize> {
    pub angles: [f64; N],
    pub components: [u8; N],
    pub pairs: usize,
    pub evals: u64,
}

impl<const N: usize> PairList<N> {
    // No pair, and no evaluation yet.
    pub fn new() -> PairList<N>
        ensures { (result.pairs ≡ 0) × (result.evals ≡ 0) }
    {
        PairList {
            angles: [0.0; N],
            components: [0; N],
            pairs: 0,
            evals: 0,
        }
    }
}
