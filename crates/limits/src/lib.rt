// Joint limits: twelve numbers, low then high, joint by joint, or none.
#![tactic(auto)]

ghost use Rattle.std.specs.Prelude.{◌≡◌, ◌*◌, ◌≤◌, length};
ghost use Rattle.answers.specs.Held.{held};
ghost use Rattle.answers.specs.Written.{Wrote};
ghost use Rattle.refusals.specs.Refusal.{number_of};
ghost use Rattle.limits.specs.Limits.{between, TwelveOrNone, stops_fit, fit, refusal_10, allowed};

use answers::Answer;
use refusals::Refusal;

fn between(low: f64, q: f64, high: f64) -> bool
    ensures { result ≡ between low q high }
{
    low <= q && q <= high
}

// Whether both are finite and the low is not above the high.
#[tactic(auto, unfolding(crate::specs::Limits::stops_fit))]
fn stops_fit(low: f64, high: f64) -> bool
    ensures { result ≡ stops_fit low high }
{
    float::is_finite(low) && float::is_finite(high) && !(high < low)
}

// Whether each joint's two fit.
fn fit(limits: &[f64]) -> bool
    requires { length limits.now ≡ 12 }
    ensures { result ≡ fit limits.now }
{
    (0..6usize).all(|j| stops_fit(limits[2 * j], limits[2 * j + 1]))
}

// Refusal 10, or none.
#[tactic(auto, unfolding(crate::specs::Limits::refusal_10))]
pub fn refusal_10(limits: &[f64]) -> Result<(), Refusal>
    ensures { number_of result ≡ refusal_10 limits.now }
{
    if limits.is_empty() || limits.len() == 12 && fit(limits) {
        Ok(())
    } else {
        Err(Refusal::Limits)
    }
}

// Limits that are not refused.
#[derive(Clone, Copy)]
pub struct Limits<'a> {
    pub stops: &'a [f64],
    pub ghost twelve_or_none: { TwelveOrNone stops.now },
}

impl<'a> Limits<'a> {
    ghost use Rattle.std.specs.Prelude.{IfOk, ◌∷◌, []};
    ghost use Rattle.limits.specs.Limits.{inside};

    // The limits that are lent, or refusal 10.
    #[tactic(auto, using(crate::proofs::Laws::twelve_or_none, refusals::proofs::Outcomes::passed_on))]
    pub fn new(stops: &'a [f64]) -> Result<Limits<'a>, Refusal>
        ensures refused { number_of result ≡ refusal_10 stops.now }
        ensures limits { IfOk result (λ limits. limits.stops.now ≡ stops.now) }
    {
        refusal_10(stops)?;
        Ok(Limits { stops })
    }

    // No limits.
    pub fn none() -> Limits<'a>
        ensures { result.stops.now ≡ [] }
    {
        Limits { stops: &[] }
    }

    // Whether an answer is inside.
    #[tactic(auto, unfolding(crate::specs::Limits::inside))]
    pub fn inside(self, q: Answer) -> bool
        ensures { result ≡ inside self.entry.stops.now q }
    {
        let stops = self.stops;
        stops.is_empty()
            || between(stops[0], q.q1, stops[1])
                && between(stops[2], q.q2, stops[3])
                && between(stops[4], q.q3, stops[5])
                && between(stops[6], q.q4, stops[7])
                && between(stops[8], q.q5, stops[9])
                && between(stops[10], q.q6, stops[11])
    }

    // Writes an answer to the start of the rest of the lists, where it is inside and fits both. The
    // result is the number of answers that stay: one or none.
    pub fn put(self, q: Answer, angles: &mut [f64], flags: &mut [u8]) -> usize
        ensures { Wrote (allowed self.entry.stops.now (q ∷ [])) angles.old flags.old angles.new flags.new result }
    {
        if self.inside(q) {
            answers::put(q, angles, flags)
        } else {
            0
        }
    }
}

// Writes those of the first n answers of two lists that are inside the limits, and counts them.
pub fn write_allowed(
    n: usize,
    numbers: &[f64],
    bytes: &[u8],
    limits: &[f64],
    angles: &mut [f64],
    flags: &mut [u8],
) -> usize
    requires { (n ≤ 17600) × (6 * n ≤ length numbers.now) × (n ≤ length bytes.now) × TwelveOrNone limits.now }
    ensures { Wrote (allowed limits.now (held n numbers.now bytes.now)) angles.old flags.old angles.new flags.new result }
{
    let stops = Limits { stops: limits };
    let mut count = 0;
    for k in 0..n {
        let q = answers::read(numbers, bytes, k);
        let at = answers::rest(6 * count, angles.len());
        let on = answers::rest(count, flags.len());
        count += stops.put(q, &mut angles[at..], &mut flags[on..]);
    }
    count
}
