// What the solve call refuses: 4 to 8 before it solves, 9 once the number of answers is known.
// A family is a number in what judges: a caller in C hands one over, and whether it is a family is what
// refusal 4 tells.
#![tactic(auto)]

mod family;
mod refusal;

ghost use Rattle.std.specs.Prelude.{◌≡◌, min, IfOk};
ghost use Rattle.refusals.specs.Refusal.{number_of};
ghost use Rattle.refusals.specs.Judge.{within, samples_fit, first_not_finite, all_finite, judge_shape, judge_numbers, judge, refusal_9};

pub use family::Family;
pub use refusal::{Refusal, number_of};

pub fn within(low: u64, x: u64, high: u64) -> bool
    ensures { result ≡ within low x high }
{
    low <= x && x <= high
}

// Whether n is one of the family's. A number that is no family is judged as well: refusal 4 told of it before.
pub fn samples_fit(family: u64, n: u64) -> bool
    ensures { result ≡ samples_fit family n }
{
    if family == 6 {
        within(1, n, 400)
    } else {
        n == 0
    }
}

// The place of the first number that is infinite or NaN, or the length where there is none.
pub fn first_not_finite(numbers: &[f64]) -> usize
    ensures { result ≡ first_not_finite numbers.now }
{
    for (i, x) in numbers.iter().enumerate() {
        if !float::is_finite(*x) {
            return i;
        }
    }
    numbers.len()
}

pub fn all_finite(numbers: &[f64]) -> bool
    ensures { result ≡ all_finite numbers.now }
{
    first_not_finite(numbers) >= numbers.len()
}

// Refusals 4 to 6, the first that applies, where an arm has N numbers; else the arm and the pose, with
// their lengths in their types. `family` is the number that refusal 4 judges.
pub fn judge_shape<'a, 'b, const N: usize>(
    family: u64,
    arm: &'a [f64],
    pose: &'b [f64],
) -> Result<(&'a [f64; N], &'b [f64; 12]), Refusal>
    ensures refused { number_of result ≡ judge_shape family arm.now N pose.now }
    ensures arm { IfOk result (λ shaped. shaped.0.now ≡ arm.now) }
    ensures pose { IfOk result (λ shaped. shaped.1.now ≡ pose.now) }
{
    if !within(1, family, 6) {
        return Err(Refusal::Family);
    }
    let arm = arm.as_array::<N>().ok_or(Refusal::ArmLength)?;
    let pose = pose.as_array::<12>().ok_or(Refusal::PoseLength)?;
    Ok((arm, pose))
}

// Refusals 7 and 8, the first that applies. `family` is a number as in `judge`, of which this is the rest.
pub fn judge_numbers(family: u64, n: u64, arm: &[f64], pose: &[f64]) -> Result<(), Refusal>
    ensures { number_of result ≡ judge_numbers family n arm.now pose.now }
{
    if !samples_fit(family, n) {
        return Err(Refusal::Samples);
    }
    if all_finite(arm) && all_finite(pose) {
        Ok(())
    } else {
        Err(Refusal::NotFinite)
    }
}

// Refusals 4 to 8, the first that applies, of the numbers that a caller lends.
pub fn judge(family: u64, n: u64, arm: &[f64], pose: &[f64]) -> Result<(), Refusal>
    ensures { number_of result ≡ judge family n arm.now pose.now }
{
    judge_shape::<39>(family, arm, pose)?;
    judge_numbers(family, n, arm, pose)
}

// Refusal 9: whether the answers fit the whole sixes of one list and the bytes of the other.
pub fn refusal_9(answers: usize, sixes: usize, bytes: usize) -> Result<(), Refusal>
    ensures { number_of result ≡ refusal_9 answers (min sixes bytes) }
{
    if answers <= sixes.min(bytes) {
        Ok(())
    } else {
        Err(Refusal::NoRoom)
    }
}
