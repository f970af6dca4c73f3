// The solve call: it judges its input, solves for the family, writes the answers inside the limits, and
// gives the refusal and the counts. It equals its definition in specs/ on every input: any family, any
// n, slices of any length, any numbers.
#![tactic(auto)]

ghost use Rattle.std.specs.Prelude.{◌≡◌, min, IfOk, length};
ghost use Rattle.answers.specs.Written.{room, written, flagged};
ghost use Rattle.refusals.specs.Refusal.{number, number_of};
ghost use Rattle.limits.specs.Limits.{allowed};
ghost use Rattle.full_list.specs.Task.{of_task};
ghost use Rattle.full_list.specs.Listed.{listed, evaluated};
ghost use Rattle.solve.specs.Solve.{refused, full, answers, solve};
ghost use Rattle.solve.specs.InNumbers.{in_numbers, refuses, gives};

use full_list::{FullList, Task};
use limits::Limits;
use refusals::{Family, Refusal, judge_numbers, judge_shape, refusal_9};

// What a call gives: whether it is refused, the number of answers inside the limits, and the number of
// evaluations of the search error. Where there is no room for the answers, it is refused with its counts.
#[derive(Clone, Copy)]
pub struct Solved {
    pub outcome: Result<(), Refusal>,
    pub answers: usize,
    pub evals: u64,
}

// What there is to solve, and the limits, where none of refusals 10 and 4 to 8 applies; else the first.
// `family` is a number: a caller in C hands it over, and whether it is a family is what refusal 4 tells.
pub fn judged<'a>(
    family: u64,
    n: u64,
    arm: &[f64],
    pose: &[f64],
    limits: &'a [f64],
) -> Result<(Task, Limits<'a>), Refusal>
    ensures refused { number_of result ≡ refused family n arm.now pose.now limits.now }
    ensures task { IfOk result (λ given. of_task given.0 ≡ full family n arm.now pose.now limits.now) }
    ensures limits { IfOk result (λ given. given.1.stops.now ≡ limits.now) }
{
    let limits = Limits::new(limits)?;
    let shaped = judge_shape::<39>(family, arm, pose)?;
    judge_numbers(family, n, arm, pose)?;
    let known = Family::new(family)?;
    let task = Task::new(known, n, shaped.0, shaped.1);
    Ok((task, limits))
}

// What a call gives that was refused before it solved.
pub fn refuse(refusal: Refusal) -> Solved
    ensures { in_numbers result ≡ refuses (number refusal) }
{
    Solved {
        outcome: Err(refusal),
        answers: 0,
        evals: 0,
    }
}

// What a call gives that was not: 9 where the answers do not fit both lists.
pub fn given(answers: usize, evals: u64, sixes: usize, bytes: usize) -> Solved
    ensures { in_numbers result ≡ gives answers evals (min sixes bytes) }
{
    Solved {
        outcome: refusal_9(answers, sixes, bytes),
        answers,
        evals,
    }
}

// Writes the answers of a list that are inside the limits.
#[tactic(auto, unfolding(answers::specs::Rows::room_of))]
fn write(list: &FullList, limits: Limits, angles: &mut [f64], flags: &mut [u8]) -> Solved
    ensures result { in_numbers result ≡ gives (length (allowed limits.entry.stops.now (listed list.now))) (evaluated list.now) (room angles.old flags.old) }
    ensures angles { angles.new ≡ written (allowed limits.entry.stops.now (listed list.now)) angles.old flags.old }
    ensures flags { flags.new ≡ flagged (allowed limits.entry.stops.now (listed list.now)) angles.old flags.old }
{
    let sixes = angles.len() / 6;
    let bytes = flags.len();
    let count = list.write_allowed(limits, angles, flags);
    given(count, list.evals(), sixes, bytes)
}

// The call. `family` and `n` are numbers, as a caller in C hands them over: refusals 4 and 7 are about them.
pub fn solve(
    family: u64,
    n: u64,
    arm: &[f64],
    pose: &[f64],
    limits: &[f64],
    angles: &mut [f64],
    flags: &mut [u8],
) -> Solved
    ensures result { in_numbers result ≡ solve family n arm.now pose.now limits.now (room angles.old flags.old) }
    ensures angles { angles.new ≡ written (answers family n arm.now pose.now limits.now) angles.old flags.old }
    ensures flags { flags.new ≡ flagged (answers family n arm.now pose.now limits.now) angles.old flags.old }
{
    let (task, limits) = match judged(family, n, arm, pose, limits) {
        Ok(given) => given,
        Err(refusal) => return refuse(refusal),
    };
    full_list::with_list(&task, &mut |list| write(list, limits, angles, flags))
}
