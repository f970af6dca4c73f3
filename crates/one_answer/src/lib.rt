// The one-answer call: a single answer within the limits, and no list.
#![tactic(auto)]

ghost use Rattle.std.specs.Prelude.{◌≡◌};
ghost use Rattle.full_list.specs.Task.{of_task};
ghost use Rattle.full_list.specs.Listed.{listed};
ghost use Rattle.one_answer.specs.OneAnswer.{one_of, solve_one};
ghost use Rattle.one_answer.specs.First.{first_allowed};

use answers::Answer;
use full_list::{FullList, Task};
use limits::Limits;
use refusals::Refusal;

// The first answer of a full list that is inside the limits. Those behind it are not made.
fn first_allowed(list: &FullList, limits: Limits) -> Option<Answer>
    ensures { result ≡ first_allowed limits.entry.stops.now (listed list.now) }
{
    for k in 0..list.len() {
        let q = list.answer(k);
        if limits.inside(q) {
            return Some(q);
        }
    }
    None
}

// The first answer of a task that is inside the limits.
fn find_one(task: &Task, limits: Limits) -> Option<Answer>
    ensures { result ≡ first_allowed limits.entry.stops.now (of_task task.now).answers }
{
    full_list::with_list(task, &mut |list| first_allowed(list, limits))
}

// Refusals 10, 4 to 8 and, where no answer is inside the limits, 12; else the first of the filtered list. `family` and `n` are numbers,
// as a caller in C hands them over: refusals 4 and 7 are about them.
pub fn solve_one(
    family: u64,
    n: u64,
    arm: &[f64],
    pose: &[f64],
    limits: &[f64],
) -> Result<Answer, Refusal>
    ensures { one_of result ≡ solve_one family n arm.now pose.now limits.now }
{
    let (task, limits) = solve::judged(family, n, arm, pose, limits)?;
    find_one(&task, limits).ok_or(Refusal::NoneAllowed)
}

// The answer that is given where a call gives one in any case: zeros where it refused.
pub fn answer_or_zeros(one: Result<Answer, Refusal>) -> Answer
    ensures { result ≡ (one_of one).answer }
{
    one.unwrap_or(Answer {
        q1: 0.0,
        q2: 0.0,
        q3: 0.0,
        q4: 0.0,
        q5: 0.0,
        q6: 0.0,
        is_ls: false,
    })
}
