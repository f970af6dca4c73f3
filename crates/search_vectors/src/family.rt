// The answers of family 6.
ghost use Rattle.std.specs.Prelude.{◌<◌, ◌≤◌};

use crate::record;
use cases::Tally;
use full_list::{FullList, PairList, Task};
use limits::Limits;
use refusals::Family;

fn is_answer(book: &[u8; 1830400], j: usize, angles: &[f64; 105600], flag: u8) -> bool
    requires { j < 17600 }
{
    let at = 6 * j;
    let is_1 = record::gives(book, j, record::ANSWER, angles[at]);
    let is_2 = record::gives(book, j, record::ANSWER + 1, angles[at + 1]);
    let is_3 = record::gives(book, j, record::ANSWER + 2, angles[at + 2]);
    let is_4 = record::gives(book, j, record::ANSWER + 3, angles[at + 3]);
    let is_5 = record::gives(book, j, record::ANSWER + 4, angles[at + 4]);
    let is_6 = record::gives(book, j, record::ANSWER + 5, angles[at + 5]);
    let is_7 = record::is_flag(book, j, flag);
    is_1 && is_2 && is_3 && is_4 && is_5 && is_6 && is_7
}

fn check_answers(
    book: &[u8; 1830400],
    m: usize,
    angles: &[f64; 105600],
    flags: &[u8; 17600],
    tally: &mut Tally,
)
    requires { m ≤ 17600 }
{
    for j in 0..m {
        let ok = is_answer(book, j, angles, flags[j]);
        cases::count(tally, record::CHECKS, record::ANSWERS, ok);
    }
}

#[derive(Clone, Copy)]
struct Counts {
    answers: usize,
    evals: u64,
}

fn write_answers(
    head: &[u8; 432],
    n: usize,
    angles: &mut [f64; 105600],
    flags: &mut [u8; 17600],
) -> Counts {
    let arm = record::arm_numbers(head);
    let pose = record::pose_numbers(head);
    let task = Task::new(Family::TwoParallel, n as u64, &arm, &pose);
    let mut list = PairList::new();
    let found = FullList::Searched(full_list::search(&task, &mut list));
    Counts {
        answers: found.write_allowed(Limits::none(), angles, flags),
        evals: found.evals(),
    }
}

pub(crate) fn check(head: &[u8; 432], book: &[u8; 1830400], n: usize, m: usize, tally: &mut Tally)
    requires { m ≤ 17600 }
{
    let mut angles = [0.0; 105600];
    let mut flags = [0u8; 17600];
    let c = write_answers(head, n, &mut angles, &mut flags);
    let ok = record::counts(head, c.answers as u64, c.evals);
    cases::count(tally, record::CHECKS, record::SOLVES, ok);
    check_answers(book, m, &angles, &flags, tally);
}
