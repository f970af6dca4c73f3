// The full list, however it is kept.
ghost use Rattle.std.specs.Prelude.{◌≡◌, ◌≤◌, ◌<◌, length, get_or};
ghost use Rattle.answers.specs.Written.{Wrote};
ghost use Rattle.limits.specs.Limits.{allowed};
ghost use Rattle.full_list.specs.Task.{for_search};
ghost use Rattle.full_list.specs.Listed.{listed, evaluated, blank, of_pairs, ListOf};

use crate::found::without_search;
use crate::pairs::Pairs;
use crate::task::Task;
use answers::{Answer, rest};
use array_vec::ArrayVec;
use family6::PairList;
use limits::Limits;
use refusals::Family;

// The answers of families 1 to 5, or the pairs that family 6 found.
#[derive(Clone, Copy)]
pub enum FullList<'a> {
    Found(&'a ArrayVec<Answer, 8>),
    Searched(Pairs<'a>),
}

// Family 6, by a search over n + 1 samples.
pub fn search<'a>(task: &'a Task, list: &'a mut PairList<17600>) -> Pairs<'a>
    ensures all { of_pairs result ≡ (for_search task.now).answers }
    ensures counted { result.evals ≡ (for_search task.now).evals }
{
    family6::two_parallel(task.r_06, task.p_0t, task.kin, task.n, list);
    let count = list.pairs;
    let evals = list.evals;
    Pairs {
        task,
        angles: &list.angles[..count],
        components: &list.components[..count],
        evals,
    }
}

// What `f` makes of the full list of a task. The list is lent to it: the pairs of family 6 stand in a
// list here, which is too long to hand back.
pub fn with_list<R, F: FnMut(&FullList) -> R>(task: &Task, f: &mut F) -> R
    requires { F.IsAlwaysCallable f.old }
    ensures { (list : _) × ListOf task.now list.now × F.step f.old list result f.new }
{
    match task.family {
        Family::TwoParallel => {
            let mut pairs = PairList::new();
            f(&FullList::Searched(search(task, &mut pairs)))
        }
        _ => f(&FullList::Found(&without_search(task))),
    }
}

impl FullList<'_> {
    // At most 44 * 400.
    pub fn len(&self) -> usize
        ensures len { result ≡ length (listed self.now) }
        ensures few { result ≤ 17600 }
    {
        match self {
            FullList::Found(found) => found.len(),
            FullList::Searched(pairs) => pairs.angles.len(),
        }
    }

    // How often the search's error was evaluated.
    pub fn evals(&self) -> u64
        ensures { result ≡ evaluated self.now }
    {
        match self {
            FullList::Found(_) => 0,
            FullList::Searched(pairs) => pairs.evals,
        }
    }

    // Answer k.
    pub fn answer(&self, k: usize) -> Answer
        requires { k < length (listed self.now) }
        ensures { result ≡ get_or (listed self.now) k blank }
    {
        match self {
            FullList::Found(found) => found[k],
            FullList::Searched(pairs) => pairs.answer(k),
        }
    }

    // Writes the answers that are inside the limits, one by one.
    fn write_inside(&self, limits: Limits, angles: &mut [f64], flags: &mut [u8]) -> usize
        ensures { Wrote (allowed limits.entry.stops.now (listed self.now)) angles.old flags.old angles.new flags.new result }
    {
        let mut count = 0;
        for k in 0..self.len() {
            let q = self.answer(k);
            let at = rest(6 * count, angles.len());
            let on = rest(count, flags.len());
            count += limits.put(q, &mut angles[at..], &mut flags[on..]);
        }
        count
    }

    // Writes the answers that are inside the limits, where they fit both lists, and counts them. Without
    // limits every answer stays, so that none that was found needs to be looked at again.
    pub fn write_allowed(&self, limits: Limits, angles: &mut [f64], flags: &mut [u8]) -> usize
        ensures { Wrote (allowed limits.entry.stops.now (listed self.now)) angles.old flags.old angles.new flags.new result }
    {
        match self {
            FullList::Found(found) if limits.stops.is_empty() => {
                answers::write(found.as_slice(), angles, flags)
            }
            _ => self.write_inside(limits, angles, flags),
        }
    }
}
