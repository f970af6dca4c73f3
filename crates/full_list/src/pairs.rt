// Family 6: the pairs (q1, i) that a search found, of which each has its answer.
ghost use Rattle.std.specs.Prelude.{◌≡◌, ◌≤◌, length};
ghost use Rattle.family6.specs.Kept.{Usable};

use crate::task::{TOLERANCE, Task};
use answers::Answer;

// The angles and the components of the pairs of a task, and how often the search's error was evaluated.
#[derive(Clone, Copy)]
pub struct Pairs<'a> {
    pub task: &'a Task,
    pub angles: &'a [f64],
    pub components: &'a [u8],
    pub evals: u64,
    pub ghost as_many: { length components.now ≡ length angles.now },
    // 44 * 400, the most that there are
    pub ghost few: { length angles.now ≤ 17600 },
    pub ghost usable: { Usable task.now.r_06 task.now.p_0t task.now.kin (length angles.now) angles.now components.now },
}

impl Pairs<'_> {
    ghost use Rattle.std.specs.Prelude.{◌<◌, get_or};
    ghost use Rattle.full_list.specs.Listed.{blank, of_pairs};

    // Answer k, made from its pair.
    pub fn answer(&self, k: usize) -> Answer
        requires { k < length self.now.angles.now }
        ensures { result ≡ get_or (of_pairs self.now) k blank }
    {
        let task = self.task;
        let i = self.components[k];
        family6::answer_of(
            task.r_06,
            task.p_0t,
            task.kin,
            TOLERANCE,
            self.angles[k],
            i as usize,
        )
    }
}
