// The track call: an arm of seven axes with one joint locked is solved as the arm of six that is left,
// and the locked angle comes back in its place.
#![tactic(auto)]

mod reduced;
mod sevens;

ghost use Rattle.std.specs.Prelude.{◌≡◌, ◌≤◌, length, IfOk, OnOk};
ghost use Rattle.answers.specs.Rows.{room_of, written_of, flagged_of, WroteOf};
ghost use Rattle.refusals.specs.Refusal.{number_of};
ghost use Rattle.full_list.specs.Task.{of_task};
ghost use Rattle.full_list.specs.Listed.{listed, evaluated};
ghost use Rattle.solve.specs.InNumbers.{in_numbers, gives};
ghost use Rattle.track.specs.Sevens.{sevens};
ghost use Rattle.track.specs.Track.{lockable, track_judge, track_refused, track_full, track_answers, solve_track, solve_left};

use full_list::{FullList, Task};
use partial::Locked;
use reduced::{handed_on, reduced_arm};
use refusals::{Family, Refusal, all_finite, judge_numbers, judge_shape};
use sevens::put_seven;
use solve::{Solved, given, refuse};

fn lockable(joint: u64, angle: f64) -> bool
    ensures { result ≡ lockable joint angle }
{
    joint <= 6 && float::is_finite(angle)
}

// Refusals 4, 5, 6, 11, 7 and 8 of the numbers that are lent, the first that applies; else the arm and the
// pose, with their lengths in their types.
fn track_judge<'a, 'b>(
    family: u64,
    n: u64,
    arm: &'a [f64],
    joint: u64,
    angle: f64,
    pose: &'b [f64],
) -> Result<(&'a [f64; 45], &'b [f64; 12]), Refusal>
    ensures refused { number_of result ≡ track_judge family n arm.now joint angle pose.now }
    ensures arm { IfOk result (λ shaped. shaped.0.now ≡ arm.now) }
    ensures pose { IfOk result (λ shaped. shaped.1.now ≡ pose.now) }
{
    let shaped = judge_shape::<45>(family, arm, pose)?;
    if !lockable(joint, angle) {
        return Err(Refusal::Lock);
    }
    judge_numbers(family, n, arm, pose)?;
    Ok(shaped)
}

// What there is to solve: the arm that is left, and the pose that it is to make. Numbers of theirs that
// overflow are refused as the numbers that are lent. `family` is a number: a caller in C hands it over, and
// whether it is a family is what refusal 4 tells.
fn judged(
    family: u64,
    n: u64,
    arm: &[f64],
    joint: u64,
    angle: f64,
    pose: &[f64],
) -> Result<Task, Refusal>
    ensures refused { number_of result ≡ track_refused family n arm.now joint angle pose.now }
    ensures task { IfOk result (λ task. of_task task ≡ track_full family n arm.now joint angle pose.now) }
    ensures joint { OnOk result (joint ≤ 6) }
{
    let shaped = track_judge(family, n, arm, joint, angle, pose)?;
    let lock = Locked {
        joint: joint as usize,
        angle,
    };
    let left = reduced_arm(shaped.0, lock);
    let to = handed_on(shaped.0, lock, shaped.1);
    if !all_finite(&left) {
        return Err(Refusal::NotFinite);
    }
    if !all_finite(&to) {
        return Err(Refusal::NotFinite);
    }
    let known = Family::new(family)?;
    Ok(Task::new(known, n, &left, &to))
}

// Writes the answers of a full list as sevens, where they fit both lists, and counts them.
fn write_sevens(list: &FullList, lock: Locked, angles: &mut [f64], flags: &mut [u8]) -> usize
    ensures { WroteOf (sevens lock.joint lock.angle) (listed list.now) angles.old flags.old angles.new flags.new result }
{
    let mut count = 0;
    for k in 0..list.len() {
        let q = list.answer(k);
        let at = answers::rest(7 * count, angles.len());
        let on = answers::rest(count, flags.len());
        count += put_seven(q, lock, &mut angles[at..], &mut flags[on..]);
    }
    count
}

// The same, and what the call then gives.
#[tactic(auto, unfolding(answers::specs::Rows::room_of))]
fn write_left(list: &FullList, lock: Locked, angles: &mut [f64], flags: &mut [u8]) -> Solved
    ensures result { in_numbers result ≡ gives (length (listed list.now)) (evaluated list.now) (room_of (sevens lock.joint lock.angle) angles.old flags.old) }
    ensures angles { angles.new ≡ written_of (sevens lock.joint lock.angle) (listed list.now) angles.old flags.old }
    ensures flags { flags.new ≡ flagged_of (sevens lock.joint lock.angle) (listed list.now) angles.old flags.old }
{
    let rows = angles.len() / 7;
    let bytes = flags.len();
    let count = write_sevens(list, lock, angles, flags);
    given(count, list.evals(), rows, bytes)
}

// Solves the arm that is left, which is not refused, and writes its answers as sevens.
fn solve_left(task: &Task, lock: Locked, angles: &mut [f64], flags: &mut [u8]) -> Solved
    ensures result { in_numbers result ≡ solve_left task.now (room_of (sevens lock.joint lock.angle) angles.old flags.old) }
    ensures angles { angles.new ≡ written_of (sevens lock.joint lock.angle) (of_task task.now).answers angles.old flags.old }
    ensures flags { flags.new ≡ flagged_of (sevens lock.joint lock.angle) (of_task task.now).answers angles.old flags.old }
{
    full_list::with_list(task, &mut |list| write_left(list, lock, angles, flags))
}

// The call. `family`, `n` and `joint` are numbers, as a caller in C hands them over: refusals 4, 7 and 11 are
// about them.
pub fn solve_track(
    family: u64,
    n: u64,
    arm: &[f64],
    joint: u64,
    angle: f64,
    pose: &[f64],
    angles: &mut [f64],
    flags: &mut [u8],
) -> Solved
    ensures result { in_numbers result ≡ solve_track family n arm.now joint angle pose.now (room_of (sevens joint angle) angles.old flags.old) }
    ensures angles { angles.new ≡ written_of (sevens joint angle) (track_answers family n arm.now joint angle pose.now) angles.old flags.old }
    ensures flags { flags.new ≡ flagged_of (sevens joint angle) (track_answers family n arm.now joint angle pose.now) angles.old flags.old }
{
    let task = match judged(family, n, arm, joint, angle, pose) {
        Ok(task) => task,
        Err(refusal) => return refuse(refusal),
    };
    let lock = Locked {
        joint: joint as usize,
        angle,
    };
    solve_left(&task, lock, angles, flags)
}
