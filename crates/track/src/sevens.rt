// Answers of seven angles: six, and the locked one at its joint.
ghost use Rattle.std.specs.Prelude.{◌≡◌, ◌∷◌, []};
ghost use Rattle.answers.specs.Rows.{WroteOf};
ghost use Rattle.track.specs.Sevens.{seven, sevens};

use answers::Answer;
use partial::Locked;

// The seven angles of an answer. Each row is written out: a loop over the joints would ask of each whether
// it stands before the locked one, and its array would first hold numbers that are none of the answer's.
fn seven(q: Answer, lock: Locked) -> [f64; 7]
    ensures { result ≡ seven lock.joint lock.angle q }
{
    let angle = lock.angle;
    match lock.joint {
        0 => [angle, q.q1, q.q2, q.q3, q.q4, q.q5, q.q6],
        1 => [q.q1, angle, q.q2, q.q3, q.q4, q.q5, q.q6],
        2 => [q.q1, q.q2, angle, q.q3, q.q4, q.q5, q.q6],
        3 => [q.q1, q.q2, q.q3, angle, q.q4, q.q5, q.q6],
        4 => [q.q1, q.q2, q.q3, q.q4, angle, q.q5, q.q6],
        5 => [q.q1, q.q2, q.q3, q.q4, q.q5, angle, q.q6],
        _ => [q.q1, q.q2, q.q3, q.q4, q.q5, q.q6, angle],
    }
}

// Writes an answer to the start of the rest of the lists, where it fits both. The result is the number
// of answers: one.
pub(crate) fn put_seven(q: Answer, lock: Locked, angles: &mut [f64], flags: &mut [u8]) -> usize
    ensures { WroteOf (sevens lock.joint lock.angle) (q ∷ []) angles.old flags.old angles.new flags.new result }
{
    answers::put_row(&seven(q, lock), q.is_ls, angles, flags)
}
