// Answers, the one writer of answers to the two lists that a caller lends, and the reader. Angles and flags are
// two lists, and no list of structs, since a caller in C lends them so.
#![tactic(auto)]

ghost use Rattle.std.specs.Prelude.{◌≡◌, ◌∷◌, [], min, ◌+◌, ◌*◌, ◌≤◌, ◌<◌, length};
ghost use Rattle.answers.specs.Answer.{six};
ghost use Rattle.answers.specs.Rows.{Form, RowOf, WroteOf};
ghost use Rattle.answers.specs.Written.{Wrote};
ghost use Rattle.answers.specs.Held.{read};

// Six angles, and whether they are only the nearest in the sense of least squares. It is an answer either way,
// and so no Option.
#[derive(Clone, Copy, Default)]
pub struct Answer {
    pub q1: f64,
    pub q2: f64,
    pub q3: f64,
    pub q4: f64,
    pub q5: f64,
    pub q6: f64,
    pub is_ls: bool,
}

impl Answer {
    // The angles.
    pub fn six(&self) -> [f64; 6]
        ensures { result ≡ six self.now }
    {
        [self.q1, self.q2, self.q3, self.q4, self.q5, self.q6]
    }
}

// Writes one answer, as a row of numbers and a byte, to the start of the rest of the lists, where it
// fits both. Here alone an answer goes into the lists. The result is the number of answers: one.
pub fn put_row(row: &[f64], is_ls: bool, angles: &mut [f64], flags: &mut [u8]) -> usize
    ensures { (form : Form) (q : Answer) → RowOf form q row.now is_ls → WroteOf form (q ∷ []) angles.old flags.old angles.new flags.new result }
{
    let wide = row.len();
    if wide <= angles.len() && 1 <= flags.len() {
        angles[..wide].copy_from_slice(row);
        flags[0] = u8::from(is_ls);
    }
    1
}

// The same for an answer of six numbers.
pub fn put(q: Answer, angles: &mut [f64], flags: &mut [u8]) -> usize
    ensures { Wrote (q ∷ []) angles.old flags.old angles.new flags.new result }
{
    put_row(&q.six(), q.is_ls, angles, flags)
}

// Writes the first answers that fit both lists. The result is the number of all.
pub fn write(found: &[Answer], angles: &mut [f64], flags: &mut [u8]) -> usize
    ensures { Wrote found.now angles.old flags.old angles.new flags.new result }
{
    let fit = (angles.len() / 6).min(flags.len()).min(found.len());
    for (k, q) in found[..fit].iter().enumerate() {
        put(*q, &mut angles[6 * k..], &mut flags[k..]);
    }
    found.len()
}

// Where the rest of a list begins: at n, or at its end where it has fewer.
pub fn rest(n: usize, len: usize) -> usize
    ensures { result ≡ min n len }
{
    n.min(len)
}

// Answer k of those that two lists hold.
#[tactic(auto, unfolding(crate::specs::Held::read))]
pub fn read(angles: &[f64], flags: &[u8], k: usize) -> Answer
    requires { (6 * k + 6 ≤ length angles.now) × (k < length flags.now) }
    ensures { result ≡ read angles.now flags.now k }
{
    let at = 6 * k;
    Answer {
        q1: angles[at],
        q2: angles[at + 1],
        q3: angles[at + 2],
        q4: angles[at + 3],
        q5: angles[at + 4],
        q6: angles[at + 5],
        is_ls: flags[k] == 1,
    }
}
