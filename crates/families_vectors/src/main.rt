// Compares the families with outside results. Standard input has records of 112 words, as `oracle
// layout` has them: the family, n, the arm's 39 numbers and the pose's 12, the number of answers,
// the evaluations, eight answers of six angles and a flag, and a hash. Each record is solved with
// lists that have room for all answers, and with lists that are too short in one way or another:
// the answers that fit both stand in the lists, and whatever else they held stands there yet.
// Records of family 6, whose lists may be longer, are passed over: the program search_vectors has those.
// `oracle cases families 1 300` made the stored cases, less those of family 6;
// tools/compare/compare.sh runs others.
#![tactic(auto)]

ghost use Rattle.std.specs.Prelude.{◌≤◌};

use std::io;

// The families, by their ids from 1 on.
const NAMES: [&str; 5] = [
    "spherical_two_parallel",
    "spherical_two_intersecting",
    "spherical",
    "three_parallel_two_intersecting",
    "three_parallel",
];

const ARM: usize = 2;

const POSE: usize = 41;

const COUNT: usize = 53;

// The place of the first answer.
const ANSWERS: usize = 55;

// What the lists hold before: no angle and no flag is like it.
const NO_ANGLE: f64 = 12345.678;

const NO_FLAG: u8 = 7;

// Lists with room for one answer more than a family can have.
const ROOM: usize = 9;

const LONG: usize = 54;

// Whether an answer is the record's: six angles and a flag.
fn given(record: &[u8; 56], angles: &[f64; 6], flag: u8) -> bool {
    let is_flag = cases::word(record, 6) == u64::from(flag);
    is_flag && cases::agree(record, 0, &angles.map(cases::pattern))
}

// Whether these answers are the record's first ones.
fn all_given(bytes: &[u8; 896], angles: &[f64], flags: &[u8]) -> bool {
    let (records, _) = bytes[8 * ANSWERS..].as_chunks::<56>();
    let (answers, _) = angles.as_chunks::<6>();
    for ((record, six), flag) in records.iter().zip(answers).zip(flags) {
        if !given(record, six, *flag) {
            return false;
        }
    }
    true
}

// Whether these parts of the lists are as they were.
fn unwritten(angles: &[f64], flags: &[u8]) -> bool {
    angles.iter().all(|x| *x == NO_ANGLE) && flags.iter().all(|f| *f == NO_FLAG)
}

// A record's family, arm and pose, and how many answers it has.
#[derive(Drop)]
struct Case<'a> {
    bytes: &'a [u8; 896],
    id: u64,
    arm: [f64; 39],
    pose: [f64; 12],
    count: usize,
    ghost few: { count ≤ 8 },
}

impl Case<'_> {
    // Solves with lists of a numbers and b bytes.
    fn solved(&self, a: usize, b: usize) -> bool
        requires { (a ≤ 54) × (b ≤ 9) }
    {
        let mut angles = [NO_ANGLE; LONG];
        let mut flags = [NO_FLAG; ROOM];
        let n = calls_c::family(
            self.id,
            &self.arm,
            &self.pose,
            &mut angles[..a],
            &mut flags[..b],
        );
        let fit = self.count.min(b).min(a / 6);
        n == self.count
            && all_given(self.bytes, &angles[..6 * fit], &flags[..fit])
            && unwritten(&angles[6 * fit..], &flags[fit..])
    }

    // The angles have room for n answers and almost one more, and then the flags for n: the other list is whole.
    fn short(&self, n: usize) -> bool
        requires { n ≤ 7 }
    {
        self.solved(6 * n + 5, ROOM) && self.solved(LONG, n)
    }

    fn agrees(&self) -> bool {
        let n = self.count;
        self.solved(LONG, ROOM)
            && self.solved(6 * n, n)
            && self.short(0)
            && self.short(1)
            && self.short(n.saturating_sub(1))
    }
}

fn agrees(bytes: &[u8; 896], id: u64) -> bool {
    let count = cases::word(bytes, COUNT);
    if count > 8 {
        return false;
    }
    let case = Case {
        bytes,
        id,
        arm: cases::array_of(bytes, ARM),
        pose: cases::array_of(bytes, POSE),
        count: count as usize,
    };
    case.agrees()
}

fn main(rt: HostRuntime) -> io::Result<()> {
    cases::run(&rt, &mut [0; 896], 1, &NAMES, |bytes, id| {
        if id == 6 {
            return None;
        }
        Some(id > 0 && agrees(bytes.as_array()?, id))
    })
}
