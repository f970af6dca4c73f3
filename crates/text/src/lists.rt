// The lines of a block, from its numbers and the two lists, which stay two as the calls for C lend
// them. (The words and the spaces are put one by one, and not by `write!`: text.rt says why.)
ghost use Rattle.std.specs.Prelude.{◌≡◌, ◌++◌, ◌+◌, ◌*◌, ◌≤◌, ◌<◌, min, length};
ghost use mathlib.Core.List.{flat_map};
ghost use Rattle.array_vec.specs.ArrayVec.{array_vec_len};
ghost use Rattle.text.specs.Lists.{field, head, angle, line_at, lines_of};

use crate::text::{Buffer, decimal, glyph, hex, put};

// How many answers there are lines for.
const SPACE: usize = 1024;

pub fn shown(answers: usize) -> usize
    ensures { result ≡ min answers 1024 }
{
    answers.min(SPACE)
}

fn field(out: &mut Buffer, name: &[u8], n: u64)
    requires { array_vec_len out.old + length name.now + 20 ≤ 106608 }
    ensures items { out.new.items ≡ out.old.items ++ field name.now n }
    ensures len { array_vec_len out.new ≤ array_vec_len out.old + length name.now + 20 }
{
    put(out, name);
    decimal(out, n);
}

// The first line, alone in the buffer.
pub fn head(out: &mut Buffer, place: u64, refusal: u64, answers: u64, evals: u64)
    ensures items { out.new.items ≡ head place refusal answers evals }
    ensures len { array_vec_len out.new ≤ 112 }
{
    out.clear();
    field(out, b"block ", place);
    field(out, b" refusal ", refusal);
    field(out, b" answers ", answers);
    field(out, b" evals ", evals);
    out.push(b'\n');
}

fn angle(out: &mut Buffer, x: f64)
    requires { array_vec_len out.old + 17 ≤ 106608 }
    ensures items { out.new.items ≡ out.old.items ++ angle x }
    ensures len { array_vec_len out.new ≡ array_vec_len out.old + 17 }
{
    hex(out, x);
    out.push(b' ');
}

fn angles(out: &mut Buffer, list: &[f64])
    requires { array_vec_len out.old + 17 * length list.now ≤ 106608 }
    ensures items { out.new.items ≡ out.old.items ++ flat_map angle list.now }
    ensures len { array_vec_len out.new ≡ array_vec_len out.old + 17 * length list.now }
{
    for x in list {
        angle(out, *x);
    }
}

fn line_at(out: &mut Buffer, list: &[f64], flags: &[u8], i: usize)
    requires { (array_vec_len out.old + 104 ≤ 106608) × (6 * i + 6 ≤ length list.now) × (i < length flags.now) }
    ensures items { out.new.items ≡ out.old.items ++ line_at list.now flags.now i }
    ensures len { array_vec_len out.new ≡ array_vec_len out.old + 104 }
{
    let from = 6 * i;
    angles(out, &list[from..from + 6]);
    out.push(glyph(u64::from(flags[i]) % 10));
    out.push(b'\n');
}

// The lines of the first n answers.
pub fn lines_of(out: &mut Buffer, list: &[f64], flags: &[u8], n: usize)
    requires { (array_vec_len out.old + 104 * n ≤ 106608) × (6 * n ≤ length list.now) × (n ≤ length flags.now) }
    ensures items { out.new.items ≡ out.old.items ++ lines_of list.now flags.now n }
    ensures len { array_vec_len out.new ≡ array_vec_len out.old + 104 * n }
{
    for i in 0..n {
        line_at(out, list, flags, i);
    }
}
