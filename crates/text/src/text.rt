// Numbers and names as text, appended to a buffer, piece by piece and not by `write!`: its contract
// says what was written where it returns Ok, and not that it does so while there is room; what is
// printed here cannot fail.
ghost use Rattle.std.specs.Prelude.{◌≡◌, ◌++◌, ◌+◌, ◌≤◌, ◌<◌, length};
ghost use Rattle.std.proofs.lemmas.List.Edits.{sets};
ghost use Rattle.array_vec.specs.ArrayVec.{array_vec_len};
ghost use Rattle.text.specs.Text.{glyph, digits, places, decimal, hex};

use array_vec::ArrayVec;

// Room for the lines of a block: at most 112 bytes for the first, and 104 for each of 1,024 answers.
pub type Buffer = ArrayVec<u8, 106608>;

// Appends a text.
pub fn put(out: &mut Buffer, text: &[u8])
    requires { array_vec_len out.old + length text.now ≤ 106608 }
    ensures items { out.new.items ≡ out.old.items ++ text.now }
    ensures len { array_vec_len out.new ≡ array_vec_len out.old + length text.now }
{
    out.extend_from_slice(text);
}

// A digit: 0 to 9, then a to f. (By hand: std has it as a `char` that may be none, `from_digit`.)
pub fn glyph(d: u64) -> u8
    requires { d < 16 }
    ensures { result ≡ glyph d }
{
    if d < 10 {
        b'0' + d as u8
    } else {
        b'a' - 10 + d as u8
    }
}

// How many decimal digits n has.
fn places(n: u64) -> usize
    ensures { result ≡ places 19 n }
{
    let mut rest = n;
    for k in 1..20usize {
        if rest < 10 {
            return k;
        }
        rest /= 10;
    }
    20
}

// The last k decimal digits of n.
fn spell(out: &mut [u8], k: usize, n: u64)
    requires { k ≤ length out.old }
    ensures { out.new ≡ sets out.old 0 (digits 10 k n) }
{
    let mut rest = n;
    for i in 0..k {
        out[k - 1 - i] = glyph(rest % 10);
        rest /= 10;
    }
}

pub fn decimal(out: &mut Buffer, n: u64)
    requires { array_vec_len out.old + 20 ≤ 106608 }
    ensures items { out.new.items ≡ out.old.items ++ decimal n }
    ensures len { array_vec_len out.new ≤ array_vec_len out.old + 20 }
{
    let k = places(n);
    let mut digits = [0; 20];
    spell(&mut digits, k, n);
    put(out, &digits[..k]);
}

// The bits of a number, the highest digit first. (By hand, since `{:016x}` is printed by `write!`.)
pub fn hex(out: &mut Buffer, x: f64)
    requires { array_vec_len out.old + 16 ≤ 106608 }
    ensures items { out.new.items ≡ out.old.items ++ hex x }
    ensures len { array_vec_len out.new ≡ array_vec_len out.old + 16 }
{
    let bits = words::pattern(x);
    for i in 0..16u32 {
        out.push(glyph((bits >> (60 - 4 * i)) % 16));
    }
}
