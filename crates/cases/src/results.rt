// A record's words as arguments, and the comparison of results.
ghost use Rattle.std.specs.Prelude.{◌≡◌, ◌+◌, ◌*◌, ◌≤◌, length, from_bits, to_bits};
ghost use Rattle.std.specs.Float.{binary64};
ghost use Rattle.words.specs.Words.{word};
ghost use Rattle.cases.specs.Results.{same, agree};

use words::{is_nan, number, pattern, word};

// Whether two words are the same result. (Of the numbers `==` says something else: 0.0 is -0.0, and a NaN
// is none.)
pub fn same(a: u64, b: u64) -> bool
    ensures { result ≡ same a b }
{
    a == b || is_nan(a) && is_nan(b)
}

// Word i of a record as an argument.
pub fn argument(bytes: &[u8], i: usize) -> f64
    requires { 8 * i + 8 ≤ length bytes.now }
    ensures { result ≡ from_bits binary64 (word bytes.now i) }
{
    number(word(bytes, i))
}

// Whether word i of a record gives x as the result.
pub fn gives(bytes: &[u8], i: usize, x: f64) -> bool
    requires { 8 * i + 8 ≤ length bytes.now }
    ensures { result ≡ same (word bytes.now i) (to_bits binary64 x) }
{
    same(word(bytes, i), pattern(x))
}

// Whether the words from i on are these results.
#[tactic(auto, unfolding(crate::specs::Results::agree))]
pub fn agree(bytes: &[u8], i: usize, results: &[u64]) -> bool
    requires { 8 * (i + length results.now) ≤ length bytes.now }
    ensures { result ≡ agree bytes.now i (length results.now) 0 results.now }
{
    for (k, result) in results.iter().enumerate() {
        if !same(word(bytes, i + k), *result) {
            return false;
        }
    }
    true
}
