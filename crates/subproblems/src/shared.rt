// What several subproblems are made of.
ghost use Rattle.std.specs.Prelude.{◌≡◌};
ghost use Rattle.subproblems.specs.Columns.{columns, along};

use crate::Columns;
use linear::Vector3;

// The circle of p about k: the column that goes with the sine of the angle, and that of its cosine.
pub fn columns(k: Vector3, p: Vector3) -> Columns
    ensures { result ≡ columns k p }
{
    let kxp = linear::cross(k, p);
    Columns {
        first: kxp,
        second: -linear::cross(k, kxp),
    }
}

// The product of h and p along k.
pub fn along(h: Vector3, k: Vector3, p: Vector3) -> f64
    ensures { result ≡ along h k p }
{
    let s = linear::dot(h, k);
    linear::dot(k * s, p)
}
