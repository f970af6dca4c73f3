// The system of two equations whose matrix is zero above the diagonal.
ghost use Rattle.std.specs.Prelude.{◌≡◌};
ghost use Rattle.polynomial.specs.Triangular.{solve_lower_triangular_system_2x2};

use crate::{Matrix2, Vector2};

#[tactic(auto, unfolding(crate::specs::Triangular::solve_lower_triangular_system_2x2))]
pub fn solve_lower_triangular_system_2x2(l: Matrix2, b_v: Vector2) -> Vector2
    ensures { result ≡ solve_lower_triangular_system_2x2 l b_v }
{
    let x = b_v.x / l.m00;
    Vector2 {
        x,
        y: (b_v.y - x * l.m10) / l.m11,
    }
}
