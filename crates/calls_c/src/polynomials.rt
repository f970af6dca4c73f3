// The functions of polynomial, qr and ellipse.
use crate::shapes::{at, put, put_list, put_numbers};
use polynomial::{Cubic, Quadratic, Quartic};

fn cone_polynomials(args: &[f64; 40], out: &mut [u64; 23]) {
    let c = polynomial::cone_polynomials(
        at(args, 0),
        at(args, 3),
        at(args, 6),
        at(args, 9),
        at(args, 12),
    );
    put(out, 0, c.p);
    put(out, 2, c.r);
}

fn solve_quartic_roots(args: &[f64; 40], out: &mut [u64; 23]) {
    let found = polynomial::solve_quartic_roots(Quartic {
        a: at(args, 0),
        b: at(args, 2),
        c: at(args, 4),
        d: at(args, 6),
        e: at(args, 8),
    });
    put_list(out, &found);
}

fn solve_cubic_roots(args: &[f64; 40], out: &mut [u64; 23]) {
    let found = polynomial::solve_cubic_roots(Cubic {
        a: at(args, 0),
        b: at(args, 2),
        c: at(args, 4),
        d: at(args, 6),
    });
    put_list(out, &found);
}

fn solve_quadratic_roots(args: &[f64; 40], out: &mut [u64; 23]) {
    let found = polynomial::solve_quadratic_roots(Quadratic {
        a: at(args, 0),
        b: at(args, 2),
        c: at(args, 4),
    });
    put_list(out, &found);
}

fn solve_lower_triangular_system_2x2(args: &[f64; 40], out: &mut [u64; 23]) {
    let x = polynomial::solve_lower_triangular_system_2x2(at(args, 0), at(args, 4));
    put(out, 0, x);
}

// R's three numbers, and Q by rows.
fn qr(args: &[f64; 40], out: &mut [u64; 23]) {
    let f = qr::qr(at(args, 0), at(args, 4));
    put_numbers(out, 0, &[f.r.m00, f.r.m01, f.r.m11]);
    put_numbers(out, 3, &[f.q0.x, f.q1.x, f.q2.x, f.q3.x]);
    put_numbers(out, 7, &[f.q0.y, f.q1.y, f.q2.y, f.q3.y]);
    put_numbers(out, 11, &[f.q0.z, f.q1.z, f.q2.z, f.q3.z]);
    put_numbers(out, 15, &[f.q0.w, f.q1.w, f.q2.w, f.q3.w]);
}

fn solve_two_ellipse_numeric(args: &[f64; 40], out: &mut [u64; 23]) {
    let set = ellipse::solve_two_ellipse_numeric(
        at(args, 0),
        at(args, 2),
        at(args, 6),
        at(args, 8),
    );
    put_list(out, &set.get_all());
}

pub(crate) fn polynomial(id: u64, args: &[f64; 40], out: &mut [u64; 23]) {
    match id {
        0 => cone_polynomials(args, out),
        1 => put(out, 0, polynomial::vec_self_convolve_2(at(args, 0))),
        2 => put(out, 0, polynomial::vec_self_convolve_3(at(args, 0))),
        3 => put(out, 0, polynomial::vec_convolve_3(at(args, 0), at(args, 3))),
        4 => solve_quartic_roots(args, out),
        5 => solve_cubic_roots(args, out),
        6 => solve_quadratic_roots(args, out),
        7 => solve_lower_triangular_system_2x2(args, out),
        8 => qr(args, out),
        9 => solve_two_ellipse_numeric(args, out),
        _ => {}
    }
}
