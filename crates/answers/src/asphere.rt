// The operations of even and odd aspheres. The surface is a question's last operand, and ends with its coefficients.
use crate::answer::{Printed, answer};
use surfaces::{Coefficients, EvenAsphere, MOST_COEFFICIENTS, OddAsphere, ray_of};

pub(crate) fn answer_even(method: &[u8], operands: &[f64]) -> Option<Printed> {
    Some(match (method, operands) {
        (b"new", &[c, k, semi, ref a @ ..]) => {
            answer(EvenAsphere::new(c, k, coefficients(a), semi))
        }
        (b"paraxial", &[c, k, semi, ref a @ ..]) => {
            answer(even(c, k, semi, a).paraxial_curvature())
        }
        (b"sag", &[r, c, k, semi, ref a @ ..]) => answer(even(c, k, semi, a).sag(r)),
        (b"derivative", &[r, c, k, semi, ref a @ ..]) => {
            answer(even(c, k, semi, a).radial_derivative(r))
        }
        (b"normal", &[x, y, c, k, semi, ref a @ ..]) => answer(even(c, k, semi, a).normal(x, y)),
        (b"intersect", &[ox, oy, oz, dx, dy, dz, vertex, c, k, semi, ref a @ ..]) => {
            let ray = ray_of(ox, oy, oz, dx, dy, dz);
            answer(even(c, k, semi, a).intersect_ray(ray, vertex))
        }
        _ => return None,
    })
}

fn even(curvature: f64, conic: f64, semi: f64, a: &[f64]) -> EvenAsphere {
    EvenAsphere {
        curvature,
        conic,
        semi,
        coefficients: coefficients(a),
    }
}

// How many there are, of which the first ones have a slot.
fn coefficients(a: &[f64]) -> Coefficients {
    let held = a.len().min(MOST_COEFFICIENTS);
    let mut values = [0.0; MOST_COEFFICIENTS];
    values[..held].copy_from_slice(&a[..held]);
    Coefficients {
        count: a.len(),
        values,
    }
}

// The count of the even coefficients stands between `before` and them.
pub(crate) fn answer_odd(
    name: &[u8],
    before: &[f64],
    even: &[f64],
    odd: &[f64],
) -> Option<Printed> {
    let &[ref before @ .., curvature, conic, semi] = before else {
        return None;
    };
    let even = coefficients(even);
    let odd = coefficients(odd);
    let s = OddAsphere {
        curvature,
        conic,
        semi,
        even,
        odd,
    };
    Some(match (name, before) {
        (b"odd_new", &[]) => answer(OddAsphere::new(curvature, conic, even, odd, semi)),
        (b"odd_sag", &[r]) => answer(s.sag(r)),
        (b"odd_normal", &[x, y]) => answer(s.normal(x, y)),
        (b"odd_intersect", &[ox, oy, oz, dx, dy, dz, vertex]) => {
            answer(s.intersect_ray(ray_of(ox, oy, oz, dx, dy, dz), vertex))
        }
        _ => return None,
    })
}
