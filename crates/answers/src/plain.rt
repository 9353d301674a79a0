// The operations on numbers and directions.
use crate::answer::{Printed, answer, just};
use surfaces::{Vec3, reflect, snell_refract};

pub(crate) fn answer_plain(name: &[u8], operands: &[f64]) -> Option<Printed> {
    Some(match (name, operands) {
        (b"sqrt", &[x]) => just(numbers::sqrt(x)),
        (b"abs", &[x]) => just(numbers::abs(x)),
        (b"clamp", &[x]) => just(numbers::clamp(x)),
        (b"finite", &[x]) => just(numbers::is_finite(x)),
        (b"max", &[x, y]) => just(numbers::max(x, y)),
        (b"reflect", &[ix, iy, iz, nx, ny, nz]) => {
            answer(reflect(vector(ix, iy, iz), vector(nx, ny, nz)))
        }
        (b"refract", &[ix, iy, iz, nx, ny, nz, n1, n2]) => {
            answer(snell_refract(vector(ix, iy, iz), vector(nx, ny, nz), n1, n2))
        }
        _ => return None,
    })
}

fn vector(x: f64, y: f64, z: f64) -> Vec3 {
    Vec3 { x, y, z }
}
