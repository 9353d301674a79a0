// The operations of biconics and toroids. The surface is a question's last operand.
use crate::answer::{Printed, answer, just};
use surfaces::{BiconicSurface, ToroidalSurface, ray_of};

pub(crate) fn answer_biconic(method: &[u8], operands: &[f64]) -> Option<Printed> {
    let &[ref before @ .., cx, kx, cy, ky, semi] = operands else {
        return None;
    };
    let s = BiconicSurface {
        cx,
        kx,
        cy,
        ky,
        semi,
    };
    Some(match (method, before) {
        (b"new", &[]) => answer(BiconicSurface::new(cx, kx, cy, ky, semi)),
        (b"paraxial", &[]) => answer(s.paraxial_curvatures()),
        (b"rx", &[]) => just(s.rx_mm()),
        (b"ry", &[]) => just(s.ry_mm()),
        (b"sag", &[x, y]) => answer(s.sag(x, y)),
        (b"derivatives", &[x, y]) => answer(s.derivatives(x, y)),
        (b"normal", &[x, y]) => answer(s.normal(x, y)),
        (b"intersect", &[ox, oy, oz, dx, dy, dz, vertex]) => {
            answer(s.intersect_ray(ray_of(ox, oy, oz, dx, dy, dz), vertex))
        }
        _ => return None,
    })
}

// Its operations have the names of a biconic's, but the types share no trait, and one for four rows is no plainer.
pub(crate) fn answer_toroid(method: &[u8], operands: &[f64]) -> Option<Printed> {
    let &[ref before @ .., rx, cy, ky, semi] = operands else {
        return None;
    };
    let s = ToroidalSurface { rx, cy, ky, semi };
    Some(match (method, before) {
        (b"new", &[]) => answer(ToroidalSurface::new(rx, cy, ky, semi)),
        (b"ry", &[]) => just(s.ry_mm()),
        (b"sag", &[x, y]) => answer(s.sag(x, y)),
        (b"derivatives", &[x, y]) => answer(s.derivatives(x, y)),
        (b"normal", &[x, y]) => answer(s.normal(x, y)),
        (b"intersect", &[ox, oy, oz, dx, dy, dz, vertex]) => {
            answer(s.intersect_ray(ray_of(ox, oy, oz, dx, dy, dz), vertex))
        }
        _ => return None,
    })
}
