// The operations of conics.
use crate::answer::{Printed, answer, just};
use surfaces::{ConicSurface, Vec3, conic_normal, conic_sag, intersect_conic, ray_of};

pub(crate) fn answer_conic(method: &[u8], operands: &[f64]) -> Option<Printed> {
    Some(match (method, operands) {
        (b"plane", &[semi]) => answer(ConicSurface::plane(semi)),
        (b"sphere", &[radius, semi]) => answer(ConicSurface::sphere(radius, semi)),
        (b"from_radius", &[radius, k, semi]) => answer(ConicSurface::from_radius(radius, k, semi)),
        (b"from_curvature", &[c, k, semi]) => answer(ConicSurface::from_curvature(c, k, semi)),
        (b"sag", &[r, c, k]) => answer(conic_sag(r, c, k)),
        (b"radius", &[vertex, c, k, semi]) => just(conic(vertex, c, k, semi).radius_mm()),
        (b"with_vertex_z", &[vertex, c, k, semi, z]) => {
            just(conic(vertex, c, k, semi).with_vertex_z(z))
        }
        (b"normal", &[x, y, z, vertex, c, k, semi]) => {
            answer(conic_normal(Vec3 { x, y, z }, conic(vertex, c, k, semi)))
        }
        (b"intersect", &[ox, oy, oz, dx, dy, dz, vertex, c, k, semi]) => answer(intersect_conic(
            ray_of(ox, oy, oz, dx, dy, dz),
            conic(vertex, c, k, semi),
        )),
        _ => return None,
    })
}

fn conic(vertex: f64, curvature: f64, conic: f64, semi: f64) -> ConicSurface {
    ConicSurface {
        vertex,
        curvature,
        conic,
        semi,
    }
}
