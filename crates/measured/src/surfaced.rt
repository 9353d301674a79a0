// Intersections and refractions, each told as the sum of its numbers, so that all of them are worked out.
// C hands over each number by itself, so no exported function takes a ray or a surface.
#![tactic(auto, using(surfaces::proofs::Refusals::refusals))]

ghost use Rattle.std.specs.Prelude.{◌≡◌};
ghost use Rattle.measured.specs.Surfaced.{even_of, biconic_of, toroid_of, sum_vec, sum_landing, sum_hit, conic_then};
ghost use Rattle.measured.specs.Surfaced.{even_then};
ghost use Rattle.surfaces.specs.Types.{ray_of};
ghost use Rattle.surfaces.specs.Refusal.{gives};
ghost use Rattle.surfaces.specs.Conic.{conic_surface, conic_meet_answer};
ghost use Rattle.surfaces.specs.Asphere.{even_crossing_answer};
ghost use Rattle.surfaces.specs.Biconic.{biconic_crossing_answer, toroid_crossing_answer};

use surfaces::{
    BiconicSurface, Coefficients, ConicSurface, EvenAsphere, HitRecord, Landing, ToroidalSurface,
    Vec3, intersect_conic, ray_of, snell_refract,
};

fn conic_of(vertex: f64, c: f64, k: f64, semi: f64) -> ConicSurface
    ensures { result ≡ conic_surface vertex c k semi }
{
    ConicSurface {
        vertex,
        curvature: c,
        conic: k,
        semi,
    }
}

fn even_of(c: f64, k: f64, semi: f64, a: f64, b: f64) -> EvenAsphere
    ensures { result ≡ even_of c k semi a b }
{
    EvenAsphere {
        curvature: c,
        conic: k,
        semi,
        coefficients: Coefficients {
            count: 2usize,
            values: [a, b, 0.0, 0.0, 0.0, 0.0, 0.0, 0.0],
        },
    }
}

fn vector_sum(v: Vec3) -> f64
    ensures { result ≡ sum_vec (gives v) }
{
    v.x + v.y + v.z
}

fn landing_sum(l: Landing) -> f64
    ensures { result ≡ sum_landing (gives l) }
{
    let p = l.point;
    l.t + p.x + p.y + p.z
}

fn hit_sum(h: HitRecord) -> f64
    ensures { result ≡ sum_hit (gives h) }
{
    let p = h.point;
    let n = h.normal;
    h.t + p.x + p.y + p.z + n.x + n.y + n.z
}

#[unsafe(no_mangle)]
pub extern "C" fn measured_conic(
    ox: f64,
    oy: f64,
    oz: f64,
    dx: f64,
    dy: f64,
    dz: f64,
    vertex: f64,
    c: f64,
    k: f64,
    semi: f64,
) -> f64
    ensures { result ≡ sum_hit (conic_meet_answer (ray_of ox oy oz dx dy dz) (conic_surface vertex c k semi)) }
{
    let s = conic_of(vertex, c, k, semi);
    intersect_conic(ray_of(ox, oy, oz, dx, dy, dz), s).map_or(0.0, hit_sum)
}

#[unsafe(no_mangle)]
pub extern "C" fn measured_even(
    ox: f64,
    oy: f64,
    oz: f64,
    dx: f64,
    dy: f64,
    dz: f64,
    vertex: f64,
    c: f64,
    k: f64,
    semi: f64,
    a: f64,
    b: f64,
) -> f64
    ensures { result ≡ sum_landing (even_crossing_answer (even_of c k semi a b) (ray_of ox oy oz dx dy dz) vertex) }
{
    even_of(c, k, semi, a, b)
        .intersect_ray(ray_of(ox, oy, oz, dx, dy, dz), vertex)
        .map_or(0.0, landing_sum)
}

#[unsafe(no_mangle)]
pub extern "C" fn measured_biconic(
    ox: f64,
    oy: f64,
    oz: f64,
    dx: f64,
    dy: f64,
    dz: f64,
    vertex: f64,
    cx: f64,
    kx: f64,
    cy: f64,
    ky: f64,
    semi: f64,
) -> f64
    ensures { result
        ≡ sum_landing (biconic_crossing_answer (biconic_of cx kx cy ky semi) (ray_of ox oy oz dx dy dz) vertex) }
{
    let s = BiconicSurface {
        cx,
        kx,
        cy,
        ky,
        semi,
    };
    s.intersect_ray(ray_of(ox, oy, oz, dx, dy, dz), vertex)
        .map_or(0.0, landing_sum)
}

#[unsafe(no_mangle)]
pub extern "C" fn measured_toroid(
    ox: f64,
    oy: f64,
    oz: f64,
    dx: f64,
    dy: f64,
    dz: f64,
    vertex: f64,
    rx: f64,
    cy: f64,
    ky: f64,
    semi: f64,
) -> f64
    ensures { result
        ≡ sum_landing (toroid_crossing_answer (toroid_of rx cy ky semi) (ray_of ox oy oz dx dy dz) vertex) }
{
    let s = ToroidalSurface { rx, cy, ky, semi };
    s.intersect_ray(ray_of(ox, oy, oz, dx, dy, dz), vertex)
        .map_or(0.0, landing_sum)
}

#[unsafe(no_mangle)]
pub extern "C" fn measured_conic_then(
    ox: f64,
    oy: f64,
    oz: f64,
    dx: f64,
    dy: f64,
    dz: f64,
    vertex: f64,
    c: f64,
    k: f64,
    semi: f64,
    n1: f64,
    n2: f64,
) -> f64
    ensures { result ≡ conic_then (ray_of ox oy oz dx dy dz) (conic_surface vertex c k semi) n1 n2 }
{
    let ray = ray_of(ox, oy, oz, dx, dy, dz);
    intersect_conic(ray, conic_of(vertex, c, k, semi))
        .and_then(|h| snell_refract(ray.direction, h.normal, n1, n2))
        .map_or(0.0, vector_sum)
}

#[unsafe(no_mangle)]
pub extern "C" fn measured_even_then(
    ox: f64,
    oy: f64,
    oz: f64,
    dx: f64,
    dy: f64,
    dz: f64,
    vertex: f64,
    c: f64,
    k: f64,
    semi: f64,
    a: f64,
    b: f64,
    n1: f64,
    n2: f64,
) -> f64
    ensures { result ≡ even_then (ray_of ox oy oz dx dy dz) vertex (even_of c k semi a b) n1 n2 }
{
    let ray = ray_of(ox, oy, oz, dx, dy, dz);
    let s = even_of(c, k, semi, a, b);
    s.intersect_ray(ray, vertex)
        .and_then(|l| s.normal(l.point.x, l.point.y))
        .and_then(|n| snell_refract(ray.direction, n, n1, n2))
        .map_or(0.0, vector_sum)
}
