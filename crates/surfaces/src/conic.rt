// Conic surfaces: constructors, radius, sag, normal, and where a ray meets one. Light travels along +z. c is in 1/mm,
// and above 0 where the centre of curvature lies behind the vertex, towards +z; k is 0 for a sphere, -1 for a
// paraboloid.
ghost use Rattle.std.specs.Prelude.{◌≡◌, [], ◌∷◌, option_to_list};
ghost use Rattle.numbers.specs.Arithmetic.{0f};
ghost use Rattle.numbers.specs.Root.{root};
ghost use Rattle.surfaces.specs.Types.{no_hit, hit_finite};
ghost use Rattle.surfaces.specs.Refusal.{checked9, told_number, told_direction, told_crossing, told_meet, told_conic};
ghost use Rattle.surfaces.specs.Conic.{curvature_of, from_radius_answer, from_curvature_answer, with_vertex, radius_of};
ghost use Rattle.surfaces.specs.Conic.{conic_sag, conic_sag_answer, gradient_normal, conic_normal, conic_finite};
ghost use Rattle.surfaces.specs.Conic.{conic_normal_answer, landed_within, plane_crossing, on_sheet, first_on, kept};
ghost use Rattle.surfaces.specs.Conic.{first_root, second_root, ascending, quadratic_of, sign_of, curved_crossing};
ghost use Rattle.surfaces.specs.Conic.{conic_crossing, normal_at, hit_at, conic_meet, conic_meet_answer};
ghost use Rattle.surfaces.specs.Parts.{told_quadratic};

use crate::refusal::{Refusal, checked, demand};
use crate::types::{
    Finite, HitRecord, Landing, Ray, Section, Vec3, backwards, dot, over, point_at,
};
use crate::waits::{SHEET_TOLERANCE, root_beside, surely_near_sag};
use numbers::{abs, is_finite, is_infinite, is_nan, max, root_exceeds, sqrt};

// The least radicand that the conic's sag takes.
const CONIC_EDGE: f64 = 0.0;

// Rust's vertex_z, curvature, conic_constant and semi_diam_mm.
#[derive(Clone, Copy)]
pub struct ConicSurface {
    pub vertex: f64,
    pub curvature: f64,
    pub conic: f64,
    pub semi: f64,
}

// The curvature of a radius: none of an infinite one.
#[tactic(auto, unfolding(crate::specs::Conic::curvature_of), using(numbers::proofs::Literals::literals))]
fn curvature_of(radius: f64) -> f64
    ensures { result ≡ curvature_of radius }
{
    if is_infinite(radius) {
        0.0
    } else {
        1.0 / radius
    }
}

impl ConicSurface {
    #[tactic(auto, unfolding(crate::specs::Conic::from_radius_answer), using(numbers::proofs::Literals::literals))]
    pub fn from_radius(radius: f64, conic: f64, semi: f64) -> Result<ConicSurface, Refusal>
        ensures { told_conic result ≡ from_radius_answer radius conic semi }
    {
        if is_nan(radius) | is_nan(conic) | is_nan(semi) {
            return Err(Refusal::NumericalSingularity);
        }
        if semi < 0.0 {
            return Err(Refusal::InvalidSurface);
        }
        if abs(radius) < 1e-15 {
            return Err(Refusal::NumericalSingularity);
        }
        Ok(ConicSurface {
            vertex: 0.0,
            curvature: curvature_of(radius),
            conic,
            semi,
        })
    }

    #[tactic(auto, unfolding(crate::specs::Conic::from_curvature_answer), using(numbers::proofs::Literals::literals))]
    pub fn from_curvature(curvature: f64, conic: f64, semi: f64) -> Result<ConicSurface, Refusal>
        ensures { told_conic result ≡ from_curvature_answer curvature conic semi }
    {
        if is_nan(curvature) | is_nan(conic) | is_nan(semi) {
            return Err(Refusal::NumericalSingularity);
        }
        if semi < 0.0 {
            return Err(Refusal::InvalidSurface);
        }
        Ok(ConicSurface {
            vertex: 0.0,
            curvature,
            conic,
            semi,
        })
    }

    #[tactic(auto, using(numbers::proofs::Literals::literals))]
    pub fn sphere(radius: f64, semi: f64) -> Result<ConicSurface, Refusal>
        ensures { told_conic result ≡ from_radius_answer radius 0f semi }
    {
        ConicSurface::from_radius(radius, 0.0, semi)
    }

    #[tactic(auto, using(numbers::proofs::Literals::literals))]
    pub fn plane(semi: f64) -> Result<ConicSurface, Refusal>
        ensures { told_conic result ≡ from_curvature_answer 0f 0f semi }
    {
        ConicSurface::from_curvature(0.0, 0.0, semi)
    }

    #[tactic(auto, unfolding(crate::specs::Conic::with_vertex))]
    pub fn with_vertex_z(self, vertex: f64) -> ConicSurface
        ensures { result ≡ with_vertex self vertex }
    {
        ConicSurface { vertex, ..self }
    }

    fn section(self) -> Section
        ensures { result ≡ record { c = self.curvature; k = self.conic } }
    {
        Section {
            c: self.curvature,
            k: self.conic,
        }
    }

    pub fn radius_mm(self) -> f64
        ensures { result ≡ radius_of self.curvature }
    {
        radius_of(self.curvature)
    }
}

// The radius of a curvature, infinite for a plane.
#[tactic(auto, unfolding(crate::specs::Conic::radius_of), using(numbers::proofs::Literals::literals))]
pub(crate) fn radius_of(c: f64) -> f64
    ensures { result ≡ radius_of c }
{
    if abs(c) < 1e-15 { 1.0 / 0.0 } else { 1.0 / c }
}

// The Rust's conic_sag, in mm from the vertex, with the sign of c: z = c r² / (1 + √(1 - (1 + k) c² r²)), where that
// root is real. `near` is a guess at r * r, which shortens the wait for the root and changes no answer.
#[tactic(auto, unfolding(crate::specs::Conic::conic_sag), using(numbers::proofs::Literals::literals))]
fn raw_conic_sag(s: Section, r: f64, near: f64) -> Result<f64, Refusal>
    ensures { told_number result ≡ conic_sag r s.c s.k }
{
    if !(is_finite(r) & is_finite(s.c) & is_finite(s.k)) {
        return Err(Refusal::NumericalSingularity);
    }
    if (abs(s.c) < 1e-15) | (abs(r) < 1e-15) {
        return Ok(0.0);
    }
    let r_sq = r * r;
    let radicand = s.radicand(r_sq);
    if radicand < CONIC_EDGE {
        return Err(Refusal::GeometryOutsideAperture);
    }
    Ok(s.sag(r_sq, root_beside(radicand, s.radicand(near))))
}

#[tactic(auto, unfolding(crate::specs::Conic::conic_sag_answer))]
pub fn conic_sag(r: f64, c: f64, k: f64) -> Result<f64, Refusal>
    ensures { told_number result ≡ conic_sag_answer r c k }
{
    checked(raw_conic_sag(Section { c, k }, r, r * r))
}

// The unit vector of (c x, c y, (1 + k) c z - 1), with z from the vertex: half the gradient of c (x² + y²) - 2 z + (1 +
// k) c z². It points towards -z at the vertex. There is none where the sag is not real.
#[tactic(auto, unfolding(crate::specs::Conic::gradient_normal), using(numbers::proofs::Literals::literals))]
fn gradient_normal(p: Vec3, s: ConicSurface) -> Result<Vec3, Refusal>
    ensures { told_direction result ≡ gradient_normal p s }
{
    let c = s.curvature;
    let k = s.conic;
    if s.section().radicand(p.x * p.x + p.y * p.y) < 0.0 {
        return Err(Refusal::GeometryOutsideAperture);
    }
    let g = Vec3 {
        x: c * p.x,
        y: c * p.y,
        z: (1.0 + k) * c * (p.z - s.vertex) - 1.0,
    };
    let n_sq = dot(g, g);
    if (n_sq < 1e-30) | !is_finite(n_sq) {
        return Err(Refusal::NumericalSingularity);
    }
    Ok(over(g, sqrt(n_sq)))
}

// The Rust's conic_normal, with its test of the arguments.
#[tactic(auto, unfolding(crate::specs::Conic::conic_normal))]
fn raw_conic_normal(p: Vec3, s: ConicSurface) -> Result<Vec3, Refusal>
    ensures { told_direction result ≡ conic_normal p s }
{
    if !(p.all_finite() & is_finite(s.curvature) & is_finite(s.conic) & is_finite(s.vertex)) {
        return Err(Refusal::NumericalSingularity);
    }
    gradient_normal(p, s)
}

impl Finite for ConicSurface {
    ghost fine = { conic_finite };

    #[tactic(auto, unfolding(crate::specs::Conic::conic_finite))]
    fn all_finite(self) -> bool {
        is_finite(self.vertex)
            & is_finite(self.curvature)
            & is_finite(self.conic)
            & is_finite(self.semi)
    }
}

#[tactic(auto, unfolding(crate::specs::Conic::conic_normal_answer))]
pub fn conic_normal(p: Vec3, s: ConicSurface) -> Result<Vec3, Refusal>
    ensures { told_direction result ≡ conic_normal_answer p s }
{
    demand(
        p.all_finite() & s.all_finite(),
        Refusal::NumericalSingularity,
    )?;
    checked(raw_conic_normal(p, s))
}

// At t, unless r is beyond the semi-diameter. `sq` is what r is the root of.
#[tactic(auto, unfolding(crate::specs::Conic::landed_within))]
pub(crate) fn landed_within(t: f64, p: Vec3, sq: f64, semi: f64) -> Result<Landing, Refusal>
    ensures { told_crossing result ≡ landed_within t p (root sq) semi }
{
    if root_exceeds(sq, semi) {
        Err(Refusal::RayVignetted {
            r: sqrt(sq),
            limit: semi,
        })
    } else {
        Ok(Landing { t, point: p })
    }
}

// t = (vertex - z) / dz, in lengths of the direction; a ray along the plane, or from behind it, misses.
#[tactic(auto, unfolding(crate::specs::Conic::plane_crossing), using(numbers::proofs::Literals::literals))]
fn plane_crossing(ray: Ray, s: ConicSurface) -> Result<Landing, Refusal>
    ensures { told_crossing result ≡ plane_crossing ray s }
{
    let pz = ray.origin.z - s.vertex;
    let dz = ray.direction.z;
    if abs(dz) < 1e-15 {
        return Err(Refusal::RayMissedSurface);
    }
    let raw = -pz / dz;
    if raw < -1e-7 {
        return Err(Refusal::RayMissedSurface);
    }
    let t = max(raw, 0.0);
    let p = point_at(ray, t);
    landed_within(t, p, p.x * p.x + p.y * p.y, s.semi)
}

// Whether a point lies on the sheet through the vertex.
#[tactic(auto, unfolding(crate::specs::Conic::near_sag), using(crate::proofs::Refusals::refusals))]
fn on_sheet(s: ConicSurface, p: Vec3, sq: f64) -> bool
    ensures { result ≡ on_sheet s p (root sq) }
{
    let z = p.z - s.vertex;
    if surely_near_sag(s.curvature, s.conic, z, sq) {
        return true;
    }
    match raw_conic_sag(s.section(), sqrt(sq), sq) {
        Ok(sag) => abs(z - sag) < SHEET_TOLERANCE,
        Err(_) => false,
    }
}

#[tactic(auto, unfolding(crate::specs::Conic::first_on))]
fn cross_one(ray: Ray, s: ConicSurface, t: f64) -> Result<Landing, Refusal>
    ensures { told_crossing result ≡ first_on ray s (t ∷ []) }
{
    let p = point_at(ray, t);
    let sq = p.x * p.x + p.y * p.y;
    if on_sheet(s, p, sq) {
        landed_within(t, p, sq, s.semi)
    } else {
        Err(Refusal::RayMissedSurface)
    }
}

// Apart from one candidate: they differ in what a miss leads to, and a loop over two is no plainer.
#[tactic(auto, unfolding(crate::specs::Conic::first_on))]
fn cross_two(ray: Ray, s: ConicSurface, t: f64, u: f64) -> Result<Landing, Refusal>
    ensures { told_crossing result ≡ first_on ray s (t ∷ u ∷ []) }
{
    let p = point_at(ray, t);
    let sq = p.x * p.x + p.y * p.y;
    if on_sheet(s, p, sq) {
        landed_within(t, p, sq, s.semi)
    } else {
        cross_one(ray, s, u)
    }
}

#[tactic(auto, unfolding(crate::specs::Conic::kept), using(numbers::proofs::Literals::literals))]
fn keep(t: f64) -> Option<f64>
    ensures { option_to_list result ≡ kept t }
{
    if t > -1e-7 { Some(max(t, 0.0)) } else { None }
}

#[tactic(auto, unfolding(crate::specs::Conic::first_root), using(numbers::proofs::Literals::literals))]
fn first_root(q: f64, c: f64) -> Option<f64>
    ensures { option_to_list result ≡ first_root q c }
{
    if abs(q) > 1e-30 { keep(c / q) } else { None }
}

#[tactic(auto, unfolding(crate::specs::Conic::second_root), using(numbers::proofs::Literals::literals))]
fn second_root(q: f64, a: f64) -> Option<f64>
    ensures { option_to_list result ≡ second_root q a }
{
    if (abs(a) > 1e-30) & (abs(q) > 1e-30) {
        keep(q / a)
    } else {
        None
    }
}

#[tactic(auto, unfolding(crate::specs::Conic::first_on, crate::specs::Conic::ascending))]
fn cross_roots(
    ray: Ray,
    s: ConicSurface,
    x: Option<f64>,
    y: Option<f64>,
) -> Result<Landing, Refusal>
    ensures { told_crossing result ≡ first_on ray s (ascending (option_to_list x) (option_to_list y)) }
{
    match (x, y) {
        (Some(t), Some(u)) => {
            if u < t {
                cross_two(ray, s, u, t)
            } else {
                cross_two(ray, s, t, u)
            }
        }
        (Some(t), None) | (None, Some(t)) => cross_one(ray, s, t),
        (None, None) => Err(Refusal::RayMissedSurface),
    }
}

// A t² + B t + C is c (x² + y²) - 2 z + (1 + k) c z² at the ray's point, with z from the vertex: 0 on the whole
// quadric.
#[derive(Clone, Copy)]
pub(crate) struct Quadratic {
    pub a: f64,
    pub b: f64,
    pub c: f64,
}

#[tactic(auto, unfolding(crate::specs::Conic::quadratic_of), using(numbers::proofs::Literals::literals))]
fn quadratic_of(ray: Ray, s: ConicSurface) -> Quadratic
    ensures { told_quadratic result ≡ quadratic_of ray s }
{
    let c = s.curvature;
    let k1 = 1.0 + s.conic;
    let px = ray.origin.x;
    let py = ray.origin.y;
    let pz = ray.origin.z - s.vertex;
    let dx = ray.direction.x;
    let dy = ray.direction.y;
    let dz = ray.direction.z;
    Quadratic {
        a: c * (dx * dx + dy * dy + k1 * dz * dz),
        b: 2.0 * (c * (px * dx + py * dy + k1 * pz * dz) - dz),
        c: c * (px * px + py * py + k1 * pz * pz) - 2.0 * pz,
    }
}

#[tactic(auto, unfolding(crate::specs::Conic::sign_of), using(numbers::proofs::Literals::literals))]
pub(crate) fn sign_of(b: f64) -> f64
    ensures { result ≡ sign_of b }
{
    if b >= 0.0 { 1.0 } else { -1.0 }
}

// The roots are C / q and q / A with q = -(B + sign(B) √(B² - 4 A C)) / 2, in which nothing cancels.
#[tactic(auto, unfolding(crate::specs::Conic::curved_crossing), using(numbers::proofs::Literals::literals))]
fn curved_crossing(ray: Ray, s: ConicSurface) -> Result<Landing, Refusal>
    ensures { told_crossing result ≡ curved_crossing ray s }
{
    let e = quadratic_of(ray, s);
    let d = e.b * e.b - 4.0 * e.a * e.c;
    if d < 0.0 {
        return Err(Refusal::RayMissedSurface);
    }
    let q = -0.5 * (e.b + sign_of(e.b) * sqrt(d));
    cross_roots(ray, s, first_root(q, e.c), second_root(q, e.a))
}

// The Rust's intersect_conic up to the normal.
#[tactic(auto, unfolding(crate::specs::Conic::conic_crossing), using(numbers::proofs::Literals::literals))]
pub(crate) fn conic_crossing(ray: Ray, s: ConicSurface) -> Result<Landing, Refusal>
    ensures { told_crossing result ≡ conic_crossing ray s }
{
    if abs(s.curvature) < 1e-15 {
        plane_crossing(ray, s)
    } else {
        curved_crossing(ray, s)
    }
}

// The normal that intersect_conic hands out: along the axis for a plane.
#[tactic(auto, unfolding(crate::specs::Conic::normal_at), using(numbers::proofs::Literals::literals))]
pub(crate) fn normal_at(p: Vec3, s: ConicSurface) -> Result<Vec3, Refusal>
    ensures { told_direction result ≡ normal_at p s }
{
    if abs(s.curvature) < 1e-15 {
        Ok(backwards())
    } else {
        raw_conic_normal(p, s)
    }
}

// The front face is that which the ray runs against.
#[tactic(auto, unfolding(crate::specs::Conic::hit_at), using(numbers::proofs::Literals::literals))]
fn hit_at(ray: Ray, l: Landing, n: Vec3) -> HitRecord
    ensures { result ≡ hit_at ray l n }
{
    HitRecord {
        t: l.t,
        point: l.point,
        normal: n,
        front: dot(ray.direction, n) < 0.0,
    }
}

// The Rust's intersect_conic.
#[tactic(auto, unfolding(crate::specs::Conic::conic_meet), using(crate::proofs::Refusals::never_done))]
fn raw_intersect_conic(ray: Ray, s: ConicSurface) -> Result<HitRecord, Refusal>
    ensures { told_meet result ≡ conic_meet ray s }
{
    let landing = conic_crossing(ray, s)?;
    let normal = normal_at(landing.point, s)?;
    Ok(hit_at(ray, landing, normal))
}

#[tactic(auto, unfolding(crate::specs::Conic::conic_meet_answer), using(numbers::proofs::Literals::literals))]
pub fn intersect_conic(ray: Ray, s: ConicSurface) -> Result<HitRecord, Refusal>
    ensures { told_meet result ≡ conic_meet_answer ray s }
{
    demand(ray.all_finite() & s.all_finite(), Refusal::InvalidParameter)?;
    demand(!(s.semi < 0.0), Refusal::InvalidSurface)?;
    checked(raw_intersect_conic(ray, s))
}
