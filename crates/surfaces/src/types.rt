// Vectors, rays and what a surface is made of, by value. Lengths are in millimetres.
ghost use Rattle.std.specs.Prelude.{◌≡◌, ◌≤◌, ◌↔◌, IsTrue, All, Bool, length};
ghost use Rattle.std.specs.Float.Ieee.Scale.{finite};
ghost use Rattle.numbers.specs.Arithmetic.{◌+₆₄◌, ◌-₆₄◌, ◌*₆₄◌, ◌/₆₄◌, 1f};
ghost use Rattle.surfaces.specs.Types.{backwards, ray_of, no_ray, dot_of, vector_length, over_of, point_at, all_finite};
ghost use Rattle.surfaces.specs.Types.{ray_finite, both_finite, landing_finite, hit_finite, no_coefficients};
ghost use Rattle.surfaces.specs.Types.{no_polynomial, coefficients_good, terms};

use numbers::{is_finite, sqrt};

#[derive(Clone, Copy)]
pub struct Vec3 {
    pub x: f64,
    pub y: f64,
    pub z: f64,
}

#[derive(Clone, Copy)]
pub struct Ray {
    pub origin: Vec3,
    pub direction: Vec3,
}

// Six numbers, as C hands a ray over and as the rule takes it.
#[tactic(auto, unfolding(crate::specs::Types::ray_of))]
pub fn ray_of(ox: f64, oy: f64, oz: f64, dx: f64, dy: f64, dz: f64) -> Ray
    ensures { result ≡ ray_of ox oy oz dx dy dz }
{
    Ray {
        origin: Vec3 {
            x: ox,
            y: oy,
            z: oz,
        },
        direction: Vec3 {
            x: dx,
            y: dy,
            z: dz,
        },
    }
}

// A ray that is none, where an answer has no ray.
#[tactic(auto, unfolding(crate::specs::Types::ray_of), using(numbers::proofs::Literals::literals))]
pub fn no_ray() -> Ray
    ensures { result ≡ no_ray }
{
    ray_of(0.0, 0.0, 0.0, 0.0, 0.0, 0.0)
}

// Where a ray comes to a surface: so far along the ray, at this point.
#[derive(Clone, Copy)]
pub struct Landing {
    pub t: f64,
    pub point: Vec3,
}

// The Rust's record: no Landing with more, so that its fields are the Rust's own.
#[derive(Clone, Copy)]
pub struct HitRecord {
    pub t: f64,
    pub point: Vec3,
    pub normal: Vec3,
    pub front: bool,
}

// One number for each meridian: slopes, or curvatures.
#[derive(Clone, Copy)]
pub struct Meridians {
    pub x: f64,
    pub y: f64,
}

// The conic section of a curvature and a conic constant: a conic's or an asphere's base, or one meridian.
#[derive(Clone, Copy)]
pub(crate) struct Section {
    pub c: f64,
    pub k: f64,
}

impl Section {
    // What is under its root, at so much from the axis, squared.
    #[tactic(auto, using(numbers::proofs::Literals::literals))]
    pub(crate) fn radicand(self, r2: f64) -> f64
        ensures { result ≡ 1f -₆₄ (1f +₆₄ self.k) *₆₄ self.c *₆₄ self.c *₆₄ r2 }
    {
        1.0 - (1.0 + self.k) * self.c * self.c * r2
    }

    // The sag there, from that root.
    #[tactic(auto, using(numbers::proofs::Literals::literals))]
    pub(crate) fn sag(self, r2: f64, root: f64) -> f64
        ensures { result ≡ (self.c *₆₄ r2) /₆₄ (1f +₆₄ root) }
    {
        (self.c * r2) / (1.0 + root)
    }
}

pub const MOST_COEFFICIENTS: usize = 8;

// The first `count` values are the coefficients, and the others are not read. The array is fixed, since there is no
// heap; a count above 8 is possible, and refused.
#[derive(Clone, Copy)]
pub struct Coefficients {
    pub count: usize,
    pub values: [f64; MOST_COEFFICIENTS],
}

impl Coefficients {
    pub fn terms(&self) -> &[f64]
        ensures terms { result.now ≡ terms self.now }
        ensures most { length result.now ≤ 8 }
    {
        &self.values[..self.count.min(MOST_COEFFICIENTS)]
    }

    // At most 8, all of them finite.
    pub(crate) fn is_good(&self) -> bool
        ensures { result ≡ coefficients_good self.now }
    {
        (self.count <= MOST_COEFFICIENTS) & row_finite(self.terms())
    }
}

fn row_finite(l: &[f64]) -> bool
    ensures { IsTrue result ↔ All (λ x. IsTrue (finite x)) l.now }
{
    l.iter().all(|x| is_finite(*x))
}

// An asphere's coefficients of even and of odd powers of r, which go about together.
#[derive(Clone, Copy)]
pub struct Polynomial {
    pub even: Coefficients,
    pub odd: Coefficients,
}

// Against the light, which travels along z.
#[tactic(auto, using(numbers::proofs::Literals::literals))]
pub(crate) fn backwards() -> Vec3
    ensures { result ≡ backwards }
{
    Vec3 {
        x: 0.0,
        y: 0.0,
        z: -1.0,
    }
}

#[tactic(auto, unfolding(crate::specs::Types::dot_of))]
pub(crate) fn dot(a: Vec3, b: Vec3) -> f64
    ensures { result ≡ dot_of a b }
{
    a.x * b.x + a.y * b.y + a.z * b.z
}

#[tactic(auto, unfolding(crate::specs::Types::vector_length))]
pub fn length(a: Vec3) -> f64
    ensures { result ≡ vector_length a }
{
    sqrt(dot(a, a))
}

#[tactic(auto, unfolding(crate::specs::Types::over_of))]
pub(crate) fn over(a: Vec3, s: f64) -> Vec3
    ensures { result ≡ over_of a s }
{
    Vec3 {
        x: a.x / s,
        y: a.y / s,
        z: a.z / s,
    }
}

// What has numbers, which are all finite or not.
pub trait Finite {
    ghost fine: { Self → Bool };

    fn all_finite(self) -> bool
        ensures { result ≡ fine self };
}

impl Finite for f64 {
    ghost fine = { finite };

    fn all_finite(self) -> bool {
        is_finite(self)
    }
}

impl Finite for Vec3 {
    ghost fine = { all_finite };

    #[tactic(auto, unfolding(crate::specs::Types::all_finite))]
    fn all_finite(self) -> bool {
        is_finite(self.x) & is_finite(self.y) & is_finite(self.z)
    }
}

impl Finite for Ray {
    ghost fine = { ray_finite };

    #[tactic(auto, unfolding(crate::specs::Types::ray_finite))]
    fn all_finite(self) -> bool {
        self.origin.all_finite() & self.direction.all_finite()
    }
}

impl Finite for Meridians {
    ghost fine = { both_finite };

    #[tactic(auto, unfolding(crate::specs::Types::both_finite))]
    fn all_finite(self) -> bool {
        is_finite(self.x) & is_finite(self.y)
    }
}

impl Finite for Landing {
    ghost fine = { landing_finite };

    #[tactic(auto, unfolding(crate::specs::Types::landing_finite))]
    fn all_finite(self) -> bool {
        is_finite(self.t) & self.point.all_finite()
    }
}

impl Finite for HitRecord {
    ghost fine = { hit_finite };

    #[tactic(auto, unfolding(crate::specs::Types::hit_finite))]
    fn all_finite(self) -> bool {
        is_finite(self.t) & self.point.all_finite() & self.normal.all_finite()
    }
}

#[tactic(auto, unfolding(crate::specs::Types::point_at))]
pub(crate) fn point_at(ray: Ray, t: f64) -> Vec3
    ensures { result ≡ point_at ray t }
{
    Vec3 {
        x: ray.origin.x + t * ray.direction.x,
        y: ray.origin.y + t * ray.direction.y,
        z: ray.origin.z + t * ray.direction.z,
    }
}

#[tactic(auto, using(numbers::proofs::Literals::literals))]
pub fn no_coefficients() -> Coefficients
    ensures { result ≡ no_coefficients }
{
    Coefficients {
        count: 0usize,
        values: [0.0; MOST_COEFFICIENTS],
    }
}

// Where a surface has no powers of r.
pub fn no_polynomial() -> Polynomial
    ensures { result ≡ no_polynomial }
{
    Polynomial {
        even: no_coefficients(),
        odd: no_coefficients(),
    }
}
