// Even and odd aspheres: a conic base and a sum of powers of r, in mm. The even one has z = base + Σ aᵢ r²ⁱ, the odd
// one also Σ bᵢ r²ⁱ⁻¹. Signs and units of c and k are the conic's; aᵢ is in mm¹⁻²ⁱ.
ghost use Rattle.std.specs.Prelude.{◌≡◌};
ghost use Rattle.surfaces.specs.Refusal.{told_number, told_pair, told_direction, told_crossing, told_even};
ghost use Rattle.surfaces.specs.Refusal.{told_odd};
ghost use Rattle.surfaces.specs.Asphere.{even_sag, even_slope, length_of, facing_of, normal_of, even_facing};
ghost use Rattle.surfaces.specs.Asphere.{even_normal, even_good, new_even_answer, even_sag_answer, even_slope_answer};
ghost use Rattle.surfaces.specs.Asphere.{even_normal_answer, even_paraxial_answer, even_crossing_answer, odd_sag};
ghost use Rattle.surfaces.specs.Asphere.{odd_slopes_at, odd_normal, odd_good, new_odd_answer, powers_of};
ghost use Rattle.surfaces.specs.Asphere.{odd_sag_answer};
ghost use Rattle.surfaces.specs.Asphere.{odd_normal_answer, odd_crossing_answer};

use crate::newton::{Approach, Profile};
use crate::refusal::{Refusal, checked, demand};
use crate::sags::{
    even_depth, even_slope_from, odd_depth, odd_on_axis, odd_slope_from, radial_slopes,
};
use crate::types::{
    Coefficients, Landing, Meridians, Polynomial, Ray, Section, Vec3, backwards, no_coefficients,
};
use numbers::{is_finite, sqrt};

// Rust's curvature, conic_constant, semi_diameter_mm and coefficients.
#[derive(Clone, Copy)]
pub struct EvenAsphere {
    pub curvature: f64,
    pub conic: f64,
    pub semi: f64,
    pub coefficients: Coefficients,
}

// The Rust's EvenAsphere::sag, c r² / (1 + √(1 - (1 + k) c² r²)) + Σ aᵢ r²ⁱ.
#[tactic(auto, using(crate::proofs::Depths::even_sag_lem))]
fn raw_even_sag(s: Section, a: &Coefficients, r: f64) -> Result<f64, Refusal>
    ensures { told_number result ≡ even_sag s.c s.k a.now r }
{
    Ok(even_depth(s, a, r, r * r)?.sag)
}

// The Rust's EvenAsphere::radial_derivative, c r / √(1 - (1 + k) c² r²) + Σ 2i aᵢ r²ⁱ⁻¹, with a guess at r * r.
#[tactic(auto, using(numbers::proofs::Literals::literals, crate::proofs::Depths::even_slope_lem))]
fn raw_even_slope(s: Section, a: &Coefficients, r: f64, near: f64) -> Result<f64, Refusal>
    ensures { told_number result ≡ even_slope s.c s.k a.now r }
{
    if !is_finite(r) | (r < 0.0) {
        return Err(Refusal::InvalidParameter);
    }
    let root = s.base_root(r * r, near)?;
    even_slope_from(s, a, r, root)
}

// The length of (∂z/∂x, ∂z/∂y, -1), in which a surface with these slopes faces.
#[tactic(auto, unfolding(crate::specs::Asphere::length_of), using(numbers::proofs::Literals::literals))]
fn length_of(dx: f64, dy: f64) -> f64
    ensures { result ≡ length_of dx dy }
{
    sqrt(dx * dx + dy * dy + 1.0)
}

// The unit normal of such a surface, towards -z.
#[tactic(auto, unfolding(crate::specs::Asphere::facing_of), using(numbers::proofs::Literals::literals))]
fn facing(dx: f64, dy: f64, norm: f64) -> Vec3
    ensures { result ≡ facing_of dx dy norm }
{
    Vec3 {
        x: dx / norm,
        y: dy / norm,
        z: -1.0 / norm,
    }
}

// The unit normal of slopes; it has no test of its own.
#[tactic(auto, unfolding(crate::specs::Asphere::normal_of), using(crate::proofs::Refusals::never_done))]
pub(crate) fn normal_of(m: Result<Meridians, Refusal>) -> Result<Vec3, Refusal>
    ensures { told_direction result ≡ normal_of (told_pair m) }
{
    let m = m?;
    Ok(facing(m.x, m.y, length_of(m.x, m.y)))
}

// The last test of EvenAsphere::normal, which no other normal has.
#[tactic(auto, unfolding(crate::specs::Asphere::even_facing), using(numbers::proofs::Literals::literals))]
fn even_facing(dx: f64, dy: f64) -> Result<Vec3, Refusal>
    ensures { told_direction result ≡ even_facing dx dy }
{
    let norm = length_of(dx, dy);
    if (norm <= 1e-15) | !is_finite(norm) {
        return Err(Refusal::NumericalSingularity);
    }
    Ok(facing(dx, dy, norm))
}

// The Rust's EvenAsphere::normal, the unit vector of (∂z/∂x, ∂z/∂y, -1), against the light; along the axis where r is
// about 0.
#[tactic(auto, unfolding(crate::specs::Asphere::even_normal), using(crate::proofs::Refusals::refusals))]
pub(crate) fn raw_even_normal(s: Section, a: &Coefficients, x: f64, y: f64) -> Result<Vec3, Refusal>
    ensures { told_direction result ≡ even_normal s.c s.k a.now x y }
{
    let sq = x * x + y * y;
    let r = sqrt(sq);
    if r < 1e-15 {
        return Ok(backwards());
    }
    let d = raw_even_slope(s, a, r, sq)?;
    even_facing(d * (x / r), d * (y / r))
}

impl EvenAsphere {
    #[tactic(auto, unfolding(crate::specs::Asphere::new_even_answer), using(numbers::proofs::Literals::literals))]
    pub fn new(
        curvature: f64,
        conic: f64,
        coefficients: Coefficients,
        semi: f64,
    ) -> Result<EvenAsphere, Refusal>
        ensures { told_even result ≡ new_even_answer curvature conic coefficients semi }
    {
        let surface = EvenAsphere {
            curvature,
            conic,
            semi,
            coefficients,
        };
        demand(surface.is_good() & !(semi < 0.0), Refusal::InvalidParameter)?;
        Ok(surface)
    }

    // As the other asphere's: a trait for one getter would be longer.
    fn base(self) -> Section
        ensures { result ≡ record { c = self.curvature; k = self.conic } }
    {
        Section {
            c: self.curvature,
            k: self.conic,
        }
    }

    // All its numbers are finite, and there are at most 8 coefficients.
    #[tactic(auto, unfolding(crate::specs::Asphere::even_good))]
    fn is_good(self) -> bool
        ensures { result ≡ even_good self }
    {
        is_finite(self.curvature)
            & is_finite(self.conic)
            & is_finite(self.semi)
            & self.coefficients.is_good()
    }

    #[tactic(auto, unfolding(crate::specs::Asphere::even_sag_answer))]
    pub fn sag(self, r: f64) -> Result<f64, Refusal>
        ensures { told_number result ≡ even_sag_answer self r }
    {
        demand(is_finite(r) & self.is_good(), Refusal::InvalidParameter)?;
        checked(raw_even_sag(self.base(), &self.coefficients, r))
    }

    #[tactic(auto, unfolding(crate::specs::Asphere::even_slope_answer))]
    pub fn radial_derivative(self, r: f64) -> Result<f64, Refusal>
        ensures { told_number result ≡ even_slope_answer self r }
    {
        demand(is_finite(r) & self.is_good(), Refusal::InvalidParameter)?;
        checked(raw_even_slope(self.base(), &self.coefficients, r, r * r))
    }

    #[tactic(auto, unfolding(crate::specs::Asphere::even_normal_answer))]
    pub fn normal(self, x: f64, y: f64) -> Result<Vec3, Refusal>
        ensures { told_direction result ≡ even_normal_answer self x y }
    {
        demand(
            is_finite(x) & is_finite(y) & self.is_good(),
            Refusal::InvalidParameter,
        )?;
        checked(raw_even_normal(self.base(), &self.coefficients, x, y))
    }

    #[tactic(auto, unfolding(crate::specs::Asphere::even_paraxial_answer), using(numbers::proofs::Literals::literals))]
    pub fn paraxial_curvature(self) -> Result<f64, Refusal>
        ensures { told_number result ≡ even_paraxial_answer self }
    {
        demand(self.is_good(), Refusal::InvalidParameter)?;
        checked(Ok(self.curvature + 2.0 * self.coefficients.first_or_zero()))
    }

    #[tactic(auto, unfolding(crate::specs::Asphere::even_crossing_answer))]
    pub fn intersect_ray(self, ray: Ray, vertex: f64) -> Result<Landing, Refusal>
        ensures { told_crossing result ≡ even_crossing_answer self ray vertex }
    {
        let approach = Approach {
            profile: Profile::Asphere {
                base: self.base(),
                odd: false,
            },
            polynomial: Polynomial {
                even: self.coefficients,
                odd: no_coefficients(),
            },
            semi: self.semi,
            vertex,
            ray,
        };
        approach.answer(self.is_good())
    }
}

// Rust's curvature, conic_constant, semi_diameter_mm, even_coefficients and odd_coefficients.
#[derive(Clone, Copy)]
pub struct OddAsphere {
    pub curvature: f64,
    pub conic: f64,
    pub semi: f64,
    pub even: Coefficients,
    pub odd: Coefficients,
}

// The Rust's OddAsphere::sag, c r² / (1 + √(1 - (1 + k) c² r²)) + Σ aᵢ r²ⁱ + Σ bᵢ r²ⁱ⁻¹.
#[tactic(auto, using(crate::proofs::Depths::odd_sag_lem))]
fn raw_odd_sag(s: Section, a: &Polynomial, r: f64) -> Result<f64, Refusal>
    ensures { told_number result ≡ odd_sag s.c s.k a.now r }
{
    Ok(odd_depth(s, a, r, r * r)?.sag)
}

// x, y, r and the square that r is the root of come apart, since the normal has worked all of them out.
// The slopes in OddAsphere::normal off the axis, with a guess at r * r. Near the axis the slope counts as along x.
#[tactic(auto, unfolding(crate::specs::Asphere::odd_slopes_at), using(crate::proofs::Depths::slopes))]
fn odd_slopes_at(
    s: Section,
    a: &Polynomial,
    x: f64,
    y: f64,
    r: f64,
    near: f64,
) -> Result<Meridians, Refusal>
    ensures { told_pair result ≡ odd_slopes_at s.c s.k a.now x y r }
{
    let root = s.base_root(r * r, near)?;
    let d = odd_slope_from(s, a, r, root);
    Ok(radial_slopes(Meridians { x: d, y: 0.0 }, d, x, y, r))
}

// The Rust's OddAsphere::normal, as the even one's, without a test of its length.
#[tactic(auto, unfolding(crate::specs::Asphere::odd_normal))]
pub(crate) fn raw_odd_normal(s: Section, a: &Polynomial, x: f64, y: f64) -> Result<Vec3, Refusal>
    ensures { told_direction result ≡ odd_normal s.c s.k a.now x y }
{
    let sq = x * x + y * y;
    let r = sqrt(sq);
    if odd_on_axis(a, r) {
        return Ok(backwards());
    }
    normal_of(odd_slopes_at(s, a, x, y, r, sq))
}

// As the even one's, each over a rule of its own: a trait would have to name all those rules, and is no plainer.
impl OddAsphere {
    #[tactic(auto, unfolding(crate::specs::Asphere::new_odd_answer), using(numbers::proofs::Literals::literals))]
    pub fn new(
        curvature: f64,
        conic: f64,
        even: Coefficients,
        odd: Coefficients,
        semi: f64,
    ) -> Result<OddAsphere, Refusal>
        ensures { told_odd result ≡ new_odd_answer curvature conic even odd semi }
    {
        let surface = OddAsphere {
            curvature,
            conic,
            semi,
            even,
            odd,
        };
        demand(surface.is_good() & !(semi < 0.0), Refusal::InvalidParameter)?;
        Ok(surface)
    }

    // As the other asphere's: a trait for one getter would be longer.
    fn base(self) -> Section
        ensures { result ≡ record { c = self.curvature; k = self.conic } }
    {
        Section {
            c: self.curvature,
            k: self.conic,
        }
    }

    #[tactic(auto, unfolding(crate::specs::Asphere::odd_good))]
    fn is_good(self) -> bool
        ensures { result ≡ odd_good self }
    {
        is_finite(self.curvature)
            & is_finite(self.conic)
            & is_finite(self.semi)
            & self.even.is_good()
            & self.odd.is_good()
    }

    fn powers(self) -> Polynomial
        ensures { result ≡ powers_of self }
    {
        Polynomial {
            even: self.even,
            odd: self.odd,
        }
    }

    #[tactic(auto, unfolding(crate::specs::Asphere::odd_sag_answer))]
    pub fn sag(self, r: f64) -> Result<f64, Refusal>
        ensures { told_number result ≡ odd_sag_answer self r }
    {
        demand(is_finite(r) & self.is_good(), Refusal::InvalidParameter)?;
        checked(raw_odd_sag(self.base(), &self.powers(), r))
    }

    #[tactic(auto, unfolding(crate::specs::Asphere::odd_normal_answer))]
    pub fn normal(self, x: f64, y: f64) -> Result<Vec3, Refusal>
        ensures { told_direction result ≡ odd_normal_answer self x y }
    {
        demand(
            is_finite(x) & is_finite(y) & self.is_good(),
            Refusal::InvalidParameter,
        )?;
        checked(raw_odd_normal(self.base(), &self.powers(), x, y))
    }

    // The Rust has none: Newton's method as for a biconic.
    #[tactic(auto, unfolding(crate::specs::Asphere::odd_crossing_answer))]
    pub fn intersect_ray(self, ray: Ray, vertex: f64) -> Result<Landing, Refusal>
        ensures { told_crossing result ≡ odd_crossing_answer self ray vertex }
    {
        let approach = Approach {
            profile: Profile::Asphere {
                base: self.base(),
                odd: true,
            },
            polynomial: self.powers(),
            semi: self.semi,
            vertex,
            ray,
        };
        approach.answer(self.is_good())
    }
}
