// The sags that Newton's method meets, each with what its slopes at the same point share with it.
ghost use Rattle.std.specs.Prelude.{◌≡◌};
ghost use Rattle.numbers.specs.Arithmetic.{◌-₆₄◌, ◌<₆₄◌, 0f, 1e-15};
ghost use Rattle.numbers.specs.Basic.{magnitude};
ghost use Rattle.surfaces.specs.Refusal.{told_number, told_pair};
ghost use Rattle.surfaces.specs.Sags.{edge_root};
ghost use Rattle.surfaces.specs.Types.{terms};
ghost use Rattle.surfaces.specs.Asphere.{power_sum, slope_sum, radial_slopes, first_or0, odd_on_axis};
ghost use Rattle.surfaces.specs.Biconic.{numerator_of, biconic_radicand, on_axis, meridian_slope, biconic_slopes_at};
ghost use Rattle.surfaces.specs.Biconic.{biconic_slopes, circle_slopes, toroid_slopes};
ghost use Rattle.surfaces.specs.Biconic.{base_curve_radicand, base_curve_sag, slope_radicand, base_curve_slope};
ghost use Rattle.surfaces.specs.Biconic.{circle_slopes_at};
ghost use Rattle.surfaces.specs.Parts.{base_root, base_sag_from, base_slope_from, told_within, no_depth};
ghost use Rattle.surfaces.specs.Parts.{beyond_refusal};
ghost use Rattle.surfaces.specs.Parts.{even_depth, even_slope_from, even_slopes_from, odd_depth, odd_base_slope_from};
ghost use Rattle.surfaces.specs.Parts.{odd_slope_from, odd_slopes_from, biconic_depth, biconic_slopes_from};
ghost use Rattle.surfaces.specs.Parts.{circle_depth, toroid_depth, toroid_slopes_from};

use crate::conic::sign_of;
use crate::refusal::Refusal;
use crate::types::{Coefficients, Meridians, Polynomial, Section};
use crate::waits::{base_curve_guess, root_again, root_beside};
use numbers::{abs, is_finite, max, sqrt};

// How far below 0 a radicand may lie in every sag but the conic's.
const RADICAND_TOLERANCE: f64 = 1e-12;

// A raw sag, with what the slopes at the same point need of it: its root; an asphere's r, a biconic's numerator or a
// toroid's circle; and the root of a toroid's base curve.
#[derive(Clone, Copy)]
pub(crate) struct Depth {
    pub sag: f64,
    pub root: f64,
    pub part: f64,
    pub base: f64,
}

// Why there is none: a Refusal, which can hold two numbers, would slow down every pass.
#[derive(Clone, Copy)]
pub(crate) enum Beyond {
    Outside,
    Invalid,
}

impl From<Beyond> for Refusal {
    ghost from_gives = { λ b e. e ≡ beyond_refusal b };

    fn from(b: Beyond) -> Refusal {
        match b {
            Beyond::Outside => Refusal::GeometryOutsideAperture,
            Beyond::Invalid => Refusal::InvalidParameter,
        }
    }
}

// The root in every sag but the conic's: a radicand a little below 0 counts as 0.
#[tactic(auto)]
pub(crate) fn edge_root(radicand: f64) -> Result<f64, Beyond>
    ensures { told_within 0f result ≡ edge_root radicand }
{
    edge_root_beside(radicand, radicand)
}

// The same, where `near` is a guess at the radicand that is known earlier.
#[tactic(auto, unfolding(crate::specs::Sags::edge_root), using(numbers::proofs::Literals::literals))]
fn edge_root_beside(radicand: f64, near: f64) -> Result<f64, Beyond>
    ensures { told_within 0f result ≡ edge_root radicand }
{
    if radicand < -RADICAND_TOLERANCE {
        return Err(Beyond::Outside);
    }
    Ok(root_beside(max(radicand, 0.0), max(near, 0.0)))
}

// What an asphere's base brings to its sag and slopes.
impl Section {
    #[tactic(auto, using(numbers::proofs::Literals::literals))]
    fn is_flat(self) -> bool
        ensures { result ≡ (magnitude self.c <₆₄ 1e-15) }
    {
        abs(self.c) < 1e-15
    }

    // The base's root, which is 1 where it is flat. `near` is a guess at r2, which shortens the wait and changes no
    // answer.
    #[tactic(auto, unfolding(crate::specs::Parts::base_root), using(numbers::proofs::Literals::literals))]
    pub(crate) fn base_root(self, r2: f64, near: f64) -> Result<f64, Beyond>
        ensures { told_within 0f result ≡ base_root self.c self.k r2 }
    {
        if self.is_flat() {
            return Ok(1.0);
        }
        edge_root_beside(self.radicand(r2), self.radicand(near))
    }

    #[tactic(auto, unfolding(crate::specs::Parts::base_sag_from), using(numbers::proofs::Literals::literals))]
    fn base_sag(self, r2: f64, root: f64) -> f64
        ensures { result ≡ base_sag_from self.c r2 root }
    {
        if self.is_flat() {
            0.0
        } else {
            self.sag(r2, root)
        }
    }

    #[tactic(auto, unfolding(crate::specs::Parts::base_slope_from), using(numbers::proofs::Literals::literals))]
    fn base_slope(self, r: f64, root: f64) -> Result<f64, Refusal>
        ensures { told_number result ≡ base_slope_from self.c r root }
    {
        if self.is_flat() {
            return Ok(0.0);
        }
        if root <= 1e-15 {
            return Err(Refusal::NumericalSingularity);
        }
        Ok((self.c * r) / root)
    }

    // The base's slope in OddAsphere::normal, whose root is at least 1e-15.
    #[tactic(auto, unfolding(crate::specs::Parts::odd_base_slope_from), using(numbers::proofs::Literals::literals))]
    fn odd_base_slope(self, r: f64, root: f64) -> f64
        ensures { result ≡ odd_base_slope_from self.c r root }
    {
        if self.is_flat() {
            0.0
        } else {
            (self.c * r) / max(root, 1e-15)
        }
    }
}

impl Coefficients {
    // Each times its power of r: the first power is given, the next is r2 times it.
    #[tactic(auto, unfolding(crate::specs::Asphere::power_sum_from), using(crate::proofs::Terms::sums))]
    fn power_sum(&self, power: f64, r2: f64) -> f64
        ensures { result ≡ power_sum (terms self.now) power r2 }
    {
        let mut sum = 0.0;
        let mut p = power;
        let terms = self.terms();
        for term in terms {
            sum += *term * p;
            p *= r2;
        }
        sum
    }

    // The slope of such a sum: each term also times its exponent, the first of which is given.
    #[tactic(auto, unfolding(crate::specs::Asphere::slope_sum_from), using(crate::proofs::Terms::sums))]
    fn slope_sum(&self, exponent: f64, power: f64, r2: f64) -> f64
        ensures { result ≡ slope_sum (terms self.now) exponent power r2 }
    {
        let mut sum = 0.0;
        let mut p = power;
        let terms = self.terms();
        for (i, term) in terms.iter().enumerate() {
            let e = 2.0 * i as f64 + exponent;
            sum += e * *term * p;
            p *= r2;
        }
        sum
    }

    #[tactic(auto, using(crate::proofs::Terms::sums))]
    pub(crate) fn first_or_zero(&self) -> f64
        ensures { result ≡ first_or0 (terms self.now) }
    {
        self.terms().first().copied().unwrap_or(0.0)
    }
}

// The Rust's EvenAsphere::sag, z = c r² / (1 + √(1 - (1 + k) c² r²)) + a₁ r² + a₂ r⁴ + .., in mm from the vertex, for r
// from 0 up to where the root is real. `near` is a guess at r * r.
#[tactic(auto, unfolding(crate::specs::Parts::even_depth), using(numbers::proofs::Literals::literals))]
pub(crate) fn even_depth(s: Section, a: &Coefficients, r: f64, near: f64) -> Result<Depth, Beyond>
    ensures { told_within no_depth result ≡ even_depth s.c s.k a.now r }
{
    if !is_finite(r) | (r < 0.0) {
        return Err(Beyond::Invalid);
    }
    let r2 = r * r;
    let root = s.base_root(r2, near)?;
    Ok(Depth {
        sag: s.base_sag(r2, root) + a.power_sum(r2, r2),
        root,
        part: r,
        base: 0.0,
    })
}

// dz/dr = c r / s + 2 a₁ r + 4 a₂ r³ + .., from the base's root s; singular where that is about 0.
#[tactic(auto, unfolding(crate::specs::Parts::even_slope_from), using(crate::proofs::Refusals::refusals))]
pub(crate) fn even_slope_from(
    s: Section,
    a: &Coefficients,
    r: f64,
    root: f64,
) -> Result<f64, Refusal>
    ensures { told_number result ≡ even_slope_from s.c a.now r root }
{
    let base = s.base_slope(r, root)?;
    Ok(base + a.slope_sum(2.0, r, r * r))
}

// ∂z/∂x = dz/dr x / r and ∂z/∂y = dz/dr y / r, and `near` on the axis.
#[tactic(auto, unfolding(crate::specs::Asphere::radial_slopes), using(numbers::proofs::Literals::literals))]
pub(crate) fn radial_slopes(near: Meridians, d: f64, x: f64, y: f64, r: f64) -> Meridians
    ensures { result ≡ radial_slopes near d x y r }
{
    if r > 1e-14 {
        Meridians {
            x: d * (x / r),
            y: d * (y / r),
        }
    } else {
        near
    }
}

// The slopes of a Newton pass, from what the sag there had.
#[tactic(auto, unfolding(crate::specs::Parts::even_slopes_from), using(crate::proofs::Refusals::refusals))]
pub(crate) fn even_slopes_from(
    s: Section,
    a: &Coefficients,
    x: f64,
    y: f64,
    d: Depth,
) -> Result<Meridians, Refusal>
    ensures { told_pair result ≡ even_slopes_from s.c a.now x y d.part d.root }
{
    let slope = even_slope_from(s, a, d.part, d.root)?;
    Ok(radial_slopes(Meridians { x: 0.0, y: 0.0 }, slope, x, y, d.part))
}

// Apart from the even one, as in the rules: one for both would add an even asphere's missing terms in each pass.
// The Rust's OddAsphere::sag, the even one's and b₁ r + b₂ r³ + ... `near` is a guess at r * r.
#[tactic(auto, unfolding(crate::specs::Parts::odd_depth), using(numbers::proofs::Literals::literals))]
pub(crate) fn odd_depth(s: Section, a: &Polynomial, r: f64, near: f64) -> Result<Depth, Beyond>
    ensures { told_within no_depth result ≡ odd_depth s.c s.k a.now r }
{
    if !is_finite(r) | (r < 0.0) {
        return Err(Beyond::Invalid);
    }
    let r2 = r * r;
    let root = s.base_root(r2, near)?;
    Ok(Depth {
        sag: s.base_sag(r2, root) + a.even.power_sum(r2, r2) + a.odd.power_sum(r, r2),
        root,
        part: r,
        base: 0.0,
    })
}

// dz/dr = c r / s + 2 a₁ r + 4 a₂ r³ + .. + b₁ + 3 b₂ r² + .., from the base's root s; nowhere singular.
#[tactic(auto, unfolding(crate::specs::Parts::odd_slope_from), using(numbers::proofs::Literals::literals))]
pub(crate) fn odd_slope_from(s: Section, a: &Polynomial, r: f64, root: f64) -> f64
    ensures { result ≡ odd_slope_from s.c a.now r root }
{
    let r2 = r * r;
    s.odd_base_slope(r, root) + a.even.slope_sum(2.0, r, r2) + a.odd.slope_sum(1.0, 1.0, r2)
}

// Where an odd asphere's normal is the axis: at r about 0, unless b₁ makes a cone there.
#[tactic(auto, unfolding(crate::specs::Asphere::odd_on_axis), using(numbers::proofs::Literals::literals))]
pub(crate) fn odd_on_axis(a: &Polynomial, r: f64) -> bool
    ensures { result ≡ odd_on_axis a.now r }
{
    (r < 1e-15) & (abs(a.odd.first_or_zero()) < 1e-14)
}

// The slopes of a Newton pass, from what the sag there had. Near the axis the slope counts as along x.
#[tactic(auto, unfolding(crate::specs::Parts::odd_slopes_from), using(numbers::proofs::Literals::literals))]
pub(crate) fn odd_slopes_from(s: Section, a: &Polynomial, x: f64, y: f64, d: Depth) -> Meridians
    ensures { result ≡ odd_slopes_from s.c a.now x y d.part d.root }
{
    if odd_on_axis(a, d.part) {
        return Meridians { x: 0.0, y: 0.0 };
    }
    let slope = odd_slope_from(s, a, d.part, d.root);
    radial_slopes(Meridians { x: slope, y: 0.0 }, slope, x, y, d.part)
}

#[tactic(auto, unfolding(crate::specs::Biconic::on_axis), using(numbers::proofs::Literals::literals))]
fn on_axis(x: f64, y: f64) -> bool
    ensures { result ≡ on_axis x y }
{
    (abs(x) < 1e-15) & (abs(y) < 1e-15)
}

// A biconic's two meridians.
#[derive(Clone, Copy)]
pub(crate) struct Biconic {
    pub x: Section,
    pub y: Section,
}

impl Biconic {
    // The sag is this over 1 and its root.
    #[tactic(auto, unfolding(crate::specs::Biconic::numerator_of))]
    fn numerator(self, x: f64, y: f64) -> f64
        ensures { result ≡ numerator_of self.x.c self.y.c x y }
    {
        self.x.c * x * x + self.y.c * y * y
    }

    #[tactic(auto, unfolding(crate::specs::Biconic::biconic_radicand), using(numbers::proofs::Literals::literals))]
    fn radicand(self, x: f64, y: f64) -> f64
        ensures { result ≡ biconic_radicand self.x.c self.x.k self.y.c self.y.k x y }
    {
        1.0 - (1.0 + self.x.k) * self.x.c * self.x.c * x * x
            - (1.0 + self.y.k) * self.y.c * self.y.c * y * y
    }

    // The Rust's BiconicSurface::sag, in mm from the vertex, where the root is real:
    // z = (cx x² + cy y²) / (1 + √(1 - (1 + kx) cx² x² - (1 + ky) cy² y²)).
    #[tactic(auto, unfolding(crate::specs::Parts::biconic_depth), using(numbers::proofs::Literals::literals))]
    pub(crate) fn depth(self, x: f64, y: f64) -> Result<Depth, Beyond>
        ensures { told_within no_depth result ≡ biconic_depth self.x.c self.x.k self.y.c self.y.k x y }
    {
        if !(is_finite(x) & is_finite(y)) {
            return Err(Beyond::Invalid);
        }
        let part = self.numerator(x, y);
        let root = edge_root(self.radicand(x, y))?;
        Ok(Depth {
            sag: part / (1.0 + root),
            root,
            part,
            base: 0.0,
        })
    }

    // The slopes off the axis, from the sag's numerator and root; singular where the root is about 0.
    #[tactic(auto, unfolding(crate::specs::Biconic::biconic_slopes_at), using(numbers::proofs::Literals::literals))]
    fn slopes_at(self, x: f64, y: f64, num: f64, root: f64) -> Result<Meridians, Refusal>
        ensures { told_pair result ≡ biconic_slopes_at self.x.c self.x.k self.y.c self.y.k x y num root }
    {
        if root <= 1e-14 {
            return Err(Refusal::NumericalSingularity);
        }
        Ok(Meridians {
            x: meridian_slope(self.x, x, num, root),
            y: meridian_slope(self.y, y, num, root),
        })
    }

    // The Rust's BiconicSurface::derivatives, ∂z/∂x and ∂z/∂y, which are 0 on the axis.
    #[tactic(auto, unfolding(crate::specs::Biconic::biconic_slopes), using(numbers::proofs::Literals::literals))]
    pub(crate) fn slopes(self, x: f64, y: f64) -> Result<Meridians, Refusal>
        ensures { told_pair result ≡ biconic_slopes self.x.c self.x.k self.y.c self.y.k x y }
    {
        if on_axis(x, y) {
            return Ok(Meridians { x: 0.0, y: 0.0 });
        }
        let root = edge_root(self.radicand(x, y))?;
        self.slopes_at(x, y, self.numerator(x, y), root)
    }

    // The slopes of a Newton pass, from what the sag there had.
    #[tactic(auto, unfolding(crate::specs::Parts::biconic_slopes_from), using(numbers::proofs::Literals::literals))]
    pub(crate) fn slopes_from(self, x: f64, y: f64, d: Depth) -> Result<Meridians, Refusal>
        ensures { told_pair result
            ≡ biconic_slopes_from self.x.c self.x.k self.y.c self.y.k x y d.part d.root }
    {
        if on_axis(x, y) {
            return Ok(Meridians { x: 0.0, y: 0.0 });
        }
        self.slopes_at(x, y, d.part, d.root)
    }
}

// The slope along one meridian, from the sag's numerator N and root s:
// ∂z/∂x = 2 c x / (1 + s) + N (1 + k) c² x / (s (1 + s)²).
#[tactic(auto, unfolding(crate::specs::Biconic::meridian_slope), using(numbers::proofs::Literals::literals))]
fn meridian_slope(m: Section, x: f64, num: f64, s: f64) -> f64
    ensures { result ≡ meridian_slope m.c m.k x num s }
{
    let one_plus_s = 1.0 + s;
    (2.0 * m.c * x) / one_plus_s
        + (num * (1.0 + m.k) * m.c * m.c * x) / (s * (one_plus_s * one_plus_s))
}

// A toroid's circle and base curve.
#[derive(Clone, Copy)]
pub(crate) struct Toroid {
    pub rx: f64,
    pub base: Section,
}

impl Toroid {
    #[tactic(auto, unfolding(crate::specs::Biconic::base_curve_radicand))]
    fn base_radicand(self, y: f64) -> f64
        ensures { result ≡ base_curve_radicand self.base.c self.base.k y }
    {
        self.base.radicand(y * y)
    }

    // The rolled circle's radius at y, from the base curve's root.
    #[tactic(auto, unfolding(crate::specs::Biconic::base_curve_sag))]
    fn circle(self, y: f64, root: f64) -> f64
        ensures { result ≡ self.rx -₆₄ base_curve_sag self.base.c y root }
    {
        self.rx - self.base.sag(y * y, root)
    }

    // The rolled circle's sag, from its radius `term` at y. `near` is a guess at that radius, which shortens the wait
    // and changes no answer.
    #[tactic(auto, unfolding(crate::specs::Parts::circle_depth))]
    fn circle_depth(self, x: f64, term: f64, base: f64, near: f64) -> Result<Depth, Beyond>
        ensures { told_within no_depth result ≡ circle_depth self.rx x term base }
    {
        let root = edge_root_beside(term * term - x * x, near * near - x * x)?;
        Ok(Depth {
            sag: self.rx - sign_of(self.rx) * root,
            root,
            part: term,
            base,
        })
    }

    // The Rust's ToroidalSurface::sag, which has no test of its arguments: z = rx - sign(rx) √((rx - w)² - x²), in mm
    // from the vertex, where both roots are real and w = cy y² / (1 + √(1 - (1 + ky) cy² y²)) is the base curve's sag
    // in the y-z plane.
    #[tactic(auto, unfolding(crate::specs::Parts::toroid_depth))]
    pub(crate) fn depth(self, x: f64, y: f64) -> Result<Depth, Beyond>
        ensures { told_within no_depth result ≡ toroid_depth self.rx self.base.c self.base.k x y }
    {
        let base = edge_root(self.base_radicand(y))?;
        let near = self.rx - base_curve_guess(self.base.c, self.base.k, y);
        self.circle_depth(x, self.circle(y, base), base, near)
    }

    // The radicand of the base curve's slope, which groups otherwise than the sag's.
    #[tactic(auto, unfolding(crate::specs::Biconic::slope_radicand), using(numbers::proofs::Literals::literals))]
    fn slope_radicand(self, y: f64) -> f64
        ensures { result ≡ slope_radicand self.base.c self.base.k y }
    {
        max(
            1.0 - (1.0 + self.base.k) * self.base.c * self.base.c * y * y,
            0.0,
        )
    }

    #[tactic(auto, unfolding(crate::specs::Biconic::base_curve_slope), using(numbers::proofs::Literals::literals))]
    fn base_slope(self, y: f64, root: f64) -> f64
        ensures { result ≡ base_curve_slope self.base.c y root }
    {
        if root > 1e-14 {
            (self.base.c * y) / root
        } else {
            0.0
        }
    }

    // ∂z/∂x = sign(rx) x / s and ∂z/∂y = sign(rx) (rx - w) / s dw/dy, where the circle has the root s and d is dw/dy =
    // cy y / √..
    #[tactic(auto, unfolding(crate::specs::Biconic::circle_slopes_at))]
    fn slopes_at(self, x: f64, term: f64, s: f64, d: f64) -> Meridians
        ensures { result ≡ circle_slopes_at self.rx x term s d }
    {
        let sign = sign_of(self.rx);
        Meridians {
            x: sign * x / s,
            y: sign * (term / s) * d,
        }
    }

    // The slopes where the rolled circle has the radius `term` at y; none at its edge.
    #[tactic(auto, unfolding(crate::specs::Biconic::circle_slopes), using(numbers::proofs::Literals::literals))]
    fn circle_slopes(self, x: f64, y: f64, term: f64) -> Result<Meridians, Refusal>
        ensures { told_pair result ≡ circle_slopes self.rx self.base.c self.base.k x y term }
    {
        let radicand = term * term - x * x;
        if radicand <= 1e-14 {
            return Err(Refusal::GeometryOutsideAperture);
        }
        let d = self.base_slope(y, sqrt(self.slope_radicand(y)));
        Ok(self.slopes_at(x, term, sqrt(radicand), d))
    }

    // The Rust's ToroidalSurface::derivatives, ∂z/∂x and ∂z/∂y.
    #[tactic(auto, unfolding(crate::specs::Biconic::toroid_slopes))]
    pub(crate) fn slopes(self, x: f64, y: f64) -> Result<Meridians, Refusal>
        ensures { told_pair result ≡ toroid_slopes self.rx self.base.c self.base.k x y }
    {
        let base = edge_root(self.base_radicand(y))?;
        self.circle_slopes(x, y, self.circle(y, base))
    }

    // The slopes of a Newton pass, from what the sag there had.
    #[tactic(auto, unfolding(crate::specs::Parts::toroid_slopes_from), using(numbers::proofs::Literals::literals))]
    pub(crate) fn slopes_from(self, x: f64, y: f64, d: Depth) -> Result<Meridians, Refusal>
        ensures { told_pair result
            ≡ toroid_slopes_from self.rx self.base.c self.base.k x y d.part d.root d.base }
    {
        let radicand = d.part * d.part - x * x;
        if radicand <= 1e-14 {
            return Err(Refusal::GeometryOutsideAperture);
        }
        let root = root_again(radicand, max(radicand, 0.0), d.root);
        let base = root_again(
            self.slope_radicand(y),
            max(self.base_radicand(y), 0.0),
            d.base,
        );
        Ok(self.slopes_at(x, d.part, root, self.base_slope(y, base)))
    }
}
