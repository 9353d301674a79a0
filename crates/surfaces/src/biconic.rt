// Biconic surfaces, which have a curvature and a conic constant for each meridian, and toroidal ones: a circle of
// radius rx about an axis along y, rolled along a base curve in the y-z plane. Lengths are in mm, curvatures in 1/mm,
// signed as a conic's.
ghost use Rattle.std.specs.Prelude.{◌≡◌};
ghost use Rattle.surfaces.specs.Refusal.{told_number, told_pair, told_direction, told_crossing, told_biconic};
ghost use Rattle.surfaces.specs.Refusal.{told_toroid};
ghost use Rattle.surfaces.specs.Conic.{radius_of};
ghost use Rattle.surfaces.specs.Biconic.{biconic_sag, biconic_slopes, biconic_normal, biconic_good};
ghost use Rattle.surfaces.specs.Biconic.{new_biconic_answer, biconic_sag_answer, biconic_slopes_answer};
ghost use Rattle.surfaces.specs.Biconic.{biconic_normal_answer, biconic_crossing_answer, biconic_paraxial_answer};
ghost use Rattle.surfaces.specs.Biconic.{toroid_sag, circle_slopes, toroid_slopes, toroid_normal, toroid_good};
ghost use Rattle.surfaces.specs.Biconic.{new_toroid_answer, toroid_sag_answer, toroid_slopes_answer};
ghost use Rattle.surfaces.specs.Biconic.{toroid_normal_answer, toroid_crossing_answer};

use crate::asphere::normal_of;
use crate::conic::radius_of;
use crate::newton::{Approach, Profile};
use crate::refusal::{Refusal, checked, demand};
use crate::sags::{Biconic, Toroid};
use crate::types::{Landing, Meridians, Ray, Section, Vec3, no_polynomial};
use numbers::is_finite;

impl Biconic {
    // The Rust's BiconicSurface::sag, (cx x² + cy y²) / (1 + √(1 - (1 + kx) cx² x² - (1 + ky) cy² y²)).
    #[tactic(auto, using(crate::proofs::Depths::biconic_sag_lem))]
    fn sag(self, x: f64, y: f64) -> Result<f64, Refusal>
        ensures { told_number result ≡ biconic_sag self.x.c self.x.k self.y.c self.y.k x y }
    {
        Ok(self.depth(x, y)?.sag)
    }

    // The Rust's BiconicSurface::normal.
    #[tactic(auto, unfolding(crate::specs::Biconic::biconic_normal))]
    pub(crate) fn normal(self, x: f64, y: f64) -> Result<Vec3, Refusal>
        ensures { told_direction result ≡ biconic_normal self.x.c self.x.k self.y.c self.y.k x y }
    {
        normal_of(self.slopes(x, y))
    }
}

#[derive(Clone, Copy)]
pub struct BiconicSurface {
    pub cx: f64,
    pub kx: f64,
    pub cy: f64,
    pub ky: f64,
    pub semi: f64,
}

impl BiconicSurface {
    #[tactic(auto, unfolding(crate::specs::Biconic::new_biconic_answer), using(numbers::proofs::Literals::literals))]
    pub fn new(cx: f64, kx: f64, cy: f64, ky: f64, semi: f64) -> Result<BiconicSurface, Refusal>
        ensures { told_biconic result ≡ new_biconic_answer cx kx cy ky semi }
    {
        let surface = BiconicSurface {
            cx,
            kx,
            cy,
            ky,
            semi,
        };
        demand(surface.is_good() & !(semi < 0.0), Refusal::InvalidParameter)?;
        Ok(surface)
    }

    fn meridians(self) -> Biconic
        ensures { result ≡ record { x = record { c = self.cx; k = self.kx }; y = record { c = self.cy; k = self.ky } } }
    {
        Biconic {
            x: Section {
                c: self.cx,
                k: self.kx,
            },
            y: Section {
                c: self.cy,
                k: self.ky,
            },
        }
    }

    #[tactic(auto, unfolding(crate::specs::Biconic::biconic_good))]
    fn is_good(self) -> bool
        ensures { result ≡ biconic_good self }
    {
        is_finite(self.cx)
            & is_finite(self.kx)
            & is_finite(self.cy)
            & is_finite(self.ky)
            & is_finite(self.semi)
    }

    pub fn rx_mm(self) -> f64
        ensures { result ≡ radius_of self.cx }
    {
        radius_of(self.cx)
    }

    pub fn ry_mm(self) -> f64
        ensures { result ≡ radius_of self.cy }
    {
        radius_of(self.cy)
    }

    #[tactic(auto, unfolding(crate::specs::Biconic::biconic_sag_answer))]
    pub fn sag(self, x: f64, y: f64) -> Result<f64, Refusal>
        ensures { told_number result ≡ biconic_sag_answer self x y }
    {
        demand(
            is_finite(x) & is_finite(y) & self.is_good(),
            Refusal::InvalidParameter,
        )?;
        checked(self.meridians().sag(x, y))
    }

    #[tactic(auto, unfolding(crate::specs::Biconic::biconic_slopes_answer))]
    pub fn derivatives(self, x: f64, y: f64) -> Result<Meridians, Refusal>
        ensures { told_pair result ≡ biconic_slopes_answer self x y }
    {
        demand(
            is_finite(x) & is_finite(y) & self.is_good(),
            Refusal::InvalidParameter,
        )?;
        checked(self.meridians().slopes(x, y))
    }

    #[tactic(auto, unfolding(crate::specs::Biconic::biconic_normal_answer))]
    pub fn normal(self, x: f64, y: f64) -> Result<Vec3, Refusal>
        ensures { told_direction result ≡ biconic_normal_answer self x y }
    {
        demand(
            is_finite(x) & is_finite(y) & self.is_good(),
            Refusal::InvalidParameter,
        )?;
        checked(self.meridians().normal(x, y))
    }

    #[tactic(auto, unfolding(crate::specs::Biconic::biconic_crossing_answer))]
    pub fn intersect_ray(self, ray: Ray, vertex: f64) -> Result<Landing, Refusal>
        ensures { told_crossing result ≡ biconic_crossing_answer self ray vertex }
    {
        let approach = Approach {
            profile: Profile::Biconic(self.meridians()),
            polynomial: no_polynomial(),
            semi: self.semi,
            vertex,
            ray,
        };
        approach.answer(self.is_good())
    }

    #[tactic(auto, unfolding(crate::specs::Biconic::biconic_paraxial_answer))]
    pub fn paraxial_curvatures(self) -> Result<Meridians, Refusal>
        ensures { told_pair result ≡ biconic_paraxial_answer self }
    {
        demand(self.is_good(), Refusal::InvalidParameter)?;
        checked(Ok(Meridians {
            x: self.cx,
            y: self.cy,
        }))
    }
}

impl Toroid {
    // The Rust's ToroidalSurface::sag, rx - sign(rx) √((rx - w)² - x²) for the base curve's sag w at y.
    #[tactic(auto, using(crate::proofs::Depths::toroid_sag_lem))]
    fn sag(self, x: f64, y: f64) -> Result<f64, Refusal>
        ensures { told_number result ≡ toroid_sag self.rx self.base.c self.base.k x y }
    {
        Ok(self.depth(x, y)?.sag)
    }

    // The Rust's ToroidalSurface::normal.
    #[tactic(auto, unfolding(crate::specs::Biconic::toroid_normal))]
    pub(crate) fn normal(self, x: f64, y: f64) -> Result<Vec3, Refusal>
        ensures { told_direction result ≡ toroid_normal self.rx self.base.c self.base.k x y }
    {
        normal_of(self.slopes(x, y))
    }
}

#[derive(Clone, Copy)]
pub struct ToroidalSurface {
    pub rx: f64,
    pub cy: f64,
    pub ky: f64,
    pub semi: f64,
}

// As a biconic's, each over a rule of its own: a trait would have to name all those rules, and is no plainer.
impl ToroidalSurface {
    #[tactic(auto, unfolding(crate::specs::Biconic::new_toroid_answer), using(numbers::proofs::Literals::literals))]
    pub fn new(rx: f64, cy: f64, ky: f64, semi: f64) -> Result<ToroidalSurface, Refusal>
        ensures { told_toroid result ≡ new_toroid_answer rx cy ky semi }
    {
        let surface = ToroidalSurface { rx, cy, ky, semi };
        demand(surface.is_good() & !(semi < 0.0), Refusal::InvalidParameter)?;
        Ok(surface)
    }

    fn circle(self) -> Toroid
        ensures { result ≡ record { rx = self.rx; base = record { c = self.cy; k = self.ky } } }
    {
        Toroid {
            rx: self.rx,
            base: Section {
                c: self.cy,
                k: self.ky,
            },
        }
    }

    #[tactic(auto, unfolding(crate::specs::Biconic::toroid_good))]
    fn is_good(self) -> bool
        ensures { result ≡ toroid_good self }
    {
        is_finite(self.rx) & is_finite(self.cy) & is_finite(self.ky) & is_finite(self.semi)
    }

    pub fn ry_mm(self) -> f64
        ensures { result ≡ radius_of self.cy }
    {
        radius_of(self.cy)
    }

    #[tactic(auto, unfolding(crate::specs::Biconic::toroid_sag_answer))]
    pub fn sag(self, x: f64, y: f64) -> Result<f64, Refusal>
        ensures { told_number result ≡ toroid_sag_answer self x y }
    {
        demand(
            is_finite(x) & is_finite(y) & self.is_good(),
            Refusal::InvalidParameter,
        )?;
        checked(self.circle().sag(x, y))
    }

    #[tactic(auto, unfolding(crate::specs::Biconic::toroid_slopes_answer))]
    pub fn derivatives(self, x: f64, y: f64) -> Result<Meridians, Refusal>
        ensures { told_pair result ≡ toroid_slopes_answer self x y }
    {
        demand(
            is_finite(x) & is_finite(y) & self.is_good(),
            Refusal::InvalidParameter,
        )?;
        checked(self.circle().slopes(x, y))
    }

    #[tactic(auto, unfolding(crate::specs::Biconic::toroid_normal_answer))]
    pub fn normal(self, x: f64, y: f64) -> Result<Vec3, Refusal>
        ensures { told_direction result ≡ toroid_normal_answer self x y }
    {
        demand(
            is_finite(x) & is_finite(y) & self.is_good(),
            Refusal::InvalidParameter,
        )?;
        checked(self.circle().normal(x, y))
    }

    #[tactic(auto, unfolding(crate::specs::Biconic::toroid_crossing_answer))]
    pub fn intersect_ray(self, ray: Ray, vertex: f64) -> Result<Landing, Refusal>
        ensures { told_crossing result ≡ toroid_crossing_answer self ray vertex }
    {
        let approach = Approach {
            profile: Profile::Toroid(self.circle()),
            polynomial: no_polynomial(),
            semi: self.semi,
            vertex,
            ray,
        };
        approach.answer(self.is_good())
    }
}
