// Optical surfaces as in the Rust: where a ray meets one, and how it goes on. No function asks anything of its caller,
// and each says what it answers to every argument.
#![tactic(auto)]

mod asphere;
mod biconic;
mod conic;
mod newton;
mod refusal;
mod sags;
mod snell;
mod surface;
mod types;
mod waits;

pub use asphere::{EvenAsphere, OddAsphere};
pub use biconic::{BiconicSurface, ToroidalSurface};
pub use conic::{ConicSurface, conic_normal, conic_sag, intersect_conic};
pub use newton::{
    Passed, Progress, STEPS_BICONIC, STEPS_EVEN_ASPHERE, STEPS_ODD_ASPHERE, STEPS_TOROID,
};
pub use refusal::{
    ACCEPTED, BAD_PARAMETER, Line, MISSED, NEGATIVE_SEMI_DIAMETER, NOT_FINITE, OUTSIDE_DOMAIN,
    Refusal, SINGULAR, TOTAL_REFLECTION, VIGNETTED, checked,
};
pub use snell::{reflect, snell_refract};
pub use surface::{Boundary, Kind, Leaving, STEPS_CONIC, Surface, chain, limit, turn};
pub use types::{
    Coefficients, Finite, HitRecord, Landing, MOST_COEFFICIENTS, Meridians, Polynomial, Ray, Vec3,
    length, no_coefficients, no_polynomial, no_ray, ray_of,
};
