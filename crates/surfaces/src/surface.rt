// The kinds of surfaces together, and the two functions that a trace over any of them calls.
ghost use Rattle.std.specs.Prelude.{◌≡◌};
ghost use Rattle.surfaces.specs.Refusal.{told_direction, told_progress, told_turned};
ghost use Rattle.surfaces.specs.Surface.{conic_of, chain, limit_of, surface_normal, onward_from, turn_answer};
ghost use Rattle.surfaces.specs.Parts.{family_of};

use crate::asphere::{raw_even_normal, raw_odd_normal};
use crate::conic::{ConicSurface, conic_crossing, normal_at};
use crate::newton::{Approach, Passed, Profile, Progress};
use crate::refusal::Refusal;
use crate::sags::{Biconic, Toroid};
use crate::snell::{raw_reflect, raw_snell_refract};
use crate::types::{Polynomial, Ray, Section, Vec3, dot};

// A conic is met in one step.
pub const STEPS_CONIC: u16 = 1;

// A conic has c and k; an asphere c and k, with its polynomial beside, and is an odd one or an even one; a biconic cx,
// kx, cy and ky; a toroid rx, cy and ky. A fifth case would make each match a jump by a table, which costs every step.
#[derive(Clone, Copy)]
pub enum Kind {
    Conic { c: f64, k: f64 },
    Asphere { c: f64, k: f64, odd: bool },
    Biconic { cx: f64, kx: f64, cy: f64, ky: f64 },
    Toroid { rx: f64, cy: f64, ky: f64 },
}

#[derive(Clone, Copy)]
pub struct Surface {
    pub vertex: f64,
    pub semi: f64,
    pub kind: Kind,
    pub polynomial: Polynomial,
}

// `Kind` keeps its named numbers, which the theorems on kinds speak of; what follows wants them as sections.
// A conic is met as a whole, the other kinds by passes.
#[derive(Clone, Copy)]
pub(crate) enum Family {
    Conic(Section),
    Newton(Profile),
}

#[tactic(auto, unfolding(crate::specs::Surface::conic_of))]
fn conic_of(s: &Surface, base: Section) -> ConicSurface
    ensures { result ≡ conic_of s.now base.c base.k }
{
    ConicSurface {
        vertex: s.vertex,
        curvature: base.c,
        conic: base.k,
        semi: s.semi,
    }
}

impl From<Kind> for Family {
    ghost from_gives = { λ kind f. f ≡ family_of kind };

    fn from(kind: Kind) -> Family {
        match kind {
            Kind::Conic { c, k } => Family::Conic(Section { c, k }),
            Kind::Asphere { c, k, odd } => Family::Newton(Profile::Asphere {
                base: Section { c, k },
                odd,
            }),
            Kind::Biconic { cx, kx, cy, ky } => Family::Newton(Profile::Biconic(Biconic {
                x: Section { c: cx, k: kx },
                y: Section { c: cy, k: ky },
            })),
            Kind::Toroid { rx, cy, ky } => Family::Newton(Profile::Toroid(Toroid {
                rx,
                base: Section { c: cy, k: ky },
            })),
        }
    }
}

// At most `left` passes of a trace over a surface, one after another until one ends, after `made` of them. A conic is
// met in one.
#[tactic(auto, unfolding(crate::specs::Surface::chain_by), using(crate::proofs::Stops::chaining))]
pub fn chain(s: Surface, ray: Ray, left: u16, made: u16, t: f64) -> Progress
    ensures { told_progress made result ≡ chain s ray left made t }
{
    if left == 0 {
        return Progress {
            passed: Passed::Again(t),
            taken: 0,
        };
    }
    match Family::from(s.kind) {
        Family::Conic(base) => Progress {
            passed: Passed::Ended(conic_crossing(ray, conic_of(&s, base))),
            taken: 1,
        },
        Family::Newton(profile) => {
            let approach = Approach {
                profile,
                polynomial: s.polynomial,
                semi: s.semi,
                vertex: s.vertex,
                ray,
            };
            approach.chain(left, made, t)
        }
    }
}

// How many passes a surface of a kind may take.
#[tactic(auto, unfolding(crate::specs::Surface::limit_of), using(crate::proofs::Ways::family_way))]
pub fn limit(kind: Kind) -> u16
    ensures { result ≡ limit_of kind }
{
    match Family::from(kind) {
        Family::Conic(_) => STEPS_CONIC,
        Family::Newton(profile) => profile.limit(),
    }
}

// What lies behind a surface: nothing for a mirror, or a medium; the index before it and the index after.
#[derive(Clone, Copy)]
pub enum Boundary {
    Mirror,
    Media { before: f64, after: f64 },
}

// How a ray goes on: the normal where it landed, its new direction, and whether it came from the front.
#[derive(Clone, Copy)]
pub struct Leaving {
    pub normal: Vec3,
    pub direction: Vec3,
    pub front: bool,
}

#[tactic(auto, unfolding(crate::specs::Surface::surface_normal))]
fn normal(s: &Surface, p: Vec3) -> Result<Vec3, Refusal>
    ensures { told_direction result ≡ surface_normal s.now p }
{
    let a = &s.polynomial;
    match Family::from(s.kind) {
        Family::Conic(base) => normal_at(p, conic_of(s, base)),
        Family::Newton(Profile::Asphere { base, odd: true }) => raw_odd_normal(base, a, p.x, p.y),
        Family::Newton(Profile::Asphere { base, odd: false }) => raw_even_normal(
            base, &a.even, p.x, p.y,
        ),
        Family::Newton(Profile::Biconic(b)) => b.normal(p.x, p.y),
        Family::Newton(Profile::Toroid(t)) => t.normal(p.x, p.y),
    }
}

#[tactic(auto, unfolding(crate::specs::Surface::onward_from))]
fn onward(incident: Vec3, n: Vec3, b: Boundary) -> Result<Vec3, Refusal>
    ensures { told_direction result ≡ onward_from incident n b }
{
    match b {
        Boundary::Mirror => raw_reflect(incident, n),
        Boundary::Media { before, after } => raw_snell_refract(incident, n, before, after),
    }
}

// What a step of a trace does where a ray has landed: the normal, then reflection or refraction.
#[tactic(auto, unfolding(crate::specs::Surface::turn_answer), using(crate::proofs::Refusals::refusals))]
pub fn turn(s: Surface, incident: Vec3, p: Vec3, b: Boundary) -> Result<Leaving, Refusal>
    ensures { told_turned result ≡ turn_answer s incident p b }
{
    let normal = normal(&s, p)?;
    let direction = onward(incident, normal, b)?;
    Ok(Leaving {
        normal,
        direction,
        front: dot(incident, normal) < 0.0,
    })
}
