// A beam's way to a surface and on from it, and the record that it leaves.
ghost use Rattle.std.specs.Prelude.{◌≡◌};
ghost use Rattle.surfaces.specs.Refusal.{gives, checked9, told_crossing};
ghost use Rattle.trace.specs.Leg.{no_leg, boundary_of, share, leg_finite, leg_of, beam_after, hit_row, refusal_row};
ghost use Rattle.trace.specs.Leg.{row_of};
ghost use Rattle.trace.specs.Parts.{told_leg};

use numbers::is_finite;
use recipe::Optic;
use surfaces::{Boundary, Finite, Landing, Line, Ray, Refusal, Vec3, checked, length, turn};

// The slots of a result record, of which point, normal and direction have three each, and how many there are.
pub const RECORD_STATUS: usize = 0;

pub const RECORD_T: usize = 1;

pub const RECORD_POINT: usize = 2;

pub const RECORD_NORMAL: usize = RECORD_POINT + 3;

pub const RECORD_DIRECTION: usize = RECORD_NORMAL + 3;

pub const RECORD_FRONT: usize = RECORD_DIRECTION + 3;

pub const RECORD_STEPS: usize = RECORD_FRONT + 1;

pub const RECORD_NUMBERS: usize = RECORD_STEPS + 1;

// Where the record of a 7 has r and the semi-diameter.
pub const RECORD_R: usize = 1;

pub const RECORD_LIMIT: usize = 2;

// The status of a record that is not finished, and of a hit, as the C header has them; a refusal's is its number.
pub const BLANK: f64 = 0.0;

pub const HIT: f64 = 1.0;

// What goes from surface to surface.
#[derive(Clone, Copy)]
pub struct Beam {
    pub ray: Ray,
    pub index: f64,
    pub path: f64,
}

// A hit: so far along the ray, where, and how the beam goes on. Its fields are those that the rules on records name.
#[derive(Clone, Copy)]
pub struct Leg {
    pub t: f64,
    pub point: Vec3,
    pub normal: Vec3,
    pub direction: Vec3,
    pub front: bool,
    pub path: f64,
}

#[tactic(auto, unfolding(crate::specs::Leg::boundary_of))]
fn boundary(o: Optic, index: f64) -> Boundary
    ensures { result ≡ boundary_of o index }
{
    if o.mirror {
        Boundary::Mirror
    } else {
        Boundary::Media {
            before: index,
            after: o.index,
        }
    }
}

// A surface's share of the path (SCOPE C11), by its number and the beam before it: t counts lengths of the direction,
// which behind a surface is a unit vector.
#[tactic(auto, unfolding(crate::specs::Leg::share))]
fn share(number: usize, b: Beam, t: f64) -> f64
    ensures { result ≡ share number b t }
{
    if number == 0 {
        t * length(b.ray.direction) * b.index
    } else {
        t * b.index
    }
}

impl Finite for Leg {
    ghost fine = { leg_finite };

    #[tactic(auto, unfolding(crate::specs::Leg::leg_finite))]
    fn all_finite(self) -> bool {
        is_finite(self.t)
            & self.point.all_finite()
            & self.normal.all_finite()
            & self.direction.all_finite()
            & is_finite(self.path)
    }
}

// What a step that ends the surface of a number makes of where its passes came to: the normal where the ray landed,
// refraction or reflection, the path, then 9.
#[tactic(auto, unfolding(crate::specs::Leg::leg_of), using(surfaces::proofs::Refusals::refusals))]
pub(crate) fn leg_of(
    number: usize,
    o: Optic,
    b: Beam,
    x: Result<Landing, Refusal>,
) -> Result<Leg, Refusal>
    ensures { told_leg result ≡ leg_of number o b (told_crossing x) }
{
    let l = x?;
    let v = turn(o.surface, b.ray.direction, l.point, boundary(o, b.index))?;
    checked(Ok(Leg {
        t: l.t,
        point: l.point,
        normal: v.normal,
        direction: v.direction,
        front: v.front,
        path: b.path + share(number, b, l.t),
    }))
}

#[tactic(auto, unfolding(crate::specs::Leg::beam_after))]
pub(crate) fn beam_after(o: Optic, b: Beam, g: Leg) -> Beam
    ensures { result ≡ beam_after o b g }
{
    Beam {
        ray: Ray {
            origin: g.point,
            direction: g.direction,
        },
        index: if o.mirror { b.index } else { o.index },
        path: g.path,
    }
}

#[tactic(auto, unfolding(crate::specs::Leg::hit_row))]
fn hit_row(g: Leg, steps: u16) -> [f64; RECORD_NUMBERS]
    ensures { result ≡ hit_row g steps }
{
    let p = g.point;
    let n = g.normal;
    let d = g.direction;
    [
        HIT,
        g.t,
        p.x,
        p.y,
        p.z,
        n.x,
        n.y,
        n.z,
        d.x,
        d.y,
        d.z,
        f64::from(g.front),
        f64::from(steps),
    ]
}

// Slot by slot, as hit_row, since a tool holds both lists against the C header's slots.
#[tactic(auto, unfolding(crate::specs::Leg::refusal_row), using(numbers::proofs::Literals::literals))]
fn refusal_row(l: Line, steps: u16) -> [f64; RECORD_NUMBERS]
    ensures { result ≡ refusal_row l steps }
{
    [
        f64::from(l.number),
        l.r,
        l.limit,
        0.0,
        0.0,
        0.0,
        0.0,
        0.0,
        0.0,
        0.0,
        0.0,
        0.0,
        f64::from(steps),
    ]
}

#[tactic(auto, unfolding(crate::specs::Leg::row_of), using(surfaces::proofs::Refusals::refusals))]
pub(crate) fn row(e: Result<Leg, Refusal>, steps: u16) -> [f64; RECORD_NUMBERS]
    ensures { result ≡ row_of (told_leg e) steps }
{
    match e {
        Ok(g) => hit_row(g, steps),
        Err(e) => refusal_row(Line::from(e), steps),
    }
}
