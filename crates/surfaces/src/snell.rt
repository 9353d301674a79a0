// Reflection and refraction of a direction at a surface normal, which is turned against the light where it is not so
// given.
ghost use Rattle.std.specs.Prelude.{◌≡◌};
ghost use Rattle.surfaces.specs.Types.{zeros};
ghost use Rattle.surfaces.specs.Refusal.{told, told_direction};
ghost use Rattle.surfaces.specs.Parts.{units_of};
ghost use Rattle.surfaces.specs.Snell.{turned_if, negated_if, mirrored, reflected, reflect_answer, bent, refracted};
ghost use Rattle.surfaces.specs.Snell.{refract_answer};

use crate::refusal::{Refusal, checked};
use crate::types::{Finite, Vec3, dot, over};
use numbers::{clamp, is_finite, max, sqrt};

// Apart from `negated_if`, as in the rules: vectors have no operators.
#[tactic(auto, unfolding(crate::specs::Snell::turned_if))]
fn turned_if(b: bool, v: Vec3) -> Vec3
    ensures { result ≡ turned_if b v }
{
    if b {
        Vec3 {
            x: -v.x,
            y: -v.y,
            z: -v.z,
        }
    } else {
        v
    }
}

#[tactic(auto, unfolding(crate::specs::Snell::negated_if))]
fn negated_if(b: bool, x: f64) -> f64
    ensures { result ≡ negated_if b x }
{
    if b { -x } else { x }
}

// i - 2 (i · n) n, of unit vectors, n against i.
#[tactic(auto, unfolding(crate::specs::Snell::mirrored), using(numbers::proofs::Literals::literals))]
fn mirror(i: Vec3, n: Vec3) -> Vec3
    ensures { result ≡ mirrored i n }
{
    let d = dot(i, n);
    let behind = d > 0.0;
    let m = turned_if(behind, n);
    let w = 2.0 * negated_if(behind, d);
    Vec3 {
        x: i.x - w * m.x,
        y: i.y - w * m.y,
        z: i.z - w * m.z,
    }
}

// The unit vectors of an incident ray and a normal, of which neither may be about 0.
#[tactic(auto, unfolding(crate::specs::Parts::units_of), using(numbers::proofs::Literals::literals))]
fn units(incident: Vec3, normal: Vec3) -> Result<(Vec3, Vec3), Refusal>
    ensures { told (zeros, zeros) result ≡ units_of incident normal }
{
    if !(incident.all_finite() & normal.all_finite()) {
        return Err(Refusal::NumericalSingularity);
    }
    let i_sq = dot(incident, incident);
    let n_sq = dot(normal, normal);
    if (i_sq < 1e-30) | (n_sq < 1e-30) {
        return Err(Refusal::NumericalSingularity);
    }
    Ok((over(incident, sqrt(i_sq)), over(normal, sqrt(n_sq))))
}

// The Rust's reflect: of unit vectors along its arguments, of which neither may be about 0.
#[tactic(auto, using(crate::proofs::Units::unit))]
pub(crate) fn raw_reflect(incident: Vec3, normal: Vec3) -> Result<Vec3, Refusal>
    ensures { told_direction result ≡ reflected incident normal }
{
    let (i, n) = units(incident, normal)?;
    Ok(mirror(i, n))
}

#[tactic(auto, unfolding(crate::specs::Snell::reflect_answer))]
pub fn reflect(incident: Vec3, normal: Vec3) -> Result<Vec3, Refusal>
    ensures { told_direction result ≡ reflect_answer incident normal }
{
    checked(raw_reflect(incident, normal))
}

// η i + (η cos - √k) n with k = 1 - η² (1 - cos²), of unit vectors, n against i, where cos = -i · n and η = n1 / n2 is
// the index before the surface over that behind it. Below 0 for k nothing passes: total internal reflection.
#[tactic(auto, unfolding(crate::specs::Snell::bent), using(numbers::proofs::Literals::literals))]
fn bend(i: Vec3, n: Vec3, eta: f64) -> Result<Vec3, Refusal>
    ensures { told_direction result ≡ bent i n eta }
{
    let d = -dot(i, n);
    let behind = d < 0.0;
    let m = turned_if(behind, n);
    let cos_i = clamp(negated_if(behind, d));
    let k = 1.0 - eta * eta * max(1.0 - cos_i * cos_i, 0.0);
    if k < 0.0 {
        return Err(Refusal::TotalInternalReflection);
    }
    let w = eta * cos_i - sqrt(k);
    Ok(Vec3 {
        x: eta * i.x + w * m.x,
        y: eta * i.y + w * m.y,
        z: eta * i.z + w * m.z,
    })
}

// The Rust's snell_refract: of unit vectors along its arguments, of which neither may be about 0, and indices above 0.
#[tactic(auto, using(crate::proofs::Units::unit))]
pub(crate) fn raw_snell_refract(
    incident: Vec3,
    normal: Vec3,
    n1: f64,
    n2: f64,
) -> Result<Vec3, Refusal>
    ensures { told_direction result ≡ refracted incident normal n1 n2 }
{
    if !(is_finite(n1) & is_finite(n2)) | (n1 <= 0.0) | (n2 <= 0.0) {
        return Err(Refusal::NumericalSingularity);
    }
    let (i, n) = units(incident, normal)?;
    bend(i, n, n1 / n2)
}

#[tactic(auto, unfolding(crate::specs::Snell::refract_answer))]
pub fn snell_refract(incident: Vec3, normal: Vec3, n1: f64, n2: f64) -> Result<Vec3, Refusal>
    ensures { told_direction result ≡ refract_answer incident normal n1 n2 }
{
    checked(raw_snell_refract(incident, normal, n1, n2))
}
