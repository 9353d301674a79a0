// What comes back: the value, or why there is none.
ghost use Rattle.std.specs.Prelude.{◌≡◌, OnOk, IfErr, IsTrue, IsFalse};
ghost use Rattle.surfaces.specs.Refusal.{plain, checked9, line_of, told};

use crate::types::Finite;

// The numbers of SCOPE's table (T1) that a surface's answer has: 1 for a value, else why there is none.
pub const ACCEPTED: u8 = 1;

pub const BAD_PARAMETER: u8 = 2;

pub const NEGATIVE_SEMI_DIAMETER: u8 = 3;

pub const SINGULAR: u8 = 4;

pub const OUTSIDE_DOMAIN: u8 = 5;

pub const MISSED: u8 = 6;

pub const VIGNETTED: u8 = 7;

pub const TOTAL_REFLECTION: u8 = 8;

pub const NOT_FINITE: u8 = 9;

// The numbers 2 to 9, under the names of Rust's OpticsError; NotFinite is added.
#[derive(Clone, Copy)]
pub enum Refusal {
    InvalidParameter,
    InvalidSurface,
    NumericalSingularity,
    GeometryOutsideAperture,
    RayMissedSurface,
    RayVignetted { r: f64, limit: f64 },
    TotalInternalReflection,
    NotFinite,
}

// A line of SCOPE's table (T1): its number, and r and the semi-diameter, which a 7 names and no other.
// C and the result records have these numbers.
#[derive(Clone, Copy)]
pub struct Line {
    pub number: u8,
    pub r: f64,
    pub limit: f64,
}

#[tactic(auto, using(numbers::proofs::Literals::literals))]
fn plain(number: u8) -> Line
    ensures { result ≡ plain number }
{
    Line {
        number,
        r: 0.0,
        limit: 0.0,
    }
}

impl From<Refusal> for Line {
    ghost from_gives = { λ e l. l ≡ line_of e };

    fn from(e: Refusal) -> Line {
        match e {
            Refusal::InvalidParameter => plain(BAD_PARAMETER),
            Refusal::InvalidSurface => plain(NEGATIVE_SEMI_DIAMETER),
            Refusal::NumericalSingularity => plain(SINGULAR),
            Refusal::GeometryOutsideAperture => plain(OUTSIDE_DOMAIN),
            Refusal::RayMissedSurface => plain(MISSED),
            Refusal::RayVignetted { r, limit } => Line {
                number: VIGNETTED,
                r,
                limit,
            },
            Refusal::TotalInternalReflection => plain(TOTAL_REFLECTION),
            Refusal::NotFinite => plain(NOT_FINITE),
        }
    }
}

// What a function asks of its arguments before all else.
pub(crate) fn demand(good: bool, e: Refusal) -> Result<(), Refusal>
    ensures good { OnOk result (IsTrue good) }
    ensures bad { IfErr result (λ x. (x ≡ e) × IsFalse good) }
{
    if good { Ok(()) } else { Err(e) }
}

// 9 comes last: of an answer with a number that is not finite.
pub fn checked<T: Finite + Copy>(a: Result<T, Refusal>) -> Result<T, Refusal>
    ensures { (blank : T) → told blank result ≡ checked9 blank T.fine (told blank a) }
{
    let value = a?;
    if value.all_finite() {
        Ok(value)
    } else {
        Err(Refusal::NotFinite)
    }
}
