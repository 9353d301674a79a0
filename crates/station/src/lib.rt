// The trace under names that C can link. Its state is kept in two lent arrays, so that a controller can hold it across
// scans and power cycles: the counts are surface number, place, passes, all steps and outcome; the numbers are t,
// origin, direction, index and path. Whatever stands in them is answered.
#![tactic(auto)]

ghost use Rattle.std.specs.Prelude.{◌≡◌, List, Float};
ghost use Rattle.surfaces.specs.Types.{ray_of};
ghost use Rattle.trace.specs.Refusal.{why_number};
ghost use Rattle.trace.specs.Run.{start_of, whole_of, told_start};
ghost use Rattle.trace.specs.Wanted.{reach_of};
ghost use Rattle.station.specs.Lent.{version, passes_in, outcome_in, state_in, counts_of, numbers_of, left};
ghost use Rattle.station.specs.Lent.{told, continued, left_row, told_row};

use surfaces::{ACCEPTED, ray_of};
use trace::{BLANK, Beam, RECORD_NUMBERS, Refused, State, reach, start, whole};

// The version of this interface.
pub const VERSION: u64 = 2;

// The slots of the counts, and how many there are.
pub const COUNTS_SURFACE: usize = 0;

pub const COUNTS_PLACE: usize = 1;

pub const COUNTS_PASSES: usize = 2;

pub const COUNTS_STEPS: usize = 3;

pub const COUNTS_OUTCOME: usize = 4;

pub const COUNTS: usize = COUNTS_OUTCOME + 1;

// Those of the numbers, of which origin and direction have three each.
pub const NUMBERS_T: usize = 0;

pub const NUMBERS_ORIGIN: usize = 1;

const ORIGIN_Y: usize = NUMBERS_ORIGIN + 1;

const ORIGIN_Z: usize = NUMBERS_ORIGIN + 2;

pub const NUMBERS_DIRECTION: usize = NUMBERS_ORIGIN + 3;

const DIRECTION_Y: usize = NUMBERS_DIRECTION + 1;

const DIRECTION_Z: usize = NUMBERS_DIRECTION + 2;

pub const NUMBERS_INDEX: usize = NUMBERS_DIRECTION + 3;

pub const NUMBERS_PATH: usize = NUMBERS_INDEX + 1;

pub const NUMBERS: usize = NUMBERS_PATH + 1;

// 1 or the refusal, by the C header's numbers, and the refused record's place.
#[repr(C)]
#[derive(Drop)]
pub struct Verdict {
    pub number: u64,
    pub place: u64,
}

// A count beyond its type becomes the type's largest, which fits no recipe.
#[tactic(auto, unfolding(crate::specs::Lent::passes_in))]
fn passes_in(n: u64) -> u16
    ensures { result ≡ passes_in n }
{
    u16::try_from(n).unwrap_or(u16::MAX)
}

#[tactic(auto, unfolding(crate::specs::Lent::outcome_in))]
fn outcome_in(n: u64) -> u8
    ensures { result ≡ outcome_in n }
{
    u8::try_from(n).unwrap_or(u8::MAX)
}

// usize and u64 are one size here, and std has no `From` between them: both ways are casts.
#[tactic(auto, unfolding(crate::specs::Lent::state_in))]
fn state_in(c: [u64; COUNTS], x: [f64; NUMBERS]) -> State
    ensures { result ≡ state_in c x }
{
    State {
        number: c[COUNTS_SURFACE] as usize,
        place: c[COUNTS_PLACE] as usize,
        passes: passes_in(c[COUNTS_PASSES]),
        t: x[NUMBERS_T],
        beam: Beam {
            ray: ray_of(
                x[NUMBERS_ORIGIN],
                x[ORIGIN_Y],
                x[ORIGIN_Z],
                x[NUMBERS_DIRECTION],
                x[DIRECTION_Y],
                x[DIRECTION_Z],
            ),
            index: x[NUMBERS_INDEX],
            path: x[NUMBERS_PATH],
        },
        steps: c[COUNTS_STEPS] as usize,
        outcome: outcome_in(c[COUNTS_OUTCOME]),
    }
}

#[tactic(auto, unfolding(crate::specs::Lent::counts_of))]
fn counts_of(s: State) -> [u64; COUNTS]
    ensures { result ≡ counts_of s }
{
    [
        s.number as u64,
        s.place as u64,
        u64::from(s.passes),
        s.steps as u64,
        u64::from(s.outcome),
    ]
}

#[tactic(auto, unfolding(crate::specs::Lent::numbers_of))]
fn numbers_of(s: State) -> [f64; NUMBERS]
    ensures { result ≡ numbers_of s }
{
    let b = s.beam;
    let o = b.ray.origin;
    let d = b.ray.direction;
    [s.t, o.x, o.y, o.z, d.x, d.y, d.z, b.index, b.path]
}

fn accepted() -> Verdict
    ensures { result ≡ record { number = 1; place = 0 } }
{
    Verdict {
        number: u64::from(ACCEPTED),
        place: 0,
    }
}

impl From<Refused> for Verdict {
    ghost from_gives = { λ e v. v ≡ record { number = why_number e.why; place = e.place } };

    fn from(e: Refused) -> Verdict {
        Verdict {
            number: u64::from(e.why.number()),
            place: e.place as u64,
        }
    }
}

fn hold(s: State, counts: &mut [u64; COUNTS], numbers: &mut [f64; NUMBERS])
    ensures counts { counts.new ≡ counts_of s }
    ensures numbers { numbers.new ≡ numbers_of s }
{
    *counts = counts_of(s);
    *numbers = numbers_of(s);
}

// Start and whole write the state that they answer, and a refused one writes its refusal.
#[tactic(auto, unfolding(trace::specs::Run::refused_answer))]
fn tell(
    a: Result<State, Refused>,
    counts: &mut [u64; COUNTS],
    numbers: &mut [f64; NUMBERS],
) -> Verdict
    ensures { (z : List Float)
        → left result counts.new numbers.new z ≡ told (record { answer = told_start a; buffer = z }) }
{
    match a {
        Ok(s) => {
            hold(s, counts, numbers);
            accepted()
        }
        Err(e) => {
            hold(e.state(), counts, numbers);
            Verdict::from(e)
        }
    }
}

// The header's calls give a ray as six numbers.
#[unsafe(no_mangle)]
pub extern "C" fn pilingrue_start(
    recipe: &[u8],
    ox: f64,
    oy: f64,
    oz: f64,
    dx: f64,
    dy: f64,
    dz: f64,
    index: f64,
    buf: &mut [f64],
    counts: &mut [u64; COUNTS],
    numbers: &mut [f64; NUMBERS],
) -> Verdict
    ensures { left result counts.new numbers.new buf.new
        ≡ told (start_of recipe.now (ray_of ox oy oz dx dy dz) index buf.old) }
{
    tell(
        start(recipe, ray_of(ox, oy, oz, dx, dy, dz), index, buf),
        counts,
        numbers,
    )
}

// A refused one writes neither arrays nor buffer.
#[unsafe(no_mangle)]
pub extern "C" fn pilingrue_continue(
    recipe: &[u8],
    buf: &mut [f64],
    counts: &mut [u64; COUNTS],
    numbers: &mut [f64; NUMBERS],
    allowed: u16,
) -> Verdict
    ensures { left result counts.new numbers.new buf.new
        ≡ continued recipe.now counts.old numbers.old buf.old allowed }
{
    match state_in(*counts, *numbers).resume(recipe, buf, allowed) {
        Ok(s) => tell(Ok(s), counts, numbers),
        Err(e) => Verdict::from(e),
    }
}

#[unsafe(no_mangle)]
pub extern "C" fn pilingrue_whole(
    recipe: &[u8],
    ox: f64,
    oy: f64,
    oz: f64,
    dx: f64,
    dy: f64,
    dz: f64,
    index: f64,
    buf: &mut [f64],
    counts: &mut [u64; COUNTS],
    numbers: &mut [f64; NUMBERS],
) -> Verdict
    ensures { left result counts.new numbers.new buf.new
        ≡ told (whole_of recipe.now (ray_of ox oy oz dx dy dz) index buf.old) }
{
    tell(
        whole(recipe, ray_of(ox, oy, oz, dx, dy, dz), index, buf),
        counts,
        numbers,
    )
}

// The record of one surface, from the records up to it; no state and no result buffer takes part.
#[tactic(auto, using(numbers::proofs::Literals::literals))]
#[unsafe(no_mangle)]
pub extern "C" fn pilingrue_reach(
    recipe: &[u8],
    ox: f64,
    oy: f64,
    oz: f64,
    dx: f64,
    dy: f64,
    dz: f64,
    index: f64,
    surface: u64,
    row: &mut [f64; RECORD_NUMBERS],
) -> Verdict
    ensures { left_row result row.new
        ≡ told_row (reach_of recipe.now (ray_of ox oy oz dx dy dz) index surface) }
{
    let ray = ray_of(ox, oy, oz, dx, dy, dz);
    match reach(recipe, ray, index, surface as usize) {
        Ok(values) => {
            *row = values;
            accepted()
        }
        Err(e) => {
            *row = [BLANK; RECORD_NUMBERS];
            Verdict::from(e)
        }
    }
}

// For a program to hold its header's version against.
#[unsafe(no_mangle)]
pub extern "C" fn pilingrue_version() -> u64
    ensures { result ≡ version }
{
    VERSION
}
