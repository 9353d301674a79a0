// Start and continue.
ghost use Rattle.std.specs.Prelude.{◌≡◌, ◌+◌, ◌*◌, ◌≤◌, ◌<◌, ◌^◌, List, ◌++◌, length, Float, ltb, if◌then◌else◌};
ghost use Rattle.std.proofs.lemmas.List.Edits.{sets};
ghost use Rattle.surfaces.specs.Refusal.{told_crossing};
ghost use Rattle.recipe.specs.Scan.{passed};
ghost use Rattle.trace.specs.Leg.{width};
ghost use Rattle.trace.specs.State.{held, surface_left, advance};
ghost use Rattle.trace.specs.Run.{blank, items_of, ray_admission, begun_of, told_start, told_continue};
ghost use Rattle.trace.specs.Run.{start_of, continue_of, whole_of};
ghost use Rattle.trace.specs.Parts.{Ready, blanks, kept_from, lent_from, told_fault, told_why};

use crate::leg::{BLANK, RECORD_NUMBERS, leg_of, row};
use crate::refusal::{Refused, Why};
use crate::state::{RUNNING, State, outcome_at};
use numbers::is_finite;
use recipe::{Checked, Fault, ReadRecord, check, read_record};
use surfaces::{Finite, Landing, Passed, Ray, Refusal, chain};

// How many records a recipe may have, and how many numbers their results take.
pub const MOST_RECORDS: usize = 512;

pub const MOST_ROOM: usize = MOST_RECORDS * RECORD_NUMBERS;

// The whole buffer becomes +0.0.
#[tactic(auto, using(numbers::proofs::Literals::literals))]
pub(crate) fn blank_out(buf: &mut [f64])
    ensures { buf.new ≡ blank buf.old }
{
    buf.fill(BLANK);
}

// The record of the surface of a number, into a buffer that begins with the first one's; those before it are not kept.
fn write_row(buf: &mut [f64], first: usize, number: usize, values: [f64; RECORD_NUMBERS])
    requires { width * number + width ≤ width * first + length buf.old }
    ensures { (z : List Float) → buf.old ≡ kept_from first z
        → buf.new ≡ kept_from first (sets z (width * number) values) }
{
    if number < first {
        return;
    }
    let at = RECORD_NUMBERS * (number - first);
    buf[at..at + RECORD_NUMBERS].copy_from_slice(&values);
}

// A surface's end: its record is written, and the state moves on.
// No struct has the lent buffer and its first surface: each function over it would promise that it lends the same one.
#[tactic(auto, unfolding(crate::specs::State::surface_left))]
fn leave(
    s: State,
    buf: &mut [f64],
    first: usize,
    read: ReadRecord,
    count: usize,
    x: Result<Landing, Refusal>,
    passes: u16,
    steps: usize,
) -> State
    requires { (width * s.number + width ≤ width * first + length buf.old) × (s.number + 1 < 2 ^ 64) }
    ensures { (z : List Float) → buf.old ≡ kept_from first z → held result buf.new
        ≡ lent_from first (surface_left (held s z) read.next count read.optic (told_crossing x) passes steps) }
{
    let e = leg_of(s.number, read.optic, s.beam, x);
    write_row(buf, first, s.number, row(e, passes));
    s.after(read.next, count, read.optic, e, steps)
}

// Buffer and first surface come apart, as for `leave`; recipe, count and steps are the call's.
// At most `allowed` steps, and none once the trace has ended. Only the records from the surface `first` on are kept.
pub(crate) fn walk(
    state: State,
    recipe: &[u8],
    buf: &mut [f64],
    first: usize,
    count: usize,
    allowed: u16,
) -> State
    requires { (Ready recipe.now (width * first + length buf.old) count state) × (state.steps < 2 ^ 62) }
    ensures { held result buf.new
        ≡ lent_from first
        (advance (items_of recipe.now) allowed (held state (blanks first ++ buf.old))) }
{
    let mut s = state;
    let mut left = allowed;
    'surfaces: while left > 0 && s.outcome == RUNNING {
        let read = read_record(recipe, s.place).unwrap();
        let progress = chain(read.optic.surface, s.beam.ray, left, s.passes, s.t);
        left -= progress.taken;
        let passes = s.passes + progress.taken;
        let steps = s.steps + usize::from(progress.taken);
        let crossing = match progress.passed {
            Passed::Again(t) => {
                s = s.paused(passes, t, steps);
                break 'surfaces;
            }
            Passed::Ended(x) => x,
        };
        s = leave(s, buf, first, read, count, crossing, passes, steps);
    }
    s
}

// Ray and index stand apart here and below, as in the rules and in the header's calls.
// Both finite, and the index above 0.
#[tactic(auto, unfolding(crate::specs::Run::ray_admission), using(numbers::proofs::Literals::literals))]
pub(crate) fn admit(ray: Ray, index: f64) -> Result<(), Fault>
    ensures { told_fault result ≡ ray_admission ray index }
{
    if !(ray.all_finite() & is_finite(index)) {
        return Err(Fault::BadParameter);
    }
    if index <= 0.0 {
        return Err(Fault::Singular);
    }
    Ok(())
}

// A room of so many numbers is long enough for so many records.
fn fit(room: usize, count: usize) -> Result<(), Why>
    ensures { told_why result ≡ (if ltb room (width * count) then 11 else 1) }
{
    if room / RECORD_NUMBERS < count {
        return Err(Why::BufferTooShort);
    }
    Ok(())
}

// What a start on a good recipe answers, by what a check says of it, and by how much room there is.
#[tactic(auto, unfolding(crate::specs::Run::begun_of, crate::specs::Run::admission))]
pub(crate) fn begin(c: Checked, ray: Ray, index: f64, room: usize) -> Result<State, Refused>
    ensures { told_start result ≡ begun_of (passed c) 0 ray index room }
{
    admit(ray, index)?;
    fit(room, c.count)?;
    Ok(State::first(ray, index, outcome_at(0, c.count)))
}

pub fn start(recipe: &[u8], ray: Ray, index: f64, buf: &mut [f64]) -> Result<State, Refused>
    ensures { record { answer = told_start result; buffer = buf.new }
        ≡ start_of recipe.now ray index buf.old }
{
    blank_out(buf);
    let checked = check(recipe, MOST_RECORDS, true, 0)?;
    begin(checked, ray, index, buf.len())
}

// Start, then all steps at once.
pub fn whole(recipe: &[u8], ray: Ray, index: f64, buf: &mut [f64]) -> Result<State, Refused>
    ensures { record { answer = told_start result; buffer = buf.new }
        ≡ whole_of recipe.now ray index buf.old }
{
    blank_out(buf);
    let c = check(recipe, MOST_RECORDS, true, 0)?;
    let s = begin(c, ray, index, buf.len())?;
    Ok(walk(s, recipe, buf, 0, c.count, u16::MAX))
}

impl State {
    // SCOPE C4's continue, which is a word of the language.
    pub fn resume(self, recipe: &[u8], buf: &mut [f64], allowed: u16) -> Result<State, Refused>
        ensures { record { answer = told_continue self result; buffer = buf.new }
            ≡ continue_of recipe.now self buf.old allowed }
    {
        let c = check(recipe, MOST_RECORDS, true, self.number)?;
        fit(buf.len(), c.count)?;
        if !self.fits(c, recipe.len()) {
            return Err(Refused::from(Why::StateDoesNotFit));
        }
        Ok(walk(self, recipe, buf, 0, c.count, allowed))
    }

    // The state that a continuation hands back: a refused one hands back the state that it was given.
    pub fn handed_back(self, answer: Result<State, Refused>) -> State
        ensures { result ≡ (told_continue self answer).state }
    {
        answer.unwrap_or(self)
    }
}
