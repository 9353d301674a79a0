// A trace's state: where the beam is, and which states fit a recipe.
ghost use Rattle.std.specs.Prelude.{◌≡◌, ◌+◌, ◌<◌, ◌^◌, eqb, if◌then◌else◌};
ghost use Rattle.recipe.specs.Scan.{passed};
ghost use Rattle.trace.specs.State.{standing, paused_at, state_after, outcome_known, place_fits, passes_fit, beam_good};
ghost use Rattle.trace.specs.State.{fits_of};
ghost use Rattle.trace.specs.Run.{beam_of};
ghost use Rattle.trace.specs.Parts.{told_leg};

use crate::leg::{Beam, Leg, beam_after};
use numbers::is_finite;
use recipe::{Checked, Optic};
use surfaces::{BAD_PARAMETER, Finite, Line, NOT_FINITE, Ray, Refusal, SINGULAR};

// The outcome of a trace that has not ended, and of one that hit all surfaces; any other is what ended it.
pub const RUNNING: u8 = 0;

pub const DONE: u8 = 1;

// Surface number, place of its record, passes made on it and t so far, the beam before it, all steps and the outcome.
// The outcome is a number, since states come from C with any, and each is answered.
#[derive(Clone, Copy)]
pub struct State {
    pub number: usize,
    pub place: usize,
    pub passes: u16,
    pub t: f64,
    pub beam: Beam,
    pub steps: usize,
    pub outcome: u8,
}

pub(crate) fn outcome_at(number: usize, count: usize) -> u8
    ensures { result ≡ (if eqb number count then 1 else 0) }
{
    if number == count { DONE } else { RUNNING }
}

#[tactic(auto, unfolding(crate::specs::State::outcome_known))]
fn outcome_known(n: u8) -> bool
    ensures { result ≡ outcome_known n }
{
    matches!(n, RUNNING..=BAD_PARAMETER | SINGULAR..=NOT_FINITE)
}

impl Beam {
    #[tactic(auto, unfolding(crate::specs::State::beam_good), using(numbers::proofs::Literals::literals))]
    fn is_good(self) -> bool
        ensures { result ≡ beam_good self }
    {
        self.ray.all_finite() & is_finite(self.path) & is_finite(self.index) & !(self.index <= 0.0)
    }
}

impl State {
    // Before the first surface, where the path is +0.0.
    #[tactic(auto, using(numbers::proofs::Literals::literals))]
    pub fn first(ray: Ray, index: f64, outcome: u8) -> State
        ensures { result ≡ standing 0 0 (beam_of ray index) 0 outcome }
    {
        State {
            number: 0,
            place: 0,
            passes: 0,
            t: 0.0,
            beam: Beam {
                ray,
                index,
                path: 0.0,
            },
            steps: 0,
            outcome,
        }
    }

    // In the middle of a surface.
    #[tactic(auto, unfolding(crate::specs::State::paused_at))]
    pub(crate) fn paused(self, passes: u16, t: f64, steps: usize) -> State
        ensures { result ≡ paused_at self passes t steps }
    {
        State {
            passes,
            t,
            steps,
            outcome: RUNNING,
            ..self
        }
    }

    // At a surface's end. The next place and the optic come apart, as in the rule.
    #[tactic(auto, unfolding(crate::specs::State::state_after), using(surfaces::proofs::Refusals::refusals))]
    pub(crate) fn after(
        self,
        next: usize,
        count: usize,
        o: Optic,
        e: Result<Leg, Refusal>,
        steps: usize,
    ) -> State
        requires { self.number + 1 < 2 ^ 64 }
        ensures { result ≡ state_after self next count o (told_leg e) steps }
    {
        match e {
            Ok(g) => {
                let number = self.number + 1;
                State {
                    number,
                    place: next,
                    passes: 0,
                    t: 0.0,
                    beam: beam_after(o, self.beam, g),
                    steps,
                    outcome: outcome_at(number, count),
                }
            }
            Err(e) => State {
                passes: 0,
                t: 0.0,
                steps,
                outcome: Line::from(e).number,
                ..self
            },
        }
    }

    #[tactic(auto, unfolding(crate::specs::State::place_fits))]
    fn place_fits(self, c: Checked, end: usize) -> bool
        ensures { result ≡ place_fits (passed c) end self }
    {
        if self.outcome == DONE {
            (self.number == c.count) & (self.place == end)
        } else {
            (self.number < c.count) & (self.place == c.found)
        }
    }

    #[tactic(auto, unfolding(crate::specs::State::passes_fit))]
    fn passes_fit(self, c: Checked) -> bool
        ensures { result ≡ passes_fit (passed c) self }
    {
        if self.outcome == RUNNING {
            self.passes < c.limit
        } else {
            self.passes == 0
        }
    }

    // Whether the state fits the recipe of which c says what it is, and which is `end` bytes long.
    #[tactic(auto, unfolding(crate::specs::State::fits_of))]
    pub(crate) fn fits(self, c: Checked, end: usize) -> bool
        ensures { result ≡ fits_of (passed c) end self }
    {
        outcome_known(self.outcome)
            & self.place_fits(c, end)
            & self.passes_fit(c)
            & (self.steps <= c.limits)
            & self.beam.is_good()
    }
}
