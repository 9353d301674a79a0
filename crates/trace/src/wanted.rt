// One surface's record, from the records up to it alone.
ghost use Rattle.std.specs.Prelude.{◌≡◌};
ghost use Rattle.trace.specs.Wanted.{told_reach, reach_of};

use crate::leg::{BLANK, RECORD_NUMBERS};
use crate::refusal::Refused;
use crate::run::{MOST_RECORDS, admit, walk};
use crate::state::{RUNNING, State};
use recipe::{Fault, check};
use surfaces::Ray;

// Ray and index stand apart, as in the rule and in the header's call.
// Surfaces count from 0, and no record behind the wanted one is looked at. The record is blank where the beam ended
// before it.
pub fn reach(
    recipe: &[u8],
    ray: Ray,
    index: f64,
    wanted: usize,
) -> Result<[f64; RECORD_NUMBERS], Refused>
    ensures { told_reach result ≡ reach_of recipe.now ray index wanted }
{
    if wanted >= MOST_RECORDS {
        return Err(Refused::from(Fault::BadParameter));
    }
    let c = check(recipe, wanted + 1, false, wanted)?;
    if c.count <= wanted {
        return Err(Refused::from(Fault::BadParameter));
    }
    admit(ray, index)?;
    let mut row = [BLANK; RECORD_NUMBERS];
    let first = State::first(ray, index, RUNNING);
    walk(first, &recipe[..c.end], &mut row, wanted, c.count, u16::MAX);
    Ok(row)
}

// The record that an answer tells: a refused question's is blank.
#[tactic(auto, using(numbers::proofs::Literals::literals))]
pub fn record_told(answer: Result<[f64; RECORD_NUMBERS], Refused>) -> [f64; RECORD_NUMBERS]
    ensures { result ≡ (told_reach answer).row }
{
    answer.unwrap_or([BLANK; RECORD_NUMBERS])
}
