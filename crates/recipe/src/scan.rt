// A recipe's records, checked from the first on.
ghost use Rattle.std.specs.Prelude.{◌≡◌};
ghost use Rattle.recipe.specs.Fault.{fault_number};
ghost use Rattle.recipe.specs.Scan.{check_of, told_check};
ghost use Rattle.recipe.specs.Record.{negative_semi, record_at};
ghost use Rattle.recipe.specs.Parts.{seen_of, told_look, told_look_at, placed};

use crate::fault::Fault;
use crate::record::Record;
use surfaces::limit;

// What a look at one record says: the next record's place, and the surface's limit.
#[derive(Clone, Copy)]
pub(crate) struct Seen {
    pub next: usize,
    pub limit: u16,
}

// What a check of a good recipe says.
#[derive(Clone, Copy)]
pub struct Checked {
    // how many surfaces, and the sum of their limits
    pub count: usize,
    pub limits: usize,
    // of the wanted surface, its place and its limit: both 0 without it, as in the rule's verdict
    pub found: usize,
    pub limit: u16,
    // where it stopped, behind the last surface
    pub end: usize,
}

// Of one that is refused, the bad record's fault and its place; the trace has more reasons, and a `Refused` of its own.
#[derive(Clone, Copy, PartialEq, Eq)]
pub struct Refused {
    pub fault: Fault,
    pub place: usize,
}

#[tactic(auto, unfolding(crate::specs::Record::record_at), using(crate::proofs::Records::looking))]
fn look(s: &[u8], at: usize) -> Result<Seen, Fault>
    ensures { told_look result ≡ seen_of (record_at s.now at) }
{
    let record = Record::read(s, at)?;
    if !record.is_finite() {
        return Err(Fault::BadParameter);
    }
    if record.semi() < 0.0 {
        return Err(record.negative_semi());
    }
    if record.index() <= 0.0 {
        return Err(Fault::Singular);
    }
    Ok(Seen {
        next: record.end(),
        limit: limit(record.kind()),
    })
}

// A refusal has its record's place.
fn look_at(s: &[u8], at: usize) -> Result<Seen, Refused>
    ensures { told_look_at result ≡ placed at (seen_of (record_at s.now at)) }
{
    look(s, at).map_err(|fault| Refused { fault, place: at })
}

// `most`, `all` and `wanted` are the rule's own, which the theorems on one surface's record speak of.
// At most so many records, and what they say of the wanted surface. Where all are asked for, more are refused; else the
// check stops before them.
pub fn check(s: &[u8], most: usize, all: bool, wanted: usize) -> Result<Checked, Refused>
    ensures { told_check result ≡ check_of s.now most all wanted }
{
    let mut c = Checked {
        count: 0,
        limits: 0,
        found: 0,
        limit: 0,
        end: 0,
    };
    for number in 0..most {
        if c.end >= s.len() {
            return Ok(c);
        }
        let seen = look_at(s, c.end)?;
        if number == wanted {
            c.found = c.end;
            c.limit = seen.limit;
        }
        c.count = number + 1;
        c.limits += usize::from(seen.limit);
        c.end = seen.next;
    }
    if all & (c.end < s.len()) {
        return Err(Refused {
            fault: Fault::Malformed,
            place: c.end,
        });
    }
    Ok(c)
}
