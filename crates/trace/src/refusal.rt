// Why a call is refused, and for which record.
ghost use Rattle.std.specs.Prelude.{◌≡◌};
ghost use Rattle.trace.specs.declared.refusal.Why.TheVariants as why;
ghost use Rattle.trace.specs.State.{standing};
ghost use Rattle.trace.specs.Run.{no_beam};
ghost use Rattle.trace.specs.Refusal.{why_number};

use crate::state::State;
use recipe::Fault;
use surfaces::no_ray;

// The numbers of the table (SCOPE T1) that a call adds.
pub const BUFFER_TOO_SHORT: u8 = 11;

pub const STATE_DOES_NOT_FIT: u8 = 12;

#[derive(Clone, Copy, PartialEq, Eq)]
pub enum Why {
    Fault(Fault),
    BufferTooShort,
    StateDoesNotFit,
}

impl Why {
    // The table's number.
    pub fn number(self) -> u8
        ensures { result ≡ why_number self }
    {
        match self {
            Why::Fault(fault) => fault.number(),
            Why::BufferTooShort => BUFFER_TOO_SHORT,
            Why::StateDoesNotFit => STATE_DOES_NOT_FIT,
        }
    }
}

// The place is that of the record that is refused, and 0 where none is.
#[derive(Clone, Copy, PartialEq, Eq)]
pub struct Refused {
    pub why: Why,
    pub place: usize,
}

impl Refused {
    // What stands after a refused start: the outcome is the refusal, and all else 0.
    #[tactic(auto, using(numbers::proofs::Literals::literals))]
    pub fn state(self) -> State
        ensures { result ≡ standing 0 0 no_beam 0 (why_number self.why) }
    {
        State::first(no_ray(), 0.0, self.why.number())
    }
}

impl From<Why> for Refused {
    ghost from_gives = { λ w r. r ≡ record { why = w; place = 0 } };

    fn from(why: Why) -> Refused {
        Refused { why, place: 0 }
    }
}

impl From<Fault> for Refused {
    ghost from_gives = { λ f r. r ≡ record { why = why.Fault f; place = 0 } };

    fn from(fault: Fault) -> Refused {
        Refused::from(Why::Fault(fault))
    }
}

impl From<recipe::Refused> for Refused {
    ghost from_gives = { λ e r. r ≡ record { why = why.Fault e.fault; place = e.place } };

    fn from(refused: recipe::Refused) -> Refused {
        Refused {
            why: Why::Fault(refused.fault),
            place: refused.place,
        }
    }
}
