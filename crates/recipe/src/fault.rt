// What is wrong with a record.
ghost use Rattle.std.specs.Prelude.{◌≡◌};
ghost use Rattle.recipe.specs.Fault.{fault_number};

use surfaces::{BAD_PARAMETER, NEGATIVE_SEMI_DIAMETER, SINGULAR};

// The table's number for what is no record (SCOPE T1).
pub const MALFORMED: u8 = 10;

#[derive(Clone, Copy, PartialEq, Eq)]
pub enum Fault {
    BadParameter,
    NegativeSemiDiameter,
    Singular,
    Malformed,
}

impl Fault {
    // The table's number: by a method, since `u8::from` would not say of which table.
    pub fn number(self) -> u8
        ensures { result ≡ fault_number self }
    {
        match self {
            Fault::BadParameter => BAD_PARAMETER,
            Fault::NegativeSemiDiameter => NEGATIVE_SEMI_DIAMETER,
            Fault::Singular => SINGULAR,
            Fault::Malformed => MALFORMED,
        }
    }
}
