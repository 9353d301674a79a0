// A recipe's bytes: the record at a place, and a check of the whole. No function asks anything of its caller, and each
// says what it answers to every argument.
#![tactic(auto)]

mod endian;
mod fault;
mod kind;
mod record;
mod scan;
mod source;

pub use fault::{Fault, MALFORMED};
pub use kind::{
    KIND_BICONIC, KIND_CONIC, KIND_EVEN_ASPHERE, KIND_MIRROR, KIND_ODD_ASPHERE, KIND_TOROID,
};
pub use record::{MOST_RECIPE_BYTES, Optic, ReadRecord, read_record};
pub use scan::{Checked, Refused, check};
pub use source::{SOURCE_BYTES, Source, read_source};
