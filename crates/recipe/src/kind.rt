// What a record's kind, less a mirror's 256, tells of it.
ghost use Rattle.std.specs.Prelude.{◌≡◌, ◌≤◌};
ghost use Rattle.recipe.specs.Record.{length_fits, semi_slot, odd_count, even_count, negative_semi};
ghost use Rattle.recipe.specs.Fault.{fault_number};

use crate::endian::NUMBER_BYTES;
use crate::fault::Fault;
use surfaces::MOST_COEFFICIENTS;

// How many bytes a kind takes.
pub(crate) const KIND_BYTES: usize = 2;

// The kinds' numbers are the recipe format's, and the C header names them.
pub const KIND_CONIC: usize = 1;

pub const KIND_EVEN_ASPHERE: usize = 2;

pub const KIND_BICONIC: usize = 3;

pub const KIND_TOROID: usize = 4;

pub const KIND_ODD_ASPHERE: usize = 5;

// A mirror's kind is the surface's and this.
pub const KIND_MIRROR: usize = 256;

// Each kind's length, an even asphere's without coefficients.
const LENGTH_CONIC: usize = 42;

pub(crate) const LENGTH_EVEN_ASPHERE: usize = 42;

const LENGTH_BICONIC: usize = 58;

const LENGTH_TOROID: usize = 50;

const LONGEST_EVEN_ASPHERE: usize = LENGTH_EVEN_ASPHERE + NUMBER_BYTES * MOST_COEFFICIENTS;

const LENGTH_ODD_ASPHERE: usize = LONGEST_EVEN_ASPHERE + NUMBER_BYTES * MOST_COEFFICIENTS;

// The semi-diameter's slot is the last, and coefficients come behind it.
const SEMI_CONIC: usize = LENGTH_CONIC / NUMBER_BYTES - 1;

const SEMI_BICONIC: usize = LENGTH_BICONIC / NUMBER_BYTES - 1;

const SEMI_TOROID: usize = LENGTH_TOROID / NUMBER_BYTES - 1;

const COEFFICIENTS: usize = LENGTH_EVEN_ASPHERE / NUMBER_BYTES;

// By numbers tested in turn: an enum, or a match of five kinds, is compiled to a jump by a table, and is slower.
#[tactic(auto, unfolding(crate::specs::Record::length_fits))]
pub(crate) fn length_fits(kind: usize, len: usize) -> bool
    ensures { result ≡ length_fits kind len }
{
    if kind == KIND_CONIC {
        return len == LENGTH_CONIC;
    }
    if kind == KIND_EVEN_ASPHERE {
        return (LENGTH_EVEN_ASPHERE <= len)
            & (len <= LONGEST_EVEN_ASPHERE)
            & (len % NUMBER_BYTES == KIND_BYTES);
    }
    if kind == KIND_BICONIC {
        return len == LENGTH_BICONIC;
    }
    ((kind == KIND_TOROID) & (len == LENGTH_TOROID))
        | ((kind == KIND_ODD_ASPHERE) & (len == LENGTH_ODD_ASPHERE))
}

#[tactic(auto, unfolding(crate::specs::Record::semi_slot))]
pub(crate) fn semi_slot(kind: usize) -> usize
    ensures { result ≡ semi_slot kind }
{
    match kind {
        KIND_BICONIC => SEMI_BICONIC,
        KIND_TOROID => SEMI_TOROID,
        _ => SEMI_CONIC,
    }
}

// How many coefficients of even powers a record of this length has.
#[tactic(auto, unfolding(crate::specs::Record::even_count))]
pub(crate) fn even_count(kind: usize, len: usize) -> usize
    requires { 42 ≤ len }
    ensures { result ≡ even_count kind len }
{
    match kind {
        KIND_EVEN_ASPHERE => len / NUMBER_BYTES - COEFFICIENTS,
        _ => odd_count(kind),
    }
}

#[tactic(auto, unfolding(crate::specs::Record::odd_count))]
pub(crate) fn odd_count(kind: usize) -> usize
    ensures { result ≡ odd_count kind }
{
    match kind {
        KIND_ODD_ASPHERE => MOST_COEFFICIENTS,
        _ => 0,
    }
}

#[tactic(auto, unfolding(crate::specs::Record::negative_semi))]
pub(crate) fn negative_semi(kind: usize) -> Fault
    ensures { fault_number result ≡ negative_semi kind }
{
    match kind {
        KIND_CONIC => Fault::NegativeSemiDiameter,
        _ => Fault::BadParameter,
    }
}
