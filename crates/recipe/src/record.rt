// The record at a place of a recipe.
ghost use Rattle.std.specs.Prelude.{◌≡◌, true, false, length, eqb, ◌+◌, ◌*◌, ◌/◌, ◌%◌, ◌≤◌};
ghost use Rattle.std.specs.Result.{MatchResult};
ghost use Rattle.surfaces.specs.Types.{every_finite, polynomial};
ghost use Rattle.recipe.specs.Endian.{numbers_at};
ghost use Rattle.recipe.specs.Record.{length_at, kind_at, end_at, slot_at, shaped_at, semi_slot, kind_of};
ghost use Rattle.recipe.specs.Fault.{fault_number};
ghost use Rattle.recipe.specs.Record.{negative_semi, odd_count, even_count, coefficients_at, optic_at, read_at};
ghost use Rattle.recipe.specs.Record.{told_record};
ghost use Rattle.recipe.specs.Shape.{Shape};

use crate::endian::{NUMBER_BYTES, number_at, numbers_finite, u16_at};
use crate::fault::Fault;
use crate::kind::{
    KIND_BICONIC, KIND_BYTES, KIND_CONIC, KIND_EVEN_ASPHERE, KIND_MIRROR, KIND_ODD_ASPHERE,
    LENGTH_EVEN_ASPHERE, even_count, length_fits, negative_semi, odd_count, semi_slot,
};
use surfaces::{Coefficients, Kind, MOST_COEFFICIENTS, Polynomial, Surface};

// A record is its length, which counts the bytes behind itself, then its kind, then numbers.
pub(crate) const LENGTH_BYTES: usize = 2;

const HEAD_BYTES: usize = LENGTH_BYTES + KIND_BYTES;

// How many bytes a recipe has at most.
pub const MOST_RECIPE_BYTES: usize = 65536;

// The slots of its numbers: vertex z, the index after, two to four of the form's own.
const VERTEX: usize = 0;

const INDEX: usize = 1;

const FIRST: usize = 2;

const SECOND: usize = 3;

const THIRD: usize = 4;

const FOURTH: usize = 5;

// Where coefficients begin, from the record's place on, those of even powers first.
const COEFFICIENTS_PLACE: usize = LENGTH_BYTES + LENGTH_EVEN_ASPHERE;

// A surface, and the index behind it: a mirror has one too, as its record does, though a trace does not use it.
#[derive(Clone, Copy)]
pub struct Optic {
    pub surface: Surface,
    pub mirror: bool,
    pub index: f64,
}

// A surface, and the next record's place.
#[derive(Clone, Copy)]
pub struct ReadRecord {
    pub next: usize,
    pub optic: Optic,
}

// The number of a slot behind length and kind.
#[tactic(auto, unfolding(crate::specs::Record::slot_at))]
pub(crate) fn slot(s: &[u8], at: usize, i: usize) -> f64
    requires { at + 12 + 8 * i ≤ length s.now }
    ensures { result ≡ slot_at s.now at i }
{
    number_at(s, at + HEAD_BYTES + NUMBER_BYTES * i)
}

#[tactic(auto, using(crate::proofs::Numbers::coefficients))]
fn coefficients_at(s: &[u8], at: usize, count: usize) -> Coefficients
    requires { (count ≤ 8) × (at + 8 * count ≤ length s.now) }
    ensures { result ≡ coefficients_at s.now at count }
{
    let mut values = [0.0f64; MOST_COEFFICIENTS];
    for i in 0..count {
        values[i] = number_at(s, at + NUMBER_BYTES * i);
    }
    Coefficients { count, values }
}

// A record that is whole, of a length that its kind has, and ends within the longest recipe.
#[derive(Clone, Copy)]
pub(crate) struct Record<'a> {
    bytes: &'a [u8],
    at: usize,
    // how many bytes follow its length
    len: usize,
    // of the surface, mirror or not: a number, for the reason that stands at `length_fits`
    kind: usize,
    mirror: bool,
    ghost shaped: { shaped_at bytes.now at ≡ true },
    ghost length_is: { len ≡ length_at bytes.now at },
    ghost kind_is: { kind ≡ kind_at bytes.now at % 256 },
    ghost mirror_is: { mirror ≡ eqb (kind_at bytes.now at / 256) 1 },
    ghost places: { Shape (length bytes.now) at kind len },
}

impl<'a> Record<'a> {
    pub(crate) fn read(bytes: &'a [u8], at: usize) -> Result<Record<'a>, Fault>
        ensures { MatchResult result
            (λ r. (r.bytes.now ≡ bytes.now) × (r.at ≡ at))
            (λ e. (e ≡ Fault.Malformed) × (shaped_at bytes.now at ≡ false)) }
    {
        if bytes.len().saturating_sub(at) < HEAD_BYTES {
            return Err(Fault::Malformed);
        }
        let len = u16_at(bytes, at);
        let whole = u16_at(bytes, at + LENGTH_BYTES);
        let kind = whole % KIND_MIRROR;
        let mirror = whole / KIND_MIRROR;
        let end = at + LENGTH_BYTES + len;
        let formed = (end <= bytes.len()) & (mirror <= 1) & length_fits(kind, len);
        if !(formed & (end <= MOST_RECIPE_BYTES)) {
            return Err(Fault::Malformed);
        }
        Ok(Record {
            bytes,
            at,
            len,
            kind,
            mirror: mirror == 1,
        })
    }

    // Where the next one begins.
    pub(crate) fn end(self) -> usize
        ensures { let r = self.entry in result ≡ end_at r.bytes.now r.at }
    {
        self.at + LENGTH_BYTES + self.len
    }

    fn slot(self, i: usize) -> f64
        requires { i ≤ semi_slot self.kind }
        ensures { let r = self.entry in result ≡ slot_at r.bytes.now r.at i }
    {
        slot(self.bytes, self.at, i)
    }

    pub(crate) fn is_finite(self) -> bool
        ensures { let r = self.entry in
            result ≡ every_finite (numbers_at r.bytes.now (r.at + 4) (length_at r.bytes.now r.at / 8)) }
    {
        numbers_finite(self.bytes, self.at + HEAD_BYTES, self.len / NUMBER_BYTES)
    }

    pub(crate) fn semi(self) -> f64
        ensures { let r = self.entry in
            result ≡ slot_at r.bytes.now r.at (semi_slot (kind_at r.bytes.now r.at % 256)) }
    {
        self.slot(semi_slot(self.kind))
    }

    #[tactic(auto, unfolding(crate::specs::Record::semi_slot))]
    pub(crate) fn index(self) -> f64
        ensures { let r = self.entry in result ≡ slot_at r.bytes.now r.at 1 }
    {
        self.slot(INDEX)
    }

    // What a negative semi-diameter is refused with.
    pub(crate) fn negative_semi(self) -> Fault
        ensures { let r = self.entry in fault_number result ≡ negative_semi (kind_at r.bytes.now r.at % 256) }
    {
        negative_semi(self.kind)
    }

    #[tactic(auto, unfolding(crate::specs::Record::kind_of, crate::specs::Record::semi_slot))]
    pub(crate) fn kind(self) -> Kind
        ensures { let r = self.entry in
            result ≡ kind_of (kind_at r.bytes.now r.at % 256) (slot_at r.bytes.now r.at) }
    {
        let kind = self.kind;
        let a = self.slot(FIRST);
        let b = self.slot(SECOND);
        if kind == KIND_CONIC {
            return Kind::Conic { c: a, k: b };
        }
        if (kind == KIND_EVEN_ASPHERE) | (kind == KIND_ODD_ASPHERE) {
            return Kind::Asphere {
                c: a,
                k: b,
                odd: kind == KIND_ODD_ASPHERE,
            };
        }
        let c = self.slot(THIRD);
        if kind == KIND_BICONIC {
            return Kind::Biconic {
                cx: a,
                kx: b,
                cy: c,
                ky: self.slot(FOURTH),
            };
        }
        Kind::Toroid {
            rx: a,
            cy: b,
            ky: c,
        }
    }

    fn polynomial(self) -> Polynomial
        ensures { let r = self.entry in
            let even = even_count r.kind r.len in
            let odd = odd_count r.kind in
            result ≡ polynomial
            (coefficients_at r.bytes.now (r.at + 44) even)
            (coefficients_at r.bytes.now (r.at + 44 + 8 * even) odd) }
    {
        let first = self.at + COEFFICIENTS_PLACE;
        let even = even_count(self.kind, self.len);
        Polynomial {
            even: coefficients_at(self.bytes, first, even),
            odd: coefficients_at(
                self.bytes,
                first + NUMBER_BYTES * even,
                odd_count(self.kind),
            ),
        }
    }

    #[tactic(auto, unfolding(crate::specs::Record::optic_at))]
    fn optic(self) -> Optic
        ensures { let r = self.entry in result ≡ optic_at r.bytes.now r.at }
    {
        Optic {
            surface: Surface {
                vertex: self.slot(VERTEX),
                semi: self.semi(),
                kind: self.kind(),
                polynomial: self.polynomial(),
            },
            mirror: self.mirror,
            index: self.index(),
        }
    }
}

// The record at a place, by its shape alone: whether its numbers are good is for `check`.
#[tactic(auto, unfolding(crate::specs::Record::read_at))]
pub fn read_record(s: &[u8], at: usize) -> Option<ReadRecord>
    ensures { told_record result ≡ read_at s.now at }
{
    let record = Record::read(s, at).ok()?;
    Some(ReadRecord {
        next: record.end(),
        optic: record.optic(),
    })
}
