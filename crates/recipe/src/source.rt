// The record that stands first in a program's file.
ghost use Rattle.std.specs.Prelude.{◌≡◌, length, ◌+◌, ◌*◌, ◌≤◌};
ghost use Rattle.recipe.specs.Source.{is_source, vector_at, source_of, told_source};

use crate::endian::u16_at;
use crate::record::{LENGTH_BYTES, slot};
use surfaces::{Ray, Vec3};

const KIND_SOURCE: usize = 0;

const LENGTH_SOURCE: usize = 58;

// How many bytes it takes.
pub const SOURCE_BYTES: usize = LENGTH_BYTES + LENGTH_SOURCE;

// Its slots.
const ORIGIN: usize = 0;

const DIRECTION: usize = 3;

const INDEX: usize = 6;

// A ray, and the index that it starts in.
#[derive(Clone, Copy)]
pub struct Source {
    pub ray: Ray,
    pub index: f64,
}

#[tactic(auto, unfolding(crate::specs::Source::is_source))]
fn is_source(file: &[u8]) -> bool
    ensures { result ≡ is_source file.now }
{
    if file.len() < SOURCE_BYTES {
        return false;
    }
    (u16_at(file, 0) == LENGTH_SOURCE) & (u16_at(file, LENGTH_BYTES) == KIND_SOURCE)
}

// Three slots from one on.
#[tactic(auto, unfolding(crate::specs::Source::vector_at))]
fn vector(file: &[u8], i: usize) -> Vec3
    requires { 28 + 8 * i ≤ length file.now }
    ensures { result ≡ vector_at file.now i }
{
    Vec3 {
        x: slot(file, 0, i),
        y: slot(file, 0, i + 1),
        z: slot(file, 0, i + 2),
    }
}

#[tactic(auto, using(crate::proofs::Shapes::source_room), unfolding(crate::specs::Source::source_of))]
pub fn read_source(file: &[u8]) -> Option<Source>
    ensures { told_source result ≡ source_of file.now }
{
    if !is_source(file) {
        return None;
    }
    let ray = Ray {
        origin: vector(file, ORIGIN),
        direction: vector(file, DIRECTION),
    };
    Some(Source {
        ray,
        index: slot(file, 0, INDEX),
    })
}
