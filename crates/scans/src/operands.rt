// The operands of a line, one after the other.
ghost use Rattle.std.specs.Prelude.{◌≤◌, IfSome};

use lines::{Words, read_count, read_float};
use surfaces::{Ray, Vec3};

pub(crate) fn next_count(words: &mut Words<'_>, most: u64) -> Option<u64>
    ensures { IfSome result (λ n. n ≤ most) }
{
    read_count(words.next()?, most)
}

pub(crate) fn next_number(words: &mut Words<'_>) -> Option<f64> {
    read_float(words.next()?)
}

fn next_vector(words: &mut Words<'_>) -> Option<Vec3> {
    let x = next_number(words)?;
    let y = next_number(words)?;
    let z = next_number(words)?;
    Some(Vec3 { x, y, z })
}

pub(crate) fn next_ray(words: &mut Words<'_>) -> Option<Ray> {
    let origin = next_vector(words)?;
    let direction = next_vector(words)?;
    Some(Ray { origin, direction })
}
