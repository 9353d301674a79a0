// What is printed of an answer.
use lines::{COUNT_BYTES, FLOAT_BYTES, put_count, put_floats, put_word, write_line};
use std::io::{self, Write};
use surfaces::{
    ACCEPTED, BiconicSurface, Coefficients, ConicSurface, EvenAsphere, HitRecord, Landing, Line,
    MOST_COEFFICIENTS, Meridians, OddAsphere, Refusal, ToroidalSurface, Vec3,
};

// An odd asphere has the most values: c, k, the semi-diameter and both its lists of coefficients.
const MOST_VALUES: usize = 3 + 2 * MOST_COEFFICIENTS;

// The most bytes of a line.
const LINE_BYTES: usize = COUNT_BYTES + MOST_VALUES * FLOAT_BYTES;

// The table's number (SCOPE T1), and the first `count` of the values: a fixed array, since there is no heap.
#[derive(Drop)]
pub struct Printed {
    pub number: u8,
    pub count: usize,
    pub values: [f64; MOST_VALUES],
}

impl Printed {
    fn numbered(number: u8) -> Printed {
        Printed {
            number,
            count: 0,
            values: [0.0; MOST_VALUES],
        }
    }

    // One number more, while there is room.
    fn push(mut self, x: f64) -> Printed {
        if self.count < MOST_VALUES {
            self.values[self.count] = x;
            self.count += 1;
        }
        self
    }

    fn with<T: Shown>(self, value: T) -> Printed {
        value.show(self)
    }

    fn put(self, line: &mut [u8]) -> usize {
        let end = put_count(line, 0, u64::from(self.number));
        put_floats(line, end, &self.values[..self.count.min(MOST_VALUES)])
    }
}

// What is printed as its numbers, one after the other.
pub(crate) trait Shown {
    fn show(self, answer: Printed) -> Printed;
}

impl Shown for f64 {
    fn show(self, answer: Printed) -> Printed {
        answer.push(self)
    }
}

impl Shown for bool {
    fn show(self, answer: Printed) -> Printed {
        answer.push(f64::from(self))
    }
}

impl Shown for Vec3 {
    fn show(self, answer: Printed) -> Printed {
        answer.with(self.x).with(self.y).with(self.z)
    }
}

impl Shown for Meridians {
    fn show(self, answer: Printed) -> Printed {
        answer.with(self.x).with(self.y)
    }
}

impl Shown for Landing {
    fn show(self, answer: Printed) -> Printed {
        answer.with(self.t).with(self.point)
    }
}

impl Shown for HitRecord {
    fn show(self, answer: Printed) -> Printed {
        answer
            .with(self.t)
            .with(self.point)
            .with(self.normal)
            .with(self.front)
    }
}

impl Shown for Coefficients {
    fn show(self, answer: Printed) -> Printed {
        self.terms().iter().fold(answer, |a, x| a.push(*x))
    }
}

impl Shown for ConicSurface {
    fn show(self, answer: Printed) -> Printed {
        answer
            .with(self.vertex)
            .with(self.curvature)
            .with(self.conic)
            .with(self.semi)
    }
}

impl Shown for EvenAsphere {
    fn show(self, answer: Printed) -> Printed {
        answer
            .with(self.curvature)
            .with(self.conic)
            .with(self.semi)
            .with(self.coefficients)
    }
}

impl Shown for OddAsphere {
    fn show(self, answer: Printed) -> Printed {
        answer
            .with(self.curvature)
            .with(self.conic)
            .with(self.semi)
            .with(self.even)
            .with(self.odd)
    }
}

impl Shown for BiconicSurface {
    fn show(self, answer: Printed) -> Printed {
        answer
            .with(self.cx)
            .with(self.kx)
            .with(self.cy)
            .with(self.ky)
            .with(self.semi)
    }
}

impl Shown for ToroidalSurface {
    fn show(self, answer: Printed) -> Printed {
        answer
            .with(self.rx)
            .with(self.cy)
            .with(self.ky)
            .with(self.semi)
    }
}

// What cannot be refused.
pub(crate) fn just<T: Shown>(value: T) -> Printed {
    Printed::numbered(ACCEPTED).with(value)
}

pub(crate) fn answer<T: Shown>(a: Result<T, Refusal>) -> Printed {
    match a {
        Ok(value) => just(value),
        Err(e) => refused(e),
    }
}

fn refused(e: Refusal) -> Printed {
    let answer = Printed::numbered(Line::from(e).number);
    match e {
        Refusal::RayVignetted { r, limit } => answer.with(r).with(limit),
        _ => answer,
    }
}

// A line that cannot be read has no answer.
pub(crate) fn print<W: Write>(answer: Option<Printed>, output: &mut W) -> io::Result<()> {
    let mut line = [0u8; LINE_BYTES];
    let end = match answer {
        Some(printed) => printed.put(&mut line),
        None => put_word(&mut line, 0, b"?"),
    };
    write_line(output, &mut line, end)
}
