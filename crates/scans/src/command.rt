// What a line asks for.
use crate::operands::{next_count, next_number, next_ray};
use lines::{Words, digit_value};
use surfaces::Ray;
use trace::{Beam, State};

// The most bytes that a recipe has, as many as a line spells, and the most numbers that there is room for.
pub const LONGEST: usize = 65596;

pub const WIDEST: usize = 8192;

pub type Bytes = [u8; LONGEST];

#[derive(Drop)]
pub enum Command {
    // So many bytes, which stand beside the command, since there is no heap.
    Recipe(usize),
    Room(usize),
    Start {
        ray: Ray,
        index: f64,
    },
    State(State),
    Continue(u16),
    // The record of the surface of a number.
    Reach {
        surface: usize,
        ray: Ray,
        index: f64,
    },
}

// A recipe's bytes are put into `given`.
pub(crate) fn read_command(line: &[u8], given: &mut Bytes) -> Option<Command> {
    let mut words = Words(line);
    let command = match words.next()? {
        b"recipe" => read_recipe(&mut words, given)?,
        b"room" => read_room(&mut words)?,
        b"start" => read_start(&mut words)?,
        b"state" => read_state(&mut words)?,
        b"continue" => read_continue(&mut words)?,
        b"reach" => read_reach(&mut words)?,
        _ => return None,
    };
    words.next().is_none().then_some(command)
}

// An empty recipe has no word.
fn read_recipe(words: &mut Words<'_>, given: &mut Bytes) -> Option<Command> {
    let (pairs, rest) = words.next().unwrap_or_default().as_chunks();
    if !rest.is_empty() {
        return None;
    }
    let n = pairs.len();
    for (byte, pair) in given.get_mut(..n)?.iter_mut().zip(pairs) {
        *byte = byte_of(pair)?;
    }
    Some(Command::Recipe(n))
}

// Here and below what fits its type by the bound that it was read with is cast: `try_from` would test it again.
fn byte_of(digits: &[u8; 2]) -> Option<u8> {
    let high = digit_value(digits[0])?;
    let low = digit_value(digits[1])?;
    Some((high * 16 + low) as u8)
}

fn read_room(words: &mut Words<'_>) -> Option<Command> {
    let n = next_count(words, WIDEST as u64)?;
    Some(Command::Room(n as usize))
}

fn read_start(words: &mut Words<'_>) -> Option<Command> {
    let ray = next_ray(words)?;
    let index = next_number(words)?;
    Some(Command::Start { ray, index })
}

fn read_state(words: &mut Words<'_>) -> Option<Command> {
    let number = next_count(words, u64::MAX)?;
    let place = next_count(words, u64::MAX)?;
    let passes = next_count(words, u64::from(u16::MAX))?;
    let t = next_number(words)?;
    let ray = next_ray(words)?;
    let index = next_number(words)?;
    let path = next_number(words)?;
    let steps = next_count(words, u64::MAX)?;
    let outcome = next_count(words, u64::from(u8::MAX))?;
    Some(Command::State(State {
        number: number as usize,
        place: place as usize,
        passes: passes as u16,
        t,
        beam: Beam { ray, index, path },
        steps: steps as usize,
        outcome: outcome as u8,
    }))
}

fn read_continue(words: &mut Words<'_>) -> Option<Command> {
    let n = next_count(words, u64::from(u16::MAX))?;
    Some(Command::Continue(n as u16))
}

fn read_reach(words: &mut Words<'_>) -> Option<Command> {
    let surface = next_count(words, u64::MAX)?;
    let ray = next_ray(words)?;
    let index = next_number(words)?;
    Some(Command::Reach {
        surface: surface as usize,
        ray,
        index,
    })
}
