// What lasts from line to line, and what a command makes of it.
use crate::command::{Bytes, Command, LONGEST, WIDEST};
use crate::reply::{print_reach, print_reply};
use lines::part;
use std::io::{Result, Write};
use surfaces::{Ray, no_ray};
use trace::{MOST_ROOM, RUNNING, State, reach, start};

// Recipe and results in fixed arrays, since there is no heap, how much of each is in use, and the last state.
#[derive(Drop)]
pub(crate) struct Station {
    recipe: Bytes,
    length: usize,
    results: [f64; WIDEST],
    room: usize,
    state: State,
}

impl Station {
    // Without a recipe, with room for the most records.
    pub(crate) fn new() -> Station {
        Station {
            recipe: [0; LONGEST],
            length: 0,
            results: [1.0; WIDEST],
            room: MOST_ROOM,
            state: State::first(no_ray(), 0.0, RUNNING),
        }
    }

    // The bytes of a new recipe begin `given`.
    pub(crate) fn obey<W: Write>(
        &mut self,
        output: &mut W,
        c: Command,
        given: &Bytes,
    ) -> Result<()> {
        match c {
            Command::Recipe(n) => {
                self.recipe = *given;
                self.length = n;
            }
            Command::Room(n) => {
                self.room = n;
                first(&mut self.results, n).fill(1.0);
            }
            Command::Start { ray, index } => self.begin(output, ray, index)?,
            Command::State(next) => self.state = next,
            Command::Continue(n) => self.go_on(output, n)?,
            Command::Reach {
                surface,
                ray,
                index,
            } => {
                let recipe = part(&self.recipe, 0, self.length);
                print_reach(output, surface, reach(recipe, ray, index, surface))?;
            }
        }
        Ok(())
    }

    fn begin<W: Write>(&mut self, output: &mut W, ray: Ray, index: f64) -> Result<()> {
        let results = first(&mut self.results, self.room);
        let answer = start(part(&self.recipe, 0, self.length), ray, index, results);
        self.state = answer.unwrap_or_else(|refused| refused.state());
        print_reply(output, b"start", answer, self.state, results)
    }

    fn go_on<W: Write>(&mut self, output: &mut W, allowed: u16) -> Result<()> {
        let results = first(&mut self.results, self.room);
        let answer = self
            .state
            .resume(part(&self.recipe, 0, self.length), results, allowed);
        self.state = self.state.handed_back(answer);
        print_reply(output, b"continue", answer, self.state, results)
    }
}

// The first n numbers, as many as there are.
fn first(results: &mut [f64], n: usize) -> &mut [f64] {
    let n = n.min(results.len());
    &mut results[..n]
}
