// The words of a line, which spaces part.
ghost use Rattle.std.specs.Prelude.{◌≡◌, ◌-◌, ◌<◌, ◌==◌, not, length, take, drop};
ghost use Rattle.std.specs.Prelude.{position, IfSome, option_map};
ghost use Rattle.std.specs.Iterator.{at_most};
ghost use Rattle.lines.specs.Words.{next_word};

// The words of a line, or of what is left of it behind the words that were taken.
#[derive(Drop)]
pub struct Words<'a>(pub &'a [u8]);

impl<'a> Iterator for Words<'a> {
    type Item = &'a [u8];

    ghost next_gives = { λ s r t. (option_map (λ word. word.now) r, t.0.now) ≡ next_word s.0.now };

    ghost remaining = { λ s. at_most (length s.0.now) };

    #[tactic(auto, unfolding(crate::specs::Words::next_word, crate::specs::Words::split_at))]
    fn next(&mut self) -> Option<&'a [u8]> {
        let line = self.0;
        let text = &line[start_of(line)?..];
        let (word, rest) = text.split_at(space_of(text).unwrap_or(text.len()));
        self.0 = rest;
        Some(word)
    }
}

// Where the first word of a line begins.
fn start_of(line: &[u8]) -> Option<usize>
    ensures place { result ≡ position (λ b. not (b == 32)) line.now }
    ensures within { IfSome result (λ start. start < length line.now) }
{
    line.iter().position(|b| *b != b' ')
}

// Where the first space of a text is.
fn space_of(text: &[u8]) -> Option<usize>
    ensures place { result ≡ position (λ b. b == 32) text.now }
    ensures within { IfSome result (λ end. end < length text.now) }
{
    text.iter().position(|b| *b == b' ')
}

// The bytes from a place up to another, as many as there are.
pub fn part(line: &[u8], start: usize, end: usize) -> &[u8]
    ensures { result.now ≡ take (end - start) (drop start line.now) }
{
    let end = end.min(line.len());
    &line[start.min(end)..end]
}
