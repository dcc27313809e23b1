ghost use Rattle.query.specs.Lines.{NextLine, text_left};
ghost use Rattle.std.specs.Char.{is_newline};
ghost use Rattle.std.specs.Iterator.{at_most};
ghost use Rattle.std.specs.List.{after_first, before_first, position};
ghost use Rattle.std.specs.Prelude.{◌≡◌, ◌<◌, IfSome, length};

// The lines of a text, without their ends; the last line may lack its end.
#[derive(Clone, Copy, Debug)]
pub struct Lines<'a> {
    rest: &'a [u8],
}

impl<'a> Lines<'a> {
    pub fn of(text: &'a [u8]) -> Lines<'a>
        ensures text { text_left result ≡ text.now }
        ensures same { text.exit.now ≡ text.entry.now }
    {
        Lines { rest: text }
    }
}

// Where the first line of a text ends, if it has an end.
fn line_end(text: &[u8]) -> Option<usize>
    ensures end { result ≡ position is_newline text.now }
    ensures inside { IfSome result (λ i. i < length text.now) }
{
    text.iter().position(|b| *b == b'\n')
}

// The first line of a text, and what follows its end.
#[tactic(auto, using(crate::proofs::Cuts::cuts))]
fn first_line(text: &[u8]) -> (&[u8], &[u8])
    ensures line { result.0.now ≡ before_first is_newline text.now }
    ensures rest { result.1.now ≡ after_first is_newline text.now }
    ensures shorter { 0 < length text.now → length result.1.now < length text.now }
{
    match line_end(text) {
        Some(end) => (&text[..end], &text[end + 1..]),
        None => (text, &[]),
    }
}

impl<'a> Iterator for Lines<'a> {
    type Item = &'a [u8];

    ghost next_gives = { λ s r t. NextLine (text_left s) r (text_left t) };

    ghost remaining = { λ s. at_most (length (text_left s)) };

    fn next(&mut self) -> Option<&'a [u8]> {
        if self.rest.is_empty() {
            return None;
        }
        let (line, rest) = first_line(self.rest);
        self.rest = rest;
        Some(line)
    }
}
