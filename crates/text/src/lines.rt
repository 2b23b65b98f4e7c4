// The lines of a text.
ghost use Rattle.std.specs.Prelude.{◌≡◌, ◌+◌, ◌<◌, ◌==◌, [], length, take, drop, MatchOption};
ghost use Rattle.std.specs.List.{position};
ghost use Rattle.text.specs.Lines.{FirstLine, LinesRule};
ghost use Rattle.std.specs.Iterator.{at_most};

// Where the first 0A stands.
fn line_end(text: &[u8]) -> Option<usize>
    ensures { result ≡ position (λ b. b == 10) text.now }
{
    text.iter().position(|b| *b == b'\n')
}

// What stands before place `end` of `text`, and what stands behind it.
fn around(text: &[u8], end: usize) -> (&[u8], &[u8])
    requires { end < length text.now }
    ensures { (result.0.now ≡ take end text.now) × (result.1.now ≡ drop (end + 1) text.now) }
{
    (&text[..end], &text[end + 1..])
}

// The first line of `text` without its 0A, and what follows it; none where nothing is left.
#[tactic(auto, using(crate::proofs::LineLaws::lines_rule))]
pub fn split_line(text: &[u8]) -> Option<(&[u8], &[u8])>
    ensures first { MatchOption result (text.now ≡ []) (λ p. FirstLine text.now p.0.now p.1.now) }
    ensures rule { LinesRule }
{
    if text.is_empty() {
        return None;
    }
    let Some(end) = line_end(text) else {
        return Some((text, &[]));
    };
    Some(around(text, end))
}

// The lines of a text, one after another.
#[derive(Drop)]
pub struct Lines<'a> {
    pub rest: &'a [u8],
}

impl<'a> Iterator for Lines<'a> {
    type Item = &'a [u8];

    ghost next_gives = { λ s r t. MatchOption r ((s.rest.now ≡ []) × (t.rest.now ≡ [])) (λ line. FirstLine s.rest.now line.now t.rest.now) };

    ghost remaining = { λ s. at_most (length s.rest.now) };

    fn next(&mut self) -> Option<&'a [u8]> {
        let (line, rest) = split_line(self.rest)?;
        self.rest = rest;
        Some(line)
    }
}
