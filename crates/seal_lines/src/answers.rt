// The answers to the lines of an input.
ghost use Rattle.std.specs.Prelude.{◌≡◌, IfOk, Some, string_bytes};
ghost use Rattle.seal_lines.specs.Requests.{request_of, asked_by};
ghost use Rattle.seal_lines.specs.Answers.{request_answer, answer_of, refusal_words, answer_words, answers_of, OneLineEach};

use crate::requests::{Request, parse_request};
use seal::{Sealer, seal_message};
use std::alloc::{AllocError, Global};
use std::fmt;
use text::{Hex, Lines};

// Why a line gets no seal.
#[derive(Clone, Copy, Debug, PartialEq, Eq, Drop)]
pub enum LineRefusal {
    // the sealer does not have the algorithm registered
    NotRegistered,
    // the line has another form
    Form,
}

impl fmt::Display for LineRefusal {
    ghost output = { λ r. Some (refusal_words r) };

    fn fmt<W: fmt::Write>(&self, f: &mut fmt::Formatter<W>) -> fmt::Result {
        f.write_str(match self {
            LineRefusal::NotRegistered => "not registered",
            LineRefusal::Form => "form",
        })
    }
}

// An answer as it is printed: the seal in capital hexadecimal, or the refusal.
#[derive(Drop)]
struct Printed(Result<[u8; 4], LineRefusal>);

impl fmt::Display for Printed {
    ghost output = { λ p. Some (answer_words p.0) };

    fn fmt<W: fmt::Write>(&self, f: &mut fmt::Formatter<W>) -> fmt::Result {
        match &self.0 {
            Ok(seal) => fmt::Display::fmt(&Hex(seal), f),
            Err(refusal) => fmt::Display::fmt(refusal, f),
        }
    }
}

// The answer to a request, by a workpad that is large enough for every one.
fn answer_request<S: Sealer>(sealer: &S, request: &Request) -> Result<[u8; 4], LineRefusal>
    ensures { result ≡ request_answer (S.registered sealer.now) (S.sealed sealer.now) (asked_by request.now) }
{
    let mut workpad = [0u8; 64];
    seal_message(
        sealer,
        request.algorithm,
        request.key,
        &request.message,
        &mut workpad,
    )
    .map_err(|_| LineRefusal::NotRegistered)
}

// The answer to a line.
fn answer_line<S: Sealer>(sealer: &S, line: &[u8]) -> Result<[u8; 4], LineRefusal>
    ensures { result ≡ answer_of (S.registered sealer.now) (S.sealed sealer.now) (request_of line.now) }
{
    let request = parse_request(line).ok_or(LineRefusal::Form)?;
    answer_request(sealer, &request)
}

// The answers to the lines of an input, numbered from 1.
#[tactic(auto, using(crate::proofs::Answered::one_more, crate::proofs::Answered::all_done, crate::proofs::LineEach::one_line_each))]
pub fn answer_lines<S: Sealer>(heap: Global, sealer: &S, input: &[u8]) -> Result<String, AllocError>
    ensures text { IfOk result (λ s. string_bytes s ≡ answers_of (S.registered sealer.now) (S.sealed sealer.now) input.now) }
    ensures each { OneLineEach }
{
    let mut text = String::new(heap);
    for (line, number) in (Lines { rest: input }).zip(1usize..) {
        let answer = Printed(answer_line(sealer, line));
        writeln!(text, "{number},{answer}")?;
    }
    Ok(text)
}
