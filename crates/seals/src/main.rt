#![tactic(auto)]

// Reads lines that ask for seals from standard input, and prints the answer to each.
use seal_lines::answer_lines;
use sealers::card_sealer;
use std::io;
use std::io::{Read, Write};

fn main(rt: HostRuntime) -> io::Result<()> {
    let heap = rt.alloc();
    let mut input = Vec::new(heap);
    rt.stdin().read_to_end(&mut input)?;
    let answers = answer_lines(heap, &card_sealer(), input.as_slice())?;
    rt.stdout().write_all(answers.as_bytes())
}
