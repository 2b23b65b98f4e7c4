ghost use Rattle.std.specs.Prelude.{◌≡◌, ℕ, ◌≤◌, true, false, length, is_ok, if◌then◌else◌};
ghost use Rattle.card.specs.Calls.{issue_answer, IssueTaken, at_rest};
ghost use Rattle.card.specs.Issue.{issued};
ghost use Rattle.card.specs.Rule.{IsCard, Decides};
ghost use Rattle.engine.specs.Plan.{issue_page, issue_plan};

use card::{HostRefusal, State, is_issuable, record_page};
use memory::{Memory, PageWrite, write_plan};
use std::array;

// Page k of the card that is issued: of the record up to page 11, then zeros.
fn issue_page(source: &[u8; 192], k: usize) -> [u8; 16]
    ensures { result ≡ issue_page source.now k }
{
    if k < 12 {
        record_page(source, k)
    } else {
        [0; 16]
    }
}

fn issue_plan(source: &[u8; 192]) -> [PageWrite; 32]
    ensures { result ≡ issue_plan source.now }
{
    array::from_fn(|k| PageWrite {
        page: k,
        bytes: issue_page(source, k),
    })
}

// Issues a card onto a memory: the record becomes pages 0 to 11, and pages 12 to 31 become zeros. Nothing is selected and the session is
// quiet then. Refused, and nothing is changed, where the memory has under 32 pages, where the issue record `source` is not 192 bytes or
// would not give a card that holds 0 records, and where one of the 32 pages is worn, in this order.
#[tactic(auto, using(crate::proofs::Plans::wrong_size))]
pub fn issue<M: Memory>(memory: &mut M, state: &mut State, source: &[u8]) -> Result<(), HostRefusal>
    ensures answer { result ≡ issue_answer (length (M.pages memory.old)) (M.worn memory.old) source.now }
    ensures rule { Decides (is_ok result) (IssueTaken (length (M.pages memory.old)) (M.worn memory.old) source.now) }
    ensures pages { M.pages memory.new ≡ (if is_ok result then issued source.now (M.pages memory.old) else M.pages memory.old) }
    ensures card { is_ok result ≡ true → IsCard (M.pages memory.new) }
    ensures marks_above { (k : ℕ) → 32 ≤ k → M.worn memory.new k ≡ M.worn memory.old k }
    ensures outside { M.outside memory.new ≡ M.outside memory.old }
    ensures refused { is_ok result ≡ false → memory.new ≡ memory.old }
    ensures state { state.new ≡ (if is_ok result then at_rest else state.old) }
{
    if memory.count() < 32 {
        return Err(HostRefusal::TooFewPages);
    }
    let record = source
        .as_array::<192>()
        .filter(|record| is_issuable(*record))
        .ok_or(HostRefusal::WrongRecord)?;
    write_plan(memory, &issue_plan(record))?;
    *state = State::at_rest();
    Ok(())
}
