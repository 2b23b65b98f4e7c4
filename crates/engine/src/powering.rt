ghost use Rattle.std.specs.Prelude.{◌≡◌, is_ok, if◌then◌else◌};
ghost use Rattle.card.specs.Calls.{power_on_answer, at_rest};
ghost use Rattle.card.specs.Rule.{IsCard, Decides};

use card::{HostRefusal, State, read_card};
use memory::Memory;

// Powers the card on: nothing is selected and the session is quiet then. It writes nothing.
// Refused, and nothing is changed, where the memory has under 32 pages, and then where its pages are not a card.
pub fn power_on<M: Memory>(memory: &M, state: &mut State) -> Result<(), HostRefusal>
    ensures answer { result ≡ power_on_answer (M.pages memory.now) }
    ensures rule { Decides (is_ok result) (IsCard (M.pages memory.now)) }
    ensures state { state.new ≡ (if is_ok result then at_rest else state.old) }
{
    if memory.count() < 32 {
        return Err(HostRefusal::TooFewPages);
    }
    read_card(memory).ok_or(HostRefusal::NotACard)?;
    *state = State::at_rest();
    Ok(())
}
