// What the tests share.
use card::{HostRefusal, Selection, Session, State};

// An answer with the number of its refusal.
pub(crate) fn numbered(answer: Result<(), HostRefusal>) -> Result<(), u8> {
    answer.map_err(HostRefusal::number)
}

// A state that an accepted call ends and a refused one keeps.
pub(crate) fn challenged() -> State {
    State {
        selection: Selection::Card,
        session: Session::Challenged(7),
    }
}
