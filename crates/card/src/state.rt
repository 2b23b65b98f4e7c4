ghost use Rattle.std.specs.Prelude.{◌≡◌};
ghost use Rattle.card.specs.Calls.{at_rest};

// Whether the card's application has been selected by SELECT FILE.
// An enum and not a flag, so that another application can stand beside the card.
#[derive(Clone, Copy, PartialEq, Eq, Debug)]
pub enum Selection {
    Nothing,
    Card,
}

// What one command leaves for the next. Every command that gets a status word ends it.
// Form: its variants hold plain numbers and no arrays, a rule of the project; P1 stays a number too, since an enum would ask more of who hands a state over.
#[derive(Clone, Copy, PartialEq, Eq, Debug)]
pub enum Session {
    Quiet,
    // GET CHALLENGE answered these eight bytes, as one number.
    Challenged(u64),
    // INITIALIZE opened a transaction.
    Pending {
        // 20 for a ride, 21 for a repeat, 22 for a cancel
        p1: u8,
        // M, in whole won
        amount: u32,
        // the NT that was answered
        nt: u32,
        // pages 1 and 2 as it left them, each as one number
        limits_page: u128,
        purse_page: u128,
    },
}

// What the engine keeps between calls beside the memory.
#[derive(Clone, Copy, PartialEq, Eq, Debug)]
pub struct State {
    pub selection: Selection,
    pub session: Session,
}

impl State {
    // Nothing is selected and the session is quiet, as after issue and power-on.
    pub fn at_rest() -> State
        ensures { result ≡ at_rest }
    {
        State {
            selection: Selection::Nothing,
            session: Session::Quiet,
        }
    }
}
