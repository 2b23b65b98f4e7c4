// The words for each code, as a reader is shown them.
ghost use Rattle.std.specs.Prelude.{Some};
ghost use Rattle.card.specs.Words.{life_cycle_words, block_flag_words, kind_words, refusal_words};

use crate::header::{BlockFlag, LifeCycle};
use crate::host::HostRefusal;
use crate::record::Kind;
use std::error::Error;
use std::fmt;

impl fmt::Display for LifeCycle {
    ghost output = { λ life. Some (life_cycle_words life) };

    fn fmt<W: fmt::Write>(&self, f: &mut fmt::Formatter<W>) -> fmt::Result {
        f.write_str(match self {
            LifeCycle::BeforeUse => "before use",
            LifeCycle::InUse => "in use",
        })
    }
}

impl fmt::Display for BlockFlag {
    ghost output = { λ block. Some (block_flag_words block) };

    fn fmt<W: fmt::Write>(&self, f: &mut fmt::Formatter<W>) -> fmt::Result {
        f.write_str(match self {
            BlockFlag::Free => "free",
            BlockFlag::Blocked => "blocked",
        })
    }
}

impl fmt::Display for Kind {
    ghost output = { λ kind. Some (kind_words kind) };

    fn fmt<W: fmt::Write>(&self, f: &mut fmt::Formatter<W>) -> fmt::Result {
        f.write_str(match self {
            Kind::Ride => "ride",
            Kind::Cancel => "cancel",
        })
    }
}

impl fmt::Display for HostRefusal {
    ghost output = { λ refusal. Some (refusal_words refusal) };

    fn fmt<W: fmt::Write>(&self, f: &mut fmt::Formatter<W>) -> fmt::Result {
        f.write_str(match self {
            HostRefusal::TooFewPages => "the memory has under 32 pages",
            HostRefusal::WrongRecord =>
                "the issue record is not 192 bytes, or would not give a card that holds 0 records",
            HostRefusal::WornPage => "a page is worn",
            HostRefusal::NotACard => "the pages are not a card",
        })
    }
}

impl Error for HostRefusal {}
