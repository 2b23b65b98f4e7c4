#![tactic(auto)]

// A card as its memory holds it: codecs of its pages and records, when pages are a card, and which records can be issued.
mod bytes;
mod code;
mod codec;
mod display;
mod header;
mod host;
mod issuing;
mod limits;
mod pages;
mod purse;
mod read;
mod record;
mod sample;
mod state;
mod view;

pub use code::UnknownCode;
pub use codec::Codec;
pub use header::{BlockFlag, Header, LifeCycle};
pub use host::HostRefusal;
pub use issuing::{is_issuable, record_page};
pub use limits::Limits;
pub use pages::{CardPages, page_at};
pub use purse::Purse;
pub use read::read_card;
pub use record::{Kind, Record};
pub use sample::sample_record;
pub use state::{Selection, Session, State};
pub use view::{CardView, FirstPages};
