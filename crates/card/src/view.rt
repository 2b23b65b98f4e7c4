use crate::header::Header;
use crate::limits::Limits;
use crate::purse::Purse;
use crate::record::Record;

// What pages 0, 1 and 2 hold.
#[derive(Clone, Copy, PartialEq, Eq, Debug)]
pub struct FirstPages {
    pub header: Header,
    pub limits: Limits,
    pub purse: Purse,
}

// What the engine reads of a card: pages 0, 1 and 2, and the newest record where one is held.
// Form: the fields of FirstPages again, since a reader of a card names its header and not where it was read.
#[derive(Clone, Copy, PartialEq, Eq, Debug)]
pub struct CardView {
    pub header: Header,
    pub limits: Limits,
    pub purse: Purse,
    pub newest: Option<Record>,
}
