ghost use Rattle.std.specs.Prelude.{◌≡◌, ◌<◌, ◌≤◌, ◌++◌, length, is_some};
ghost use Rattle.card.specs.Card.{last_fits, purse_fits, amount_fits, newest_fits, first_pages_of, view_with, with_newest, card_of};
ghost use Rattle.card.specs.Purse.{newest_slot};
ghost use Rattle.card.specs.Rule.{IsCard, Decides};

use crate::bytes::all_zero;
use crate::codec::Codec;
use crate::header::Header;
use crate::limits::Limits;
use crate::pages::CardPages;
use crate::purse::Purse;
use crate::record::{Kind, Record};
use crate::view::{CardView, FirstPages};
use memory::Memory;

impl Purse {
    // Whether there is a newest record exactly where records are held.
    fn last_fits(&self) -> bool
        ensures { result ≡ last_fits self.now.held self.now.last }
    {
        self.last.is_some() == (self.held > 0)
    }

    // Whether page 2 keeps its rule.
    fn fits(&self, limits: &Limits) -> bool
        ensures { result ≡ purse_fits limits.now self.now }
    {
        self.total <= limits.limit
            && self.next <= 9
            && self.held <= 10
            && (self.held >= 10 || self.next == self.held)
            && self.last_fits()
    }

    // Whether an amount is one that page 2 allows the newest record: that of a ride is at most the total.
    fn fits_amount(&self, amount: u32) -> bool
        ensures { result ≡ amount_fits self.now.last amount self.now.total }
    {
        self.last != Some(Kind::Ride) || amount <= self.total
    }

    // Whether the newest record is one that page 2 allows.
    fn fits_newest(&self, newest: &Record) -> bool
        ensures { result ≡ newest_fits self.now newest.now }
    {
        self.last == Some(newest.kind)
            && newest.total == self.total
            && newest.nt <= self.nt
            && self.fits_amount(newest.amount)
    }
}

impl FirstPages {
    // What pages 0, 1 and 2 hold, where they and page 11 keep their rules.
    // Form: pages by position, as a closure that gives them needs clauses of its own at both callers: without, `page-requires` stays open.
    pub(crate) fn decode(
        zero: [u8; 16],
        one: [u8; 16],
        two: [u8; 16],
        eleven: [u8; 16],
    ) -> Option<FirstPages>
        ensures { result ≡ first_pages_of zero one two eleven }
    {
        let header = Header::decode(&zero)?;
        let limits = Limits::decode(&one)?;
        let purse = Purse::decode(&two)?;
        (all_zero(&eleven) && purse.fits(&limits)).then_some(FirstPages {
            header,
            limits,
            purse,
        })
    }

    fn with(&self, newest: Option<Record>) -> CardView
        ensures { result ≡ view_with self.now newest }
    {
        CardView {
            header: self.header,
            limits: self.limits,
            purse: self.purse,
            newest,
        }
    }

    // The card with its newest record, where one is held.
    fn with_newest<M: Memory>(&self, pages: &CardPages<M>) -> Option<CardView>
        ensures { result ≡ with_newest (newest_slot self.now.purse) self.now (M.pages pages.now.memory.now) }
    {
        let Some(slot) = self.purse.newest_slot() else {
            return Some(self.with(None));
        };
        let newest = Record::decode(&pages.slot(slot))?;
        self.purse
            .fits_newest(&newest)
            .then_some(self.with(Some(newest)))
    }
}

// What the engine reads of the card that the pages of a memory are; none exactly where they are no card.
#[tactic(auto, using(crate::proofs::Rules::card_decides, crate::proofs::Rules::read_decides))]
pub fn read_card<M: Memory>(memory: &M) -> Option<CardView>
    ensures value { result ≡ card_of (M.pages memory.now) }
    ensures rule { Decides (is_some result) (IsCard (M.pages memory.now)) }
{
    let pages = CardPages::of(memory)?;
    let first = FirstPages::decode(pages.page(0), pages.page(1), pages.page(2), pages.page(11))?;
    first.with_newest(&pages)
}
