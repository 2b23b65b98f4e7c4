ghost use Rattle.std.specs.Prelude.{◌≡◌, ◌<◌};
ghost use Rattle.memory.specs.ImagePages.{page_at};
ghost use Rattle.card.specs.Card.{first_pages_of};
ghost use Rattle.card.specs.Issue.{first_none, issuable, Issuable};
ghost use Rattle.card.specs.Rule.{Decides};

use crate::bytes::part_at;
use crate::view::FirstPages;

// Page k of an issue record.
pub fn record_page(source: &[u8; 192], k: usize) -> [u8; 16]
    requires { k < 12 }
    ensures { result ≡ page_at source.now k }
{
    part_at(source, 16 * k)
}

// Whether pages 0, 1, 2 and 11 are those of a card that holds 0 records of the log.
fn holds_none(source: &[u8; 192]) -> bool
    ensures { result ≡ first_none (first_pages_of (page_at source.now 0) (page_at source.now 1) (page_at source.now 2) (page_at source.now 11)) }
{
    FirstPages::decode(
        record_page(source, 0),
        record_page(source, 1),
        record_page(source, 2),
        record_page(source, 11),
    )
    .is_some_and(|first| first.purse.held == 0)
}

// Whether issue takes this issue record: it has 192 bytes, and gives a card that holds 0 records of the log.
pub fn is_issuable(source: &[u8]) -> bool
    ensures test { result ≡ issuable source.now }
    ensures rule { Decides result (Issuable source.now) }
{
    source.as_array::<192>().is_some_and(holds_none)
}
