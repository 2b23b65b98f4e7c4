ghost use Rattle.std.specs.Prelude.{◌≡◌, ◌<◌, ◌≤◌, length, MatchOption};
ghost use Rattle.card.specs.Pages.{page as page_of, slot_bytes};

use memory::Memory;

// A page that is there.
pub fn page_at<M: Memory>(memory: &M, page: usize) -> [u8; 16]
    requires { page < length (M.pages memory.now) }
    ensures { result ≡ page_of (M.pages memory.now) page }
{
    memory.read(page).unwrap()
}

// The pages of a memory that has enough of them for a card.
#[derive(Drop)]
pub struct CardPages<'a, M: Memory> {
    memory: &'a M,
    ghost enough: { 32 ≤ length (M.pages memory.now) },
}

impl<'a, M: Memory> CardPages<'a, M> {
    // None where the memory has under 32 pages.
    pub fn of(memory: &'a M) -> Option<CardPages<'a, M>>
        ensures { MatchOption result (length (M.pages memory.now) < 32) (λ p. (32 ≤ length (M.pages memory.now)) × (p.memory.now ≡ memory.now)) }
    {
        if memory.count() < 32 {
            return None;
        }
        Some(CardPages { memory })
    }

    pub fn page(&self, page: usize) -> [u8; 16]
        requires { page < 32 }
        ensures { result ≡ page_of (M.pages self.now.memory.now) page }
    {
        page_at(self.memory, page)
    }

    // The 32 bytes of a slot of the log.
    pub fn slot(&self, slot: u8) -> [u8; 32]
        requires { slot < 10 }
        ensures { result ≡ slot_bytes (M.pages self.now.memory.now) slot }
    {
        let first = 12 + 2 * usize::from(slot);
        let pages = [self.page(first), self.page(first + 1)];
        pages.as_flattened().try_into().unwrap()
    }
}
