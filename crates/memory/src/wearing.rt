ghost use Rattle.std.specs.Prelude.{◌≡◌, ◌<◌, false, [], length, replicate, is_ok, if◌then◌else◌};
ghost use Rattle.memory.specs.Pages.{Written};
ghost use Rattle.memory.specs.WearingPages.{bytes_of, left_of, spent, one_less, none_outside, wearing_sixteen};

use crate::fault::Fault;
use crate::memory::Memory;
use crate::wearing_page::WearingPage;
use std::array;

// A memory of 64 pages of its own. Each has a count of writes left, and is worn where that is 0.
#[derive(Drop)]
pub struct Wearing {
    pages: [WearingPage; 64],
    ghost paged: { length pages ≡ 64 },
}

impl Wearing {
    // 64 pages of 00; page k has left[k] writes left.
    pub fn new(left: [u16; 64]) -> Wearing
        ensures bytes { bytes_of result.pages ≡ replicate 64 (replicate 16 0) }
        ensures counts { left_of result.pages ≡ left }
    {
        // Not `left.map(..)`, which moves each count into an option and out again, and takes more than twice as long.
        Wearing {
            pages: array::from_fn(|k| WearingPage::blank(left[k])),
        }
    }
}

impl Memory for Wearing {
    ghost pages = { λ m. bytes_of m.pages };

    ghost worn = { λ m. spent (left_of m.pages) };

    ghost outside = { λ _. none_outside };

    fn count(&self) -> usize {
        self.pages.len()
    }

    fn read(&self, page: usize) -> Result<[u8; 16], Fault> {
        let page = self.pages.get(page).ok_or(Fault::PastEnd)?;
        Ok(page.bytes)
    }

    fn is_worn(&self, page: usize) -> Result<bool, Fault> {
        let page = self.pages.get(page).ok_or(Fault::PastEnd)?;
        Ok(page.left == 0)
    }

    // The last clause is this kind's own: the count of the page that is written falls by one, and no other count changes; at a refusal
    // none does. The clauses before it are the trait's.
    #[tactic(auto, using(crate::proofs::WearingPages::left_set, crate::proofs::WearingPages::left_at))]
    fn write(&mut self, page: usize, bytes: [u8; 16]) -> Result<(), Fault>
        ensures written { Written (bytes_of self.old.pages) (spent (left_of self.old.pages)) page bytes result (bytes_of self.new.pages) (spent (left_of self.new.pages)) }
        ensures outside { none_outside ≡ none_outside }
        ensures refused { is_ok result ≡ false → self.new ≡ self.old }
        ensures counts { left_of self.new.pages ≡ (if is_ok result then one_less (left_of self.old.pages) page else left_of self.old.pages) }
    {
        let old = self.pages.get(page).copied().ok_or(Fault::PastEnd)?;
        if old.left == 0 {
            return Err(Fault::Worn);
        }
        // Form: `get_mut` says nothing of what the pages end as, so a write through it leaves `returns-clause-counts` open.
        self.pages[page] = WearingPage {
            bytes,
            left: old.left - 1,
        };
        Ok(())
    }

    ghost sixteen = { λ m. wearing_sixteen m.pages m.paged };
}
