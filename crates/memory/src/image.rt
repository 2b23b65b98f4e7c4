ghost use Rattle.std.specs.Prelude.{◌≡◌, ◌*◌, ◌<◌, false, length, is_ok};
ghost use Rattle.memory.specs.Pages.{Written};
ghost use Rattle.memory.specs.ImagePages.{pages_of, PageStart, never_worn, open_answer, pages_sixteen, image_outside};

use crate::fault::Fault;
use crate::memory::Memory;

// A memory over lent bytes: as many pages as whole 16s fit, none of which ever wears. The bytes past the last whole page stay as they are.
#[derive(Drop)]
pub struct Image<'a> {
    bytes: &'a mut [u8],
}

impl<'a> Image<'a> {
    // The memory over `bytes`, as they are.
    pub fn new(bytes: &'a mut [u8]) -> Image<'a>
        ensures value { result.bytes.now ≡ bytes.old }
        ensures lender { result.bytes.ghost_name ≡ bytes.entry.ghost_name }
    {
        Image { bytes }
    }

    // The whole pages among the bytes.
    fn pages(&self) -> &[[u8; 16]]
        ensures { result.now ≡ pages_of self.now.bytes.now }
    {
        self.bytes.as_chunks().0
    }

    // Where a page begins among the bytes, and so what a write of 16 bytes there comes to.
    fn start(&self, page: usize) -> usize
        requires { page < length (pages_of self.now.bytes.now) }
        ensures { PageStart self.now.bytes.now page result }
    {
        16 * page
    }
}

impl<'a> Memory for Image<'a> {
    ghost pages = { λ m. pages_of m.bytes.now };

    ghost worn = { λ m. never_worn };

    ghost outside = { λ m. image_outside m.bytes.ghost_name m.bytes.now };

    ghost sixteen = { λ m. pages_sixteen m.bytes.now };

    fn count(&self) -> usize {
        self.pages().len()
    }

    fn read(&self, page: usize) -> Result<[u8; 16], Fault> {
        self.pages().get(page).copied().ok_or(Fault::PastEnd)
    }

    fn is_worn(&self, page: usize) -> Result<bool, Fault> {
        self.read(page)?;
        Ok(false)
    }

    // No page wears: a write is refused only where there is no such page.
    fn write(&mut self, page: usize, bytes: [u8; 16]) -> Result<(), Fault>
        ensures written { Written (pages_of self.old.bytes.now) never_worn page bytes result (pages_of self.new.bytes.now) never_worn }
        ensures outside { image_outside self.new.bytes.ghost_name self.new.bytes.now ≡ image_outside self.old.bytes.ghost_name self.old.bytes.now }
        ensures refused { is_ok result ≡ false → self.new ≡ self.old }
        ensures never_worn { result ≡ open_answer (length (pages_of self.old.bytes.now)) page }
    {
        if page >= self.count() {
            return Err(Fault::PastEnd);
        }
        // Form: `as_chunks_mut` says nothing of what the slice ends as, so a write through it leaves `returns-clause-written` open.
        let at = self.start(page);
        self.bytes[at..at + 16].copy_from_slice(&bytes);
        Ok(())
    }
}
