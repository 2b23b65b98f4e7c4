ghost use Rattle.std.specs.Prelude.{◌≡◌, ℕ, ◌<◌, Bool, false, List, [], length, is_ok, slice_index_or};
ghost use Rattle.memory.specs.Pages.{read_answer, mark_answer, Written, Outside};

use crate::fault::Fault;

// A list of 16-byte pages, each marked open or worn.
pub trait Memory {
    // The bytes of each page.
    ghost pages: { Self → List (List ℕ) };

    // The marks: true where the page is worn.
    ghost worn: { Self → ℕ → Bool };

    // What no call changes: the ghost names of the references through which bytes are lent, and the bytes past the last whole page.
    ghost outside: { Self → Outside };

    // The number of pages, which no call changes.
    fn count(&self) -> usize
        ensures { result ≡ length (pages self.now) };

    // The bytes of a page.
    fn read(&self, page: usize) -> Result<[u8; 16], Fault>
        ensures { result ≡ read_answer (pages self.now) page };

    // Whether a page is worn.
    fn is_worn(&self, page: usize) -> Result<bool, Fault>
        ensures { result ≡ mark_answer (length (pages self.now)) (worn self.now) page };

    // Puts the bytes into an open page, which may then be worn, and changes nothing else. A worn page is refused, and nothing changes.
    // Form: page and bytes stay two parameters, as a memory is told them; PageWrite is an entry of a plan.
    // Form: the clause `refused` is said again by whoever writes: a name for it would say no more than its words.
    fn write(&mut self, page: usize, bytes: [u8; 16]) -> Result<(), Fault>
        ensures written { Written (pages self.old) (worn self.old) page bytes result (pages self.new) (worn self.new) }
        ensures outside { outside self.new ≡ outside self.old }
        ensures refused { is_ok result ≡ false → self.new ≡ self.old };

    // Every page has 16 bytes.
    ghost sixteen: { (m : Self) (k : ℕ) → k < length (pages m) → length (slice_index_or (pages m) k []) ≡ 16 };
}
