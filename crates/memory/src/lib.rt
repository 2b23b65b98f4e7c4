#![tactic(auto)]

// A memory is a list of 16-byte pages, each marked open or worn.
//
// The number of pages never changes. A question for that number, a read of a page and a question for its mark answer what the list has, and
// change nothing. A write to an open page puts in the given bytes; that page may then be worn, as the kind of memory says. A write changes
// no other page and no other mark. A write to a worn page is refused with `Fault::Worn`, and a read, a write or a question for a mark past
// the last page with `Fault::PastEnd`; neither changes anything. `Fault::number` gives the number of each refusal.
//
// The trait `Memory` states this, and each kind of memory is proved to meet it. `Image` is a memory over lent bytes, and never wears.
// `Wearing` has 64 pages of its own, each with a count of writes left and worn where that is 0. `write_plan` writes several pages, all of
// them or none.
mod fault;
mod image;
mod memory;
mod plan;
mod wearing;
mod wearing_page;

pub use fault::Fault;
pub use image::Image;
pub use memory::Memory;
pub use plan::{PageWrite, write_plan};
pub use wearing::Wearing;
