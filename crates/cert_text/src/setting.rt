// What tables are read for.
use level_book::Book;
use std::alloc::Global;

// Tables are for so many steps and a book, and this gives their memory.
#[derive(Clone, Copy)]
pub(crate) struct Setting<'a> {
    pub alloc: Global,
    pub steps: u32,
    pub book: &'a Book,
}
