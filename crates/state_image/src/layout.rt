// The form of an image: where each of its fields starts, and how many bytes it has. The fields stand in this order.
// Each starts where the one before it ends. Numbers are little-endian. `specs/ImageForm.antt` says what is right in a
// field.

// The bytes of a number, and of a long one.
pub(crate) const WORD: usize = 4;

pub(crate) const LONG: usize = 8;

// The letters RVST, of four bytes.
pub(crate) const LETTERS: usize = 0;

// The version of the form, a number.
pub(crate) const VERSION: usize = 4;

// pc, a number.
pub(crate) const PC: usize = 8;

// x1 to x31, a number each.
pub(crate) const REGISTERS: usize = 12;

pub(crate) const REGISTER_BYTES: usize = 124;

// The kind of the status, and the value that goes with it: two numbers.
pub(crate) const KIND: usize = 136;

pub(crate) const VALUE: usize = 140;

// The place in the recorded input, by an item and an offset: two numbers.
pub(crate) const ITEM: usize = 144;

pub(crate) const OFFSET: usize = 148;

// How many bytes the program has written, a long number.
pub(crate) const WRITTEN: usize = 152;

// How many pages follow, a number.
pub(crate) const COUNT: usize = 160;

/// Where the pages of an image start: so many bytes come before them.
pub const PAGES: usize = 164;

/// The bytes of a page in an image: its number, and its 4,096 bytes.
pub const PAGE_FIELD: usize = 4100;
