//! The stored image of a state, and the text line that shows it. It uses `plan_types`, `rv_pages`, `input_journal` and
//! `rv_machine`. `segment_sweep`, `reverse_runner`, `reverse_console` and many more use it. `specs/Image.antt` says
//! which bytes an image has, and `specs/Line.antt` which bytes a line has.
#![tactic(auto)]

mod decoding;
mod encoding;
mod fault;
mod form;
mod image;
pub mod image_laws;
pub mod laws;
mod layout;
mod text;

pub use crate::decoding::decode_image;
pub use crate::encoding::{append_image, encode_image, max_image};
pub use crate::fault::ImageFault;
pub use crate::image::image_digest;
pub use crate::layout::{PAGE_FIELD, PAGES};
pub use crate::text::{line_front, push_digest};
