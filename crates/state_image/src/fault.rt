// Why bytes are no image of a state.
use thiserror::Error;

/// Why bytes are refused as the image of a state.
#[derive(Clone, Copy, Debug, PartialEq, Eq, Error)]
pub enum ImageFault {
    /// They are no image: the first field that is wrong starts here.
    #[error("no image: the field at byte {0} is wrong")]
    NotImage(u64),
    /// They are the image of a state with other pages: this page isn't mapped, and is the first such.
    #[error("the image has page {0}, which isn't mapped")]
    OtherPages(u32),
}
