// Truncated images.
use crate::sessions::STACK;
use crate::states::first_state;
use state_image::{ImageFault, PAGES, decode_image, encode_image, max_image};
use std::test::Fail;

// addi x10, x0, 7; addi x17, x0, 93; ecall.
const WORDS: [u32; 3] = [0x00700513, 0x05d00893, 0x00000073];

// Where the fields of an image with one page begin. They are the letters, the version, pc, the registers, the status,
// and its code. Then come the item, the offset, the number of bytes written, and the number of pages. The last is the
// page with its number.
const FIELDS: [usize; 11] = [0, 4, 8, 12, 136, 140, 144, 148, 152, 160, PAGES];

#[test]
fn an_image_that_is_cut_is_wrong_from_the_field_on_that_is_not_all_there(
    rt: HostRuntime,
) -> Result<(), Fail> {
    let mut state = first_state(&rt, rt.alloc(), &[0x10, 0xbffff], &WORDS, STACK)?;
    let mut image = Vec::with_capacity(rt.alloc(), max_image(&state) as usize)?;
    encode_image(&state, &mut image);
    assert_eq!(rt; image.len(), 4264);
    let mut field = 0u64;
    for length in 0..image.len() {
        if FIELDS.contains(&length) {
            field = length as u64;
        }
        let fault = decode_image(&image[..length], &mut state);
        assert_eq!(rt;
            fault,
            Err(ImageFault::NotImage(field)),
            "at length {length}"
        );
    }
    assert_eq!(rt; decode_image(&image, &mut state), Ok(()));
    Ok(())
}
