// The memory of an image.
ghost use Rattle.std.specs.Prelude.{◌≡◌, ◌+◌, ◌<◌, ◌≤◌, max, true, false, length, Ok, Err, OnOk, OnErr, IfOk, IfErr};
ghost use Rattle.std.specs.Vec.{vec_len, vec_capacity};
ghost use Rattle.std.specs.Option.{option_map};
ghost use Rattle.std.specs.FinMap as finmap;
ghost use Rattle.keepers.specs.Places.{images_of, HaveRoom};

use crate::keeper::KeepFault;
use std::alloc::{AllocError, Global};

// The bytes of an image, or memory for them.
#[derive(Drop)]
pub(crate) struct Place {
    pub bytes: Vec<u8>,
    pub filled: bool,
}

impl Place {
    // Replaces the image. If memory runs out, no image is left.
    pub fn fill(&mut self, image: &[u8]) -> Result<(), KeepFault>
        ensures ok { OnOk result ((self.new.filled ≡ true) × (self.new.bytes.items ≡ image.now)) }
        ensures refused { OnErr result (self.new.filled ≡ false) }
        ensures fault { IfErr result (λ fault. fault ≡ KeepFault.Memory) }
        ensures capacity { vec_capacity self.old.bytes ≤ vec_capacity self.new.bytes }
        ensures roomy { length image.now ≤ vec_capacity self.old.bytes → result ≡ Ok tt }
    {
        self.filled = false;
        self.bytes.clear();
        if self.bytes.extend_from_slice(image).is_err() {
            return Err(KeepFault::Memory);
        }
        self.filled = true;
        Ok(())
    }
}

// The image in a slot, if there is one.
pub(crate) fn image_at(places: &[Place], slot: u32) -> Option<&[u8]>
    ensures { option_map (λ image. image.now) result ≡ finmap.get (images_of places.now) slot }
{
    let place = places.get(slot as usize)?;
    if place.filled {
        Some(place.bytes.as_slice())
    } else {
        None
    }
}

// Makes places for all slots up to this one.
pub(crate) fn with_place(
    alloc: Global,
    places: &mut Vec<Place>,
    slot: u32,
) -> Result<(), AllocError>
    ensures there { OnOk result (slot < vec_len places.new) }
    ensures few { vec_len places.new ≤ max (vec_len places.old) (slot + 1) }
    ensures images { images_of places.new.items ≡ images_of places.old.items }
    ensures still { slot < vec_len places.old → (result ≡ Ok tt) × (places.new ≡ places.old) }
{
    for _ in places.len()..slot as usize + 1 {
        places.push(Place {
            bytes: Vec::new(alloc),
            filled: false,
        })?;
    }
    Ok(())
}

// Empty places for so many slots, each with memory for so many bytes.
pub(crate) fn with_rooms(alloc: Global, slots: u32, bytes: u32) -> Result<Vec<Place>, AllocError>
    ensures count { IfOk result (λ places. vec_len places ≡ slots) }
    ensures empty { IfOk result (λ places. images_of places.items ≡ finmap.empty) }
    ensures room { IfOk result (λ places. HaveRoom bytes places.items) }
{
    let mut places = Vec::with_capacity(alloc, slots as usize)?;
    for _ in 0..slots {
        places.push(Place {
            bytes: Vec::with_capacity(alloc, bytes as usize)?,
            filled: false,
        })?;
    }
    Ok(places)
}
