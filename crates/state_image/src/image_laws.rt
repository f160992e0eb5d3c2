// What bytes are images. Each function does nothing; its contract is the law.
ghost use Rattle.std.specs.Prelude.{◌≡◌, ℕ, ◌<◌, List, take, None, Some};
ghost use Rattle.std.specs.List.{All};
ghost use Rattle.rv_machine.specs.Prelude.{MachineState, IsMachineState};
ghost use Rattle.state_image.specs.Image.{image};
ghost use Rattle.state_image.specs.ImageForm.{first_wrong, HasNumbersLeft};

/// The image of a machine state has nothing wrong. Bytes with nothing wrong are the image of one.
pub fn images_are_bytes_with_nothing_wrong()
    ensures right { (s : MachineState) → IsMachineState s → first_wrong (image s) ≡ None }
    ensures only { (bytes : List ℕ) → All (λ b. b < 256) bytes → first_wrong bytes ≡ None → (s : MachineState) × IsMachineState s × (image s ≡ bytes) }
{}

/// The bytes before the wrong place begin an image of a machine state. That needs free numbers for the pages still to
/// follow.
pub fn right_bytes_begin_images()
    ensures { (bytes : List ℕ) (at : ℕ) → All (λ b. b < 256) bytes → first_wrong bytes ≡ Some at → HasNumbersLeft bytes at
        → (s : MachineState) × IsMachineState s × (take at (image s) ≡ take at bytes) }
{}
