// Consequences for the files of several levels.
ghost use Rattle.std.specs.Prelude.{◌≡◌, ◌≢◌, ℕ, ◌^◌, ◌<◌, ◌≤◌, List, None};
ghost use Rattle.std.specs.FinMap as finmap;
ghost use Rattle.keepers.specs.SlotFiles.{slot_path, level_images};
ghost use Rattle.keepers.specs.Claims.{Files, SameButNamed};

/// Keepers of several levels may share a disk, in one folder or in several. A path gives its folder, its level and its
/// slot. So a change to one level's file leaves the images of all other levels.
pub fn levels_have_files_of_their_own()
    ensures paths { (folder other : List ℕ) (level its_level slot its_slot : ℕ) → level < 2 ^ 64 → its_level < 2 ^ 64 → slot < 2 ^ 64 → its_slot < 2 ^ 64 →
        slot_path folder level slot ≡ slot_path other its_level its_slot → (folder ≡ other) × (level ≡ its_level) × (slot ≡ its_slot) }
    ensures apart { (folder other : List ℕ) (level its_level slot slots : ℕ) (before after : Files) → level < 2 ^ 64 → its_level < 2 ^ 64 → slot < 2 ^ 64 → slots ≤ 2 ^ 64 →
        its_level ≢ level → SameButNamed (slot_path folder level slot) before after →
        level_images other its_level slots after ≡ level_images other its_level slots before }
{}

/// A level's keeper claims for a slot what the file at its path holds. Without that file it claims nothing.
pub fn levels_hold_what_their_files_hold()
    ensures each { (folder : List ℕ) (level slots slot : ℕ) (files : Files) → slot < slots →
        finmap.get (level_images folder level slots files) slot ≡ finmap.get files (slot_path folder level slot) }
    ensures none { (folder : List ℕ) (level slots : ℕ) (files : Files) →
        ((slot : ℕ) → slot < slots → finmap.get files (slot_path folder level slot) ≡ None) → level_images folder level slots files ≡ finmap.empty }
{}
