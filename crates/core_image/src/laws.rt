// What holds of every image, and of all accepted code.

ghost use Rattle.std.specs.Prelude.{◌≡◌, ◌≤◌, ℕ, ◌⊎◌, ◌++◌, length};
ghost use Rattle.core_isa.specs.Marks.{Marked};
ghost use Rattle.core_isa.specs.Sound.{NeverStuck};
ghost use Rattle.core_isa.specs.declared.code.Code.{Code};
ghost use Rattle.core_image.specs.Answers.{IsImage, IsFaulty};
ghost use Rattle.core_image.specs.Fields.{Bytes, AreBytes, HasFault};
ghost use Rattle.core_image.specs.Ranges.{IsInRange};
ghost use Rattle.core_image.specs.Spelling.{image_of};
ghost use Rattle.core_image.specs.Table.{image};

/// An image is of one code, and no image begins another that has more bytes.
pub fn one_image_each()
    ensures { (a b : Code) (x y : Bytes) → IsInRange a → IsInRange b →
        image_of a ++ x ≡ image_of b ++ y → (a ≡ b) × (x ≡ y) }
{}

/// Bytes have at most one first wrong field.
pub fn one_first_fault()
    ensures { (bytes : Bytes) (p q : ℕ) → HasFault image bytes p → HasFault image bytes q → p ≡ q }
{}

/// Nothing in the image of some code is wrong.
pub fn no_fault_in_an_image()
    ensures { (code : Code) (place : ℕ) → IsInRange code → HasFault image (image_of code) place → ⊥ }
{}

/// Bytes are an image or have a first wrong field.
pub fn image_or_fault()
    ensures { (bytes : Bytes) → AreBytes bytes → IsImage bytes ⊎ IsFaulty bytes }
{}

/// An image has at most 8,388,608 bytes.
pub fn images_are_small()
    ensures { (code : Code) → IsInRange code → length (image_of code) ≤ 8388608 }
{}

/// A first wrong field begins at 8,388,608 or before.
pub fn faults_are_near()
    ensures { (bytes : Bytes) (place : ℕ) → HasFault image bytes place → place ≤ 8388608 }
{}

/// No run of marked code lacks an operand, a place, a slot, a handler or a recording: not of any function, with as many
/// arguments as it has parameters, from any cursor, with any units and whatever it is answered.
pub fn marked_code_in_range_is_never_stuck()
    ensures { (code : Code) → IsInRange code → Marked code → NeverStuck code }
{}
