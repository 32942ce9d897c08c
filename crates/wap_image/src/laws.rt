//! What holds of all bytes: they are the image of some parts or have a first fault, never both, and
//! never two.
ghost use Rattle.std.specs.Prelude.{◌≡◌, ◌⊎◌, ℕ, List};
ghost use Rattle.wap_image.specs.declared.context_parts.fault.ImageFault.{ImageFault};
ghost use Rattle.wap_image.specs.Images.{Saved, IsImage};
ghost use Rattle.wap_image.specs.Refusal.{IsRefused};

/// Bytes are the image of one context at most.
pub fn no_bytes_have_two_images()
    ensures { (bytes : List ℕ) (one two : Saved) → IsImage bytes one → IsImage bytes two
        → one ≡ two }
{}

/// Bytes have one first fault at most.
pub fn no_bytes_have_two_faults()
    ensures { (bytes : List ℕ) (one two : ImageFault) → IsRefused bytes one → IsRefused bytes two
        → one ≡ two }
{}

/// No bytes are an image and have a fault.
pub fn no_image_has_a_fault()
    ensures { (bytes : List ℕ) (saved : Saved) (fault : ImageFault) → IsImage bytes saved
        → IsRefused bytes fault → ⊥ }
{}

/// Bytes that are no image have a fault.
pub fn what_is_no_image_has_a_fault()
    ensures { (bytes : List ℕ) → ((saved : Saved) × IsImage bytes saved)
        ⊎ ((fault : ImageFault) × IsRefused bytes fault) }
{}
