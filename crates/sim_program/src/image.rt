// The code that an image has.
ghost use Rattle.std.specs.Prelude.{◌≡◌, IfOk};
ghost use Rattle.core_image.specs.Ranges.{IsInRange};
ghost use Rattle.core_image.specs.Spelling.{image_of};
ghost use Rattle.sim_program.specs.Readings.{IsImageOf, IsVerifiedAs};

use crate::refusal::{bad_code_refusal, image_refusal};
use core_image::{
    BadCode, ImageEnd, Verified, decode, no_fault_in_an_image, one_image_each, verify,
};
use core_isa::Code;
use std::alloc::{AllocError, Global};

/// What bytes were read as.
#[derive(Drop)]
pub enum Image {
    /// Accepted code, whose image they are.
    Accepted(Verified),
    /// The line that says why they are no image of accepted code.
    Refused(Vec<u8>),
}

/// Reads bytes as the image of accepted code, or says why they are none: for their fields or for the code, in this order.
pub fn image_of(alloc: Global, bytes: &[u8]) -> Result<Image, AllocError>
    ensures { IfOk result (λ image. IsImageOf bytes.now image) }
{
    one_image_each();
    no_fault_in_an_image();
    match decode(alloc, bytes) {
        Ok(code) => accept(alloc, bytes, code),
        Err(ImageEnd::Memory) => Err(AllocError),
        Err(ImageEnd::Fault { offset }) => Ok(Image::Refused(image_refusal(alloc, offset)?)),
    }
}

// Accepts the code of an image, or says at which place it isn't right.
fn accept(alloc: Global, bytes: &[u8], code: Code) -> Result<Image, AllocError>
    requires in_range { IsInRange code }
    requires is_image { bytes.now ≡ image_of code }
    ensures { IfOk result (λ image. IsVerifiedAs bytes.now code image) }
{
    match verify(code) {
        Ok(verified) => Ok(Image::Accepted(verified)),
        Err(BadCode { place }) => Ok(Image::Refused(bad_code_refusal(alloc, place)?)),
    }
}
