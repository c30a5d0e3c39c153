//! The image of code for the core's processor, in bytes, and which code is accepted.
#![tactic(auto)]

mod decoding;
mod effect;
mod encoding;
mod end;
mod laws;
mod operands;
mod passing;
mod reader;
mod spot;
mod verifying;

pub use decoding::decode;
pub use encoding::encode;
pub use end::ImageEnd;
pub use laws::{
    faults_are_near, image_or_fault, images_are_small, marked_code_in_range_is_never_stuck,
    no_fault_in_an_image, one_first_fault, one_image_each,
};
pub use verifying::{BadCode, Verified, verify};
