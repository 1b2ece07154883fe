// The pack as an image: what stands where in it, and what its codes say.
#![tactic(auto)]

pub mod image; // image.rt: each number of the image by its name

pub use words::{Action, action_of};
