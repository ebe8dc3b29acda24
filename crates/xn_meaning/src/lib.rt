//! What the words and replies of the program mean, and what its reading commands answer of an image: the definitions of `specs/`, which
//! the contracts of the commands cite, and the error numbers and statuses that they speak of.
#![tactic(auto)]

mod errno;
mod status;

pub use errno::Errno;
pub use status::Status;
