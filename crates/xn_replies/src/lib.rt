//! What the reading commands answer of an accepted image has to do with the name space that the image means.
#![tactic(auto)]

mod replies;

pub use replies::{
    lists_are_those_of_the_name_space, parents_are_those_of_the_name_space,
    walks_are_those_of_the_name_space,
};
