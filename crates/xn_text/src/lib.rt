//! The words of the command line, and the texts that the program tells: replies, and the lines that are no replies.
#![tactic(auto)]

mod arguments;
mod entry;
mod line;
mod manifest;
mod number;
mod parts;
mod reader;
mod reply;
mod row;
mod told;
mod words;
mod writer;

pub use line::{Lines, ListLine, ParentLine, ParentLines};
pub use manifest::Manifest;
pub use reader::{ManifestFault, one_reading};
pub use reply::Reply;
pub use told::{Summary, image_line, manifest_line, summary_line, usage_line};
pub use words::{FORMS, Words, WordsFault};
