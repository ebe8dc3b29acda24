//! Values that are read from structures on the disk and written to them again: parent records. Log items will stand here.
#![tactic(auto)]

mod parent;

pub use parent::ParentRec;
