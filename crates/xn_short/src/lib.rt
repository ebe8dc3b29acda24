//! Directories in short form, read in place: the form that the kernel keeps in an inode's data fork while the entries
//! are few (`struct xfs_dir2_sf_hdr` and `struct xfs_dir2_sf_entry` of Linux's `xfs_da_format.h`, with the kind behind
//! each name).
#![tactic(auto)]

mod check;
mod entry;
mod fault;
mod layout;
mod short;
mod width;

pub use entry::{ShortEntries, ShortEntry};
pub use fault::ShortFault;
pub use short::Short;
