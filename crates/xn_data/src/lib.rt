//! Data blocks of directories, read in place: header, regions and, in block form, the leaf entries behind them (`struct
//! xfs_dir3_data_hdr`, `xfs_dir2_data_entry`, `xfs_dir2_data_unused` and `xfs_dir2_block_tail` of Linux's
//! `xfs_da_format.h`).
#![tactic(auto)]

mod block;
mod check;
mod entry;
mod fault;
mod layout;
mod pairs;
mod region;
mod tail;

pub use block::DataBlock;
pub use entry::{DataEntries, DataEntry};
pub use fault::DataFault;
pub use tail::Tail;
