//! Inodes and blocks after items, by the layouts of Linux's `xfs_log_format.h`, `xfs_format.h` and `xfs_da_format.h`.
#![tactic(auto)]

#[cfg(test)]
mod blocks;
#[cfg(test)]
mod inodes;
