//! The disk that a journal lies on: one file, and what a crash may leave of it.
//!
//! Contracts see a [`Disk`] through what a read gives, if the disk reveals that, the images that a crash
//! may leave, now or at some moment since an earlier one, and a count of faults: a call fails only if the
//! count rose. Between two syncs a crash may leave any bytes in each written range and past the old end of
//! the file, and any length between the old and the new one; after a sync it leaves what a read gives.
//!
//! [`MemDisk`] reveals everything. Contracts see it as the image that it began with and the record of its
//! calls, which it replays; [`MemDisk::crash`] gives one of the images that a crash may leave.
//! [`FileDisk`] is a real file, locked against other processes; it reveals no content.
//!
//! A `MemDisk` takes memory with each write and each sync; a `FileDisk` takes none. Nothing here waits for
//! another thread. The tests stand in `auc_disk_tests`.
#![tactic(auto)]

mod call;
mod disk;
mod disk_call;
mod fail_list;
mod file_disk;
mod law;
mod mem_disk;
mod putting;

pub use disk::Disk;
pub use disk_call::DiskCall;
pub use fail_list::FailList;
pub use file_disk::FileDisk;
pub use law::each_choice_leaves_an_image;
pub use mem_disk::MemDisk;
