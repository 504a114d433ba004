//! Kinds of calls of a disk.

/// A kind of call of a disk.
#[derive(Clone, Copy, Debug, PartialEq, Eq)]
pub enum DiskCall {
    /// `len`.
    Len,
    /// `read_at`.
    ReadAt,
    /// `write_at`.
    WriteAt,
    /// `sync`.
    Sync,
}
