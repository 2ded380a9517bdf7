//! What a call of a device returned.

use std::io;

/// One call of a reader or writer, and what it returned. Contracts name it.
#[derive(Clone, Copy)]
pub enum Call {
    /// A read.
    Read(io::Result<usize>),
    /// A write.
    Write(io::Result<usize>),
    /// A flush.
    Flush(io::Result<()>),
}
