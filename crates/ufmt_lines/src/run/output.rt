//! The outputs for groups of lines, in memory.
ghost use Rattle.std.specs.Prelude.{◌≡◌, ◌++◌, [], List, ℕ, true, OnOk, Some, is_some};
ghost use Rattle.ufmt_lines.specs.Private.Converted.{converted};

use std::alloc::{AllocError, Global};
use ufmt::class::Class;
use ufmt::layout::Mode;
use ufmt::uWrite;
use ufmt_scan::convert::write_converted;
use ufmt_scan::scan::ScanError;

// How many bytes of outputs are written at once, at least, if more groups have ended.
const LEAST: usize = 1024 * 1024;

/// The outputs for groups of lines, one after another. It is used again after they are written.
#[derive(Drop)]
pub(super) struct GroupOutput {
    bytes: Vec<u8>,
}

impl GroupOutput {
    ghost use Rattle.ufmt_lines.specs.Private.GroupOutput.{output_bytes};

    pub(super) fn new(alloc: Global) -> GroupOutput
        ensures { output_bytes result ≡ [] }
    {
        GroupOutput {
            bytes: Vec::new(alloc),
        }
    }

    pub(super) fn as_bytes(&self) -> &[u8]
        ensures { result.now ≡ output_bytes self.now }
    {
        self.bytes.as_slice()
    }

    /// Whether there are so many bytes that they are written before more groups end.
    pub(super) fn is_long(&self) -> bool {
        self.bytes.len() >= LEAST
    }

    pub(super) fn clear(&mut self)
        ensures { output_bytes self.new ≡ [] }
    {
        self.bytes.clear();
    }

    /// Appends bytes.
    pub(super) fn push(&mut self, bytes: &[u8]) -> Result<(), AllocError>
        ensures { OnOk result (output_bytes self.new ≡ output_bytes self.old ++ bytes.now) }
    {
        self.bytes.extend_from_slice(bytes)
    }

    /// Appends a text of the other mode in this one.
    pub(super) fn push_converted(&mut self, mode: Mode, text: &[u8]) -> Result<(), AllocError>
        requires { is_some (converted mode text.now) ≡ true }
        ensures { OnOk result ((other : List ℕ) × (converted mode text.now ≡ Some other)
            × (output_bytes self.new ≡ output_bytes self.old ++ other)) }
    {
        match write_converted(self, Class::Debug, mode, text) {
            Ok(()) => Ok(()),
            Err(ScanError::Sink(error)) => Err(error),
            Err(ScanError::NotText) => unreachable!(),
        }
    }
}

/// Fails only if memory runs out, and then leaves the output as it was.
impl uWrite for GroupOutput {
    ghost use Rattle.ufmt_lines.specs.Private.GroupOutput.{output_seen};

    type Error = AllocError;

    ghost seen = { output_seen };

    fn write_str(&mut self, s: &str) -> Result<(), AllocError> {
        self.bytes.extend_from_slice(s.as_bytes())
    }
}
