//! A device of std as a writer.
ghost use Rattle.std.specs.Prelude.{◌≡◌};
ghost use Rattle.ufmt.specs.Device.{device_of, device_seen};

use std::io::{Error, ErrorKind, Write};
use ufmt_core::uWrite;

// How many writes of one piece may be interrupted.
const RETRIES: usize = 64;

/// A device of std as a writer: a file, a socket, standard output, or a `BufWriter` around one.
///
/// Each piece is one write of the device, and more where the device takes a part of it. An empty piece is
/// `Ok` without a write. On `Err` a prefix of the piece was written. The text is known where the device's
/// bytes are. Nothing is flushed.
#[derive(Drop)]
pub struct Device<W> {
    inner: W,
}

impl<W> Device<W> {
    /// Makes a writer of a device. A `&mut` to a device is a device too.
    pub fn new(device: W) -> Self
        ensures { device_of result ≡ device }
    {
        Device { inner: device }
    }

    /// Returns the device.
    pub fn into_inner(self) -> W
        ensures { result ≡ device_of self }
    {
        self.inner
    }
}

impl<W: Write> uWrite for Device<W> {
    type Error = Error;

    ghost seen = { device_seen W.contents };

    fn write_str(&mut self, s: &str) -> Result<(), Error> {
        let bytes = s.as_bytes();
        let mut written = 0;
        for _turn in 0..bytes.len().saturating_add(RETRIES) {
            if written == bytes.len() {
                return Ok(());
            }
            match self.inner.write(&bytes[written..]) {
                Ok(0) => return Err(Error::from(ErrorKind::WriteZero)),
                Ok(count) => written += count,
                Err(error) if error.kind() == ErrorKind::Interrupted => {}
                Err(error) => return Err(error),
            }
        }
        if written == bytes.len() {
            Ok(())
        } else {
            Err(Error::from(ErrorKind::Interrupted))
        }
    }
}
