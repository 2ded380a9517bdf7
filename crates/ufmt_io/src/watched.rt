//! A reader or writer that notes whether it failed, and why.
ghost use Rattle.std.specs.Prelude.{◌≡◌, ◌<◌, [], false, length, IfOk, IfSome, IsTrue, Ok, OnErr, OnOk, Some};
ghost use Rattle.std.specs.Option.{option_or};
ghost use Rattle.std.specs.Io.{ReadsAtMost, WritesAtMost};
ghost use Rattle.std.specs.Io.KnownBytes.{Keeps, ReadConsumes, WriteAppends};
ghost use Rattle.ufmt_io.specs.Watched.{calls_of, device_of, first_failure, has_failed, has_given_up};
ghost use Rattle.ufmt_io.specs.Watched.{Calls, FailsToFlush, FailsToRead, FailsToWrite, KeepsKind};

use crate::call::Call;
use crate::noted::Noted;
use std::io;
use std::io::{ErrorKind, Read, Write};

/// The device failed in this call, or wrote nothing of bytes that aren't empty.
#[derive(Clone, Copy, PartialEq, Eq, Debug)]
pub struct Failed;

/// A reader or writer, the error of its first failure, and whether its caller gave up.
#[derive(Drop)]
pub struct Watched<D> {
    inner: Noted<D>,
    failure: Option<io::Error>,
    gave_up: bool,
}

impl<D> Watched<D> {
    /// Watches a device. It has not failed yet.
    pub fn new(device: D) -> Self
        ensures device { device_of result ≡ device }
        ensures uncalled { calls_of result ≡ [] }
        ensures works { has_failed result ≡ false }
        ensures goes_on { has_given_up result ≡ false }
    {
        Watched {
            inner: Noted::new(device),
            failure: None,
            gave_up: false,
        }
    }

    /// Returns the reader or writer itself.
    pub fn device(&self) -> &D
        ensures { result.now ≡ device_of self.now }
    {
        &self.inner.device
    }

    /// Returns whether a call has failed.
    pub fn has_failed(&self) -> bool
        ensures { result ≡ has_failed self.now }
    {
        self.failure.is_some()
    }

    /// Returns the error of the first call that failed. Its kind says why, and so do its words.
    pub fn first_failure(&self) -> Option<io::Error>
        ensures { result ≡ first_failure self.now }
    {
        self.failure
    }

    /// Returns whether `give_up` was called, so that a failure may be none of the device.
    pub fn has_given_up(&self) -> bool
        ensures { result ≡ has_given_up self.now }
    {
        self.gave_up
    }

    /// Notes a failure, without a call of the device. If it is the first, its kind is `Other`.
    pub fn give_up(&mut self)
        ensures device { device_of self.new ≡ device_of self.old }
        ensures uncalled { calls_of self.new ≡ calls_of self.old }
        ensures noted { IsTrue (has_failed self.new) }
        ensures given_up { IsTrue (has_given_up self.new) }
        ensures first { IfSome (first_failure self.old) (λ error. first_failure self.new ≡ Some error) }
        ensures kind { KeepsKind self.old self.new ErrorKind.Other }
    {
        self.gave_up = true;
        self.note(io::Error::from(ErrorKind::Other));
    }

    // Keeps the error, if it is the first.
    fn note(&mut self, error: io::Error)
        ensures device { device_of self.new ≡ device_of self.old }
        ensures uncalled { calls_of self.new ≡ calls_of self.old }
        ensures goes_on { has_given_up self.new ≡ has_given_up self.old }
        ensures first { first_failure self.new ≡ option_or (first_failure self.old) (Some error) }
    {
        self.failure = self.failure.or(Some(error));
    }

    fn fail(&mut self, error: io::Error) -> Failed
        ensures device { device_of self.new ≡ device_of self.old }
        ensures uncalled { calls_of self.new ≡ calls_of self.old }
        ensures goes_on { has_given_up self.new ≡ has_given_up self.old }
        ensures first { first_failure self.new ≡ option_or (first_failure self.old) (Some error) }
    {
        self.note(error);
        Failed
    }
}

impl<D: Read> Watched<D> {
    // Promise (programs): A watched device returns what its one noted call returned. It fails if and only if
    // that call failed, or wrote nothing although there were bytes to write. It counts as failed from its
    // first failure on, and keeps that error. Also: `Watched::write_some`, `Watched::flush_all`.
    /// Reads once, and returns the device's result. On `Failed` nothing was read.
    pub fn read_some(&mut self, buffer: &mut [u8]) -> Result<usize, Failed>
        ensures bound { ReadsAtMost result buffer.new }
        ensures bytes { ReadConsumes (D.remaining (device_of self.old))
            (D.remaining (device_of self.new)) result buffer.new }
        ensures ok { OnOk result (has_failed self.new ≡ has_failed self.old) }
        ensures err { OnErr result (IsTrue (has_failed self.new)) }
        ensures goes_on { has_given_up self.new ≡ has_given_up self.old }
        ensures first { IfSome (first_failure self.old) (λ error. first_failure self.new ≡ Some error) }
        ensures called { IfOk result (λ count. Calls self.old self.new (Call.Read (Ok count))) }
        ensures kept { OnOk result (first_failure self.new ≡ first_failure self.old) }
        ensures failed { OnErr result (FailsToRead self.old self.new) }
    {
        match self.inner.read(buffer) {
            Ok(count) => Ok(count),
            Err(error) => Err(self.fail(error)),
        }
    }
}

impl<D: Write> Watched<D> {
    /// Writes once, and returns the device's result. Fails also if nothing was written of bytes that
    /// aren't empty. On `Failed` nothing was written.
    pub fn write_some(&mut self, bytes: &[u8]) -> Result<usize, Failed>
        ensures bound { WritesAtMost result bytes.now }
        ensures bytes { WriteAppends (D.contents (device_of self.old))
            (D.contents (device_of self.new)) result bytes.now }
        ensures some { IfOk result (λ count. 0 < length bytes.now → 0 < count) }
        ensures ok { OnOk result (has_failed self.new ≡ has_failed self.old) }
        ensures err { OnErr result (IsTrue (has_failed self.new)) }
        ensures goes_on { has_given_up self.new ≡ has_given_up self.old }
        ensures first { IfSome (first_failure self.old) (λ error. first_failure self.new ≡ Some error) }
        ensures called { IfOk result (λ count. Calls self.old self.new (Call.Write (Ok count))) }
        ensures kept { OnOk result (first_failure self.new ≡ first_failure self.old) }
        ensures failed { OnErr result (FailsToWrite self.old self.new bytes.now) }
    {
        match self.inner.write(bytes) {
            Ok(count) if count > 0 || bytes.is_empty() => Ok(count),
            Ok(_) => Err(self.fail(io::Error::from(ErrorKind::WriteZero))),
            Err(error) => Err(self.fail(error)),
        }
    }

    /// Flushes once. The written bytes are as before.
    pub fn flush_all(&mut self) -> Result<(), Failed>
        ensures bytes { Keeps (D.contents (device_of self.old)) (D.contents (device_of self.new)) }
        ensures ok { OnOk result (has_failed self.new ≡ has_failed self.old) }
        ensures err { OnErr result (IsTrue (has_failed self.new)) }
        ensures goes_on { has_given_up self.new ≡ has_given_up self.old }
        ensures first { IfSome (first_failure self.old) (λ error. first_failure self.new ≡ Some error) }
        ensures called { OnOk result (Calls self.old self.new (Call.Flush (Ok tt))) }
        ensures kept { OnOk result (first_failure self.new ≡ first_failure self.old) }
        ensures failed { OnErr result (FailsToFlush self.old self.new) }
    {
        match self.inner.flush() {
            Ok(()) => Ok(()),
            Err(error) => Err(self.fail(error)),
        }
    }
}
