//! Reading an input to its end, and writing bytes whole.
ghost use Rattle.std.specs.Prelude.{◌≡◌, ◌+◌, ◌≤◌, ◌↔◌, ◌⊎◌, false, drop, take, vec_len, IfErr, IfOk, IfSome, IsErr, IsErrOf, IsTrue, OnErr, OnOk};
ghost use Rattle.std.specs.Io.KnownBytes.{Appends, Consumes, IsAtEnd};
ghost use Rattle.ufmt_io.specs.Watched.{device_of, has_failed, has_given_up};
ghost use Rattle.ufmt_io.specs.Whole.{AppendsPrefix};

use crate::fault::IoFault;
use crate::watched::{Failed, Watched};
use std::alloc::Global;
use std::io::{Read, Write};

// By how many bytes a full vector grows for the next reads.
const ROOM: usize = 64 * 1024;

// Promise (programs): `read_to_end` returns all that is left, and `write_whole` writes everything. A failed
// `write_whole` has written a prefix. Also: `write_whole`.
/// Returns all bytes that are left of the input. A reader that never ends leads to `OutOfMemory`.
#[tactic(auto, using(crate::proofs::KnownParts::consumes_longer_front))]
pub fn read_to_end<R: Read>(alloc: Global, input: &mut Watched<R>) -> Result<Vec<u8>, IoFault>
    requires { has_failed input.old ≡ false }
    ensures ok { IfOk result (λ text. IfSome (R.remaining (device_of input.old)) (λ bytes.
        text.items ≡ bytes)) }
    ensures end { OnOk result (IsAtEnd (R.remaining (device_of input.new))) }
    ensures failed { IsErrOf result IoFault.CannotRead ↔ IsTrue (has_failed input.new) }
    ensures goes_on { has_given_up input.new ≡ has_given_up input.old }
    ensures refusals { IfErr result (λ fault.
        (fault ≡ IoFault.CannotRead) ⊎ (fault ≡ IoFault.OutOfMemory)) }
{
    let mut text = Vec::new(alloc);
    let mut filled = 0;
    loop {
        let count = read_after(input, &mut text, filled)?;
        if count == 0 {
            text.truncate(filled);
            return Ok(text);
        }
        filled += count;
    }
}

// Reads once into `text`, after its first `filled` bytes. Zero is the end of the input.
fn read_after<R: Read>(
    input: &mut Watched<R>,
    text: &mut Vec<u8>,
    filled: usize,
) -> Result<usize, IoFault>
    requires works { has_failed input.old ≡ false }
    requires within { filled ≤ vec_len text.old }
    ensures front { take filled text.new.items ≡ take filled text.old.items }
    ensures fits { IfOk result (λ count. filled + count ≤ vec_len text.new) }
    ensures ok { IfOk result (λ count. Consumes (R.remaining (device_of input.old))
        (R.remaining (device_of input.new)) (take count (drop filled text.new.items))) }
    ensures end { IfOk result (λ count. count ≡ 0 → IsAtEnd (R.remaining (device_of input.new))) }
    ensures failed { IsErrOf result IoFault.CannotRead ↔ IsTrue (has_failed input.new) }
    ensures goes_on { has_given_up input.new ≡ has_given_up input.old }
    ensures refusals { IfErr result (λ fault.
        (fault ≡ IoFault.CannotRead) ⊎ (fault ≡ IoFault.OutOfMemory)) }
{
    if filled == text.len() {
        text.resize(filled + ROOM, 0)?;
    }
    let buffer = text.as_mut_slice();
    input
        .read_some(&mut buffer[filled..])
        .map_err(|_| IoFault::CannotRead)
}

/// Writes all the bytes, and flushes. After a short write it continues with the rest.
pub fn write_whole<W: Write>(output: &mut Watched<W>, bytes: &[u8]) -> Result<(), Failed>
    requires { has_failed output.old ≡ false }
    ensures ok { OnOk result (Appends (W.contents (device_of output.old))
        (W.contents (device_of output.new)) bytes.now) }
    ensures err { OnErr result (AppendsPrefix (W.contents (device_of output.old))
        (W.contents (device_of output.new)) bytes.now) }
    ensures failed { IsErr result ↔ IsTrue (has_failed output.new) }
    ensures goes_on { has_given_up output.new ≡ has_given_up output.old }
{
    let mut written = 0;
    while written < bytes.len() {
        written += output.write_some(&bytes[written..])?;
    }
    output.flush_all()
}
