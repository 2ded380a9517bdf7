//! A run of the program: writes the outputs for all groups of lines that have ended before it reads more.
ghost use Rattle.std.specs.Prelude.{◌≡◌, ◌↔◌, ◌<◌, ◌≤◌, ◌-◌, ◌^◌, List, ℕ, Some, false, length, take, vec_len, IfErr, IfOk, IsErr, IsErrOf, IsTrue, OnErr, OnOk, ⊤};
ghost use Rattle.std.specs.Io.KnownBytes.{Appends, Consumes, IsAtEnd, Keeps};
ghost use Rattle.ufmt_io.specs.Whole.{AppendsPrefix};
ghost use Rattle.ufmt_lines.specs.Output.{WritesOutput, WritesOutputPrefix, ReadsAndWrites};
ghost use Rattle.ufmt_lines.specs.Groups.{IsInGroup};
ghost use Rattle.ufmt_io.specs.Watched.{device_of, has_failed, has_given_up};

mod arguments;
mod conversion;
mod converter;
mod fault;
mod groups;
pub mod laws;
mod open_blocks;
mod output;
#[cfg(test)]
mod tests;
mod texts;
mod values;

pub use arguments::{Mistake, Request, asked, inputs};
pub use conversion::Conversion;
pub use fault::{fault_line, status};
use groups::Group;
use std::alloc::{AllocError, Global};
use std::io::{Read, Write};
pub use texts::{help, usage, version};
use ufmt_io::write_whole;
pub use ufmt_io::{Failed, IoFault, Watched};

// How many bytes are read at once, at most.
const CHUNK: usize = 64 * 1024;

// Promise (programs): `run` of `ufmt_lines` writes each line, or with `--plain` each group of lines, with its
// values in the other mode, except those that stay. If writing fails, it has written a prefix, and for any
// other fault whole groups. It never gives up on an input of known bytes that is shorter than 2^64 - 1 bytes.
// Also: `run::print`, `laws::groups_are_the_text`, `laws::lines_are_made_pretty`.
/// Reads the input to its end, and writes each group of lines with its values converted. The outputs for
/// all groups that have ended are written before more is read. Memory is kept for one read, the longest
/// group and its output, and 1 MiB of outputs.
///
/// On `CannotWrite` a prefix of the outputs was written. On any other fault the outputs for whole
/// groups were written: for all groups that were read whole, if the fault is `CannotRead`.
pub fn run<R: Read, W: Write>(
    alloc: Global,
    conversion: Conversion,
    input: &mut Watched<R>,
    output: &mut Watched<W>,
) -> Result<(), IoFault>
    requires input_works { has_failed input.old ≡ false }
    requires output_works { has_failed output.old ≡ false }

    // What is read and written, if the bytes of reader and writer are known.
    ensures ok { OnOk result (WritesOutput conversion (R.remaining (device_of input.old))
        (W.contents (device_of output.old)) (W.contents (device_of output.new))) }
    ensures read_whole { OnOk result (IsAtEnd (R.remaining (device_of input.new))) }
    ensures cannot_write { IsErrOf result IoFault.CannotWrite
        → WritesOutputPrefix conversion (R.remaining (device_of input.old))
        (W.contents (device_of output.old)) (W.contents (device_of output.new)) }
    ensures cannot_read { IsErrOf result IoFault.CannotRead
        → ReadsAndWrites conversion (IsInGroup conversion.to) (R.remaining (device_of input.old))
        (R.remaining (device_of input.new)) (W.contents (device_of output.old))
        (W.contents (device_of output.new)) }
    ensures out_of_memory { IsErrOf result IoFault.OutOfMemory
        → ReadsAndWrites conversion (λ _. ⊤) (R.remaining (device_of input.old))
        (R.remaining (device_of input.new)) (W.contents (device_of output.old))
        (W.contents (device_of output.new)) }

    // What each fault means.
    ensures input_failed { IsErrOf result IoFault.CannotRead ↔ IsTrue (has_failed input.new) }
    ensures output_failed { IsErrOf result IoFault.CannotWrite ↔ IsTrue (has_failed output.new) }

    // Until then it continues: known bytes are read to their end, and outputs are written to theirs.
    ensures reads_on { (bytes : List ℕ) → R.remaining (device_of input.old) ≡ Some bytes
        → length bytes < 2 ^ 64 - 1 → has_given_up input.new ≡ has_given_up input.old }
    ensures writes_on { has_given_up output.new ≡ has_given_up output.old }
{
    let mut group = Group::new(alloc, conversion);
    let mut chunk = new_chunk(alloc)?;
    let mut turns: u64 = 0;
    'reads: while turns < u64::MAX {
        let count = read_chunk(input, &mut chunk)?;
        if count == 0 {
            return group.write_last(output);
        }
        group.write_ended(front(&chunk, count), output)?;
        turns += 1;
    }
    // An input with no end, after 2^64 - 1 reads.
    input.give_up();
    Err(IoFault::CannotRead)
}

/// Writes a text whole. The only fault is `CannotWrite`, and then a prefix of it was written.
pub fn print<W: Write>(text: &str, output: &mut Watched<W>) -> Result<(), IoFault>
    requires { has_failed output.old ≡ false }
    ensures ok { OnOk result (Appends (W.contents (device_of output.old))
        (W.contents (device_of output.new)) text.now) }
    ensures cannot_write { OnErr result (AppendsPrefix (W.contents (device_of output.old))
        (W.contents (device_of output.new)) text.now) }
    ensures failed { IsErrOf result IoFault.CannotWrite ↔ IsTrue (has_failed output.new) }
    ensures no_other { IfErr result (λ fault. fault ≡ IoFault.CannotWrite) }
    ensures writes_on { has_given_up output.new ≡ has_given_up output.old }
{
    write_whole(output, text.as_bytes()).map_err(|_| IoFault::CannotWrite)
}

// Room for what is read at once.
fn new_chunk(alloc: Global) -> Result<Vec<u8>, AllocError>
    ensures { IfOk result (λ chunk. 0 < vec_len chunk) }
{
    let mut chunk = Vec::new(alloc);
    chunk.resize(CHUNK, 0)?;
    Ok(chunk)
}

// Reads once to the front of the chunk. Zero is the end of the input.
fn read_chunk<R: Read>(input: &mut Watched<R>, chunk: &mut Vec<u8>) -> Result<usize, IoFault>
    requires works { has_failed input.old ≡ false }
    requires room { 0 < vec_len chunk.old }
    ensures works { OnOk result (has_failed input.new ≡ false) }
    ensures room { OnOk result (0 < vec_len chunk.new) }
    ensures within { IfOk result (λ count. count ≤ vec_len chunk.new) }
    ensures ok { IfOk result (λ count. Consumes (R.remaining (device_of input.old))
        (R.remaining (device_of input.new)) (take count chunk.new.items)) }
    ensures end { IfOk result (λ count. count ≡ 0 → IsAtEnd (R.remaining (device_of input.new))) }
    ensures kept { OnErr result (Keeps (R.remaining (device_of input.old))
        (R.remaining (device_of input.new))) }
    ensures failed { IsErr result ↔ IsTrue (has_failed input.new) }
    ensures no_other { IfErr result (λ fault. fault ≡ IoFault.CannotRead) }
    ensures reads_on { has_given_up input.new ≡ has_given_up input.old }
{
    let buffer = chunk.as_mut_slice();
    input.read_some(buffer).map_err(|_| IoFault::CannotRead)
}

// What was read.
fn front(chunk: &Vec<u8>, count: usize) -> &[u8]
    requires { count ≤ vec_len chunk.now }
    ensures bytes { result.now ≡ take count chunk.now.items }
    ensures size { length result.now ≡ count }
{
    let bytes = chunk.as_slice();
    &bytes[..count]
}
