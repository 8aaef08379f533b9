//! Reading a reader to its end.

ghost use Rattle.std.specs.{Prelude.{◌≡◌, ◌≢◌, ◌⊎◌, ◌<◌, ◌++◌, List, ℕ, length, IfOk, IfErr, IfSome, OnOk}, Io.KnownBytes.{Consumes, IsAtEnd}};
ghost use Rattle.netlink_report.specs.{Counted.{raised}, Run.{SomethingLeft}, declared.error.RunError.TheVariants.{Memory, Read as ReadFailed}};

use crate::counted::Counted;
use crate::error::RunError;
use std::alloc::Global;
use std::io::Read;

const CHUNK: usize = 4096;

/// All that the reader has left. No failed read is tried again.
pub fn read_all<R: Read>(alloc: Global, reader: &mut Counted<R>) -> Result<Vec<u8>, RunError>
    ensures ok { IfOk result (λ bytes. IfSome (R.remaining reader.old.inner) (λ left. bytes.items ≡ left)) }
    ensures end { OnOk result (IsAtEnd (R.remaining reader.new.inner)) }
    ensures read { result ≡ Err ReadFailed → reader.new.failures ≡ raised reader.old.failures }
    ensures kept { result ≢ Err ReadFailed → reader.new.failures ≡ reader.old.failures }
    ensures memory { result ≡ Err Memory → SomethingLeft (R.remaining reader.old.inner) }
    ensures errors { IfErr result (λ e. (e ≡ ReadFailed) ⊎ (e ≡ Memory)) }
{
    let mut bytes = Vec::new(alloc);
    let mut chunk = [0u8; CHUNK];
    for _ in 0..u64::MAX {
        if read_some(reader, &mut chunk, &mut bytes)? == 0 {
            return Ok(bytes);
        }
    }
    Err(RunError::Memory)
}

/// Appends what one read gives, and says how much that is: nothing only at the end.
fn read_some<R: Read>(
    reader: &mut Counted<R>,
    chunk: &mut [u8],
    bytes: &mut Vec<u8>,
) -> Result<usize, RunError>
    requires { 0 < length chunk.old }
    ensures ok { IfOk result (λ count. (more : List ℕ) × (length more ≡ count)
        × (bytes.new.items ≡ bytes.old.items ++ more)
        × Consumes (R.remaining reader.old.inner) (R.remaining reader.new.inner) more) }
    ensures end { result ≡ Ok 0 → IsAtEnd (R.remaining reader.new.inner) }
    ensures read { result ≡ Err ReadFailed → reader.new.failures ≡ raised reader.old.failures }
    ensures kept { result ≢ Err ReadFailed → reader.new.failures ≡ reader.old.failures }
    ensures memory { result ≡ Err Memory → SomethingLeft (R.remaining reader.old.inner) }
    ensures errors { IfErr result (λ e. (e ≡ ReadFailed) ⊎ (e ≡ Memory)) }
{
    match reader.read(chunk) {
        Ok(0) => Ok(0),
        Ok(count) => {
            bytes.extend_from_slice(&chunk[..count])?;
            Ok(count)
        }
        Err(_) => Err(RunError::Read),
    }
}
