//! Files that are read whole, and text for standard output. The main call is `read_file`.
ghost use Rattle.std.specs.Prelude.{◌<◌, ◌^◌};

use crate::failure::Failure;
use edge::{FileShelf, StdSink, read_text, write_all};

/// The bytes of a file; no more than the first `limit` and one more.
pub(crate) fn read_file(rt: &HostRuntime, name: &str, limit: u64) -> Result<Vec<u8>, Failure>
    requires { limit < 2 ^ 63 }
{
    let mut shelf = FileShelf::new(rt.alloc(), rt);
    let bytes = read_text(rt.alloc(), &mut shelf, name, limit)?;
    Ok(bytes)
}

/// Writes to standard output.
pub(crate) fn print_text(rt: &HostRuntime, text: &str) -> Result<(), Failure> {
    write_all(&mut StdSink::new(rt), text.as_bytes())?;
    Ok(())
}
