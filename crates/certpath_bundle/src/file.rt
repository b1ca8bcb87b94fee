//! Files that are read whole.

ghost use Rattle.std.specs.Prelude.{◌≡◌, ◌+◌, ◌≤◌, max, IfOk, IsErrOf};
ghost use Rattle.certpath_inputs.specs.Reads.{ReadsAll, MeetsEnd, failed_reads};

use asn1_device::Source;
use certpath_inputs::{InputError, MAX_READS, READ_SIZE, read_text};
use std::alloc::Global;

/// A file that was read.
#[derive(Drop)]
pub struct File<'a> {
    /// The word that names it.
    pub name: &'a str,
    /// All its octets.
    pub octets: Vec<u8>,
}

/// Reads all that `reader` gives, as the file of this name.
pub fn read_file<'a, R: Source>(
    alloc: Global,
    name: &'a str,
    reader: &mut R,
) -> Result<File<'a>, InputError>
    ensures name { IfOk result (λ file. file.name ≡ name.entry) }
    ensures ok { IfOk result (λ file. ReadsAll (R.remaining reader.old) (R.remaining reader.new) file.octets.items) }
    ensures read { R.failures reader.new ≡ R.failures reader.old + failed_reads result }
    ensures end { MeetsEnd (R.ends reader.old) (R.ends reader.new) result }
    ensures too_long { IsErrOf result InputError.TooLong → R.reads reader.new ≡ R.reads reader.old + MAX_READS }
    ensures reads { R.reads reader.new ≤ R.reads reader.old + MAX_READS }
    ensures widest { R.widest reader.new ≤ max (R.widest reader.old) READ_SIZE }
{
    match read_text(alloc, reader) {
        Ok(octets) => Ok(File { name, octets }),
        Err(error) => Err(error),
    }
}
