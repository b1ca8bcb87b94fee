//! One bundle of many files.

ghost use Rattle.std.specs.Prelude.{◌≡◌, ◌≢◌, ◌+◌, ◌≤◌, IfOk, IfErr, OnOk, OnErr, IsErrOf, map, string_bytes};
ghost use Rattle.std.specs.Io.KnownBytes.{Appends};
ghost use Rattle.asn1_device.specs.Counts.{AppendsFront};
ghost use Rattle.certpath_bundle.specs.Bundles.{items_of, said_of, bundle_of, messages_of, left_out_of, counts_of};
ghost use Rattle.certpath_bundle.specs.Views.{file_view, found_view};
ghost use Rattle.certpath_bundle.specs.Writes.{failed_writes};

use crate::file::File;
use crate::found::{Found, counts_of, found_in_all, push_all_lines};
use crate::summary::push_summary;
use asn1_device::{Sink, write_octets};
use std::alloc::{AllocError, Global};
use thiserror::Error;

/// Why a bundle was not written, or not whole.
#[derive(Clone, Copy, Debug, PartialEq, Eq, Hash, Error)]
pub enum BundleError {
    /// Memory was refused.
    #[error("OutOfMemory")]
    OutOfMemory,
    /// A write or the flush failed, or a write took no octet.
    #[error("Write")]
    Write,
}

/// What is said of a bundle that was written.
#[derive(Debug, Drop)]
pub struct Said {
    /// A line for each thing that was left out, in the order of the files, and one that counts.
    pub text: String,
    /// How often something was left out.
    pub left_out: usize,
}

/// What is to be said.
fn said_of(alloc: Global, found: &[Found<'_>]) -> Result<Said, AllocError>
    ensures text { IfOk result (λ said. string_bytes said.text ≡ said_of (map found_view found.now)) }
    ensures left_out { IfOk result (λ said. said.left_out ≡ (counts_of (map found_view found.now)).left_out) }
{
    let counts = counts_of(found)?;
    let mut text = String::new(alloc);
    push_all_lines(&mut text, found)?;
    push_summary(&mut text, counts)?;
    Ok(Said {
        text,
        left_out: counts.left_out,
    })
}

/// Writes the items of all files.
fn write_items<W: Sink>(writer: &mut W, found: &[Found<'_>]) -> Result<(), BundleError>
    ensures ok { OnOk result (Appends (W.contents writer.old) (W.contents writer.new) (items_of (map found_view found.now))) }
    ensures part { OnErr result (AppendsFront (W.contents writer.old) (W.contents writer.new) (items_of (map found_view found.now))) }
    ensures only { IfErr result (λ e. e ≡ BundleError.Write) }
    ensures write { W.failures writer.new ≡ W.failures writer.old + failed_writes result }
    ensures flushes { W.flushes writer.new ≡ W.flushes writer.old }
{
    for one in found {
        if write_octets(writer, one.report.octets.as_slice()).is_err() {
            return Err(BundleError::Write);
        }
    }
    Ok(())
}

/// Writes the items of all files, and flushes once, after all of them were written.
fn write_all<W: Sink>(writer: &mut W, found: &[Found<'_>]) -> Result<(), BundleError>
    ensures ok { OnOk result (Appends (W.contents writer.old) (W.contents writer.new) (items_of (map found_view found.now))) }
    ensures part { OnErr result (AppendsFront (W.contents writer.old) (W.contents writer.new) (items_of (map found_view found.now))) }
    ensures only { IfErr result (λ e. e ≡ BundleError.Write) }
    ensures write { W.failures writer.new ≡ W.failures writer.old + failed_writes result }
    ensures flushed { OnOk result (W.flushes writer.new ≡ W.flushes writer.old + 1) }
    ensures once { W.flushes writer.new ≤ W.flushes writer.old + 1 }
    ensures last { W.flushes writer.new ≡ W.flushes writer.old + 1 → Appends (W.contents writer.old) (W.contents writer.new) (items_of (map found_view found.now)) }
{
    write_items(writer, found)?;
    if writer.flush().is_err() {
        return Err(BundleError::Write);
    }
    Ok(())
}

/// Writes the certificates and revocation lists of all files to `writer`, one right after the other,
/// in the order of the files and of each file, with their octets. Returns what is to be said.
///
/// Nothing is written before all files are read and all that is said is built. The writer is flushed
/// once, after all items were written. Beside the files it takes as much memory as their items, a
/// row and a line for each thing that is left out, and what `certpath_files::items_of` takes while
/// it runs.
pub fn bundle<W: Sink>(
    alloc: Global,
    files: &[File<'_>],
    writer: &mut W,
) -> Result<Said, BundleError>
    // What is written and said.
    ensures ok { OnOk result (Appends (W.contents writer.old) (W.contents writer.new) (bundle_of (map file_view files.now))) }
    ensures text { IfOk result (λ said. string_bytes said.text ≡ messages_of (map file_view files.now)) }
    ensures left_out { IfOk result (λ said. said.left_out ≡ left_out_of (map file_view files.now)) }
    ensures part { IsErrOf result BundleError.Write → AppendsFront (W.contents writer.old) (W.contents writer.new) (bundle_of (map file_view files.now)) }
    ensures nothing { IfErr result (λ e. e ≢ BundleError.Write → writer.new ≡ writer.old) }

    // When each refusal comes.
    ensures write { W.failures writer.new ≡ W.failures writer.old + failed_writes result }
    ensures flushed { OnOk result (W.flushes writer.new ≡ W.flushes writer.old + 1) }
    ensures once { W.flushes writer.new ≤ W.flushes writer.old + 1 }
    ensures last { W.flushes writer.new ≡ W.flushes writer.old + 1 → Appends (W.contents writer.old) (W.contents writer.new) (bundle_of (map file_view files.now)) }
{
    let Ok(found) = found_in_all(alloc, files) else {
        return Err(BundleError::OutOfMemory);
    };
    let Ok(said) = said_of(alloc, &found) else {
        return Err(BundleError::OutOfMemory);
    };
    write_all(writer, &found)?;
    Ok(said)
}
