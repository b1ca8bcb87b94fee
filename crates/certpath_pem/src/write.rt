//! Octets written as PEM.

ghost use Rattle.std.specs.Prelude.{◌≡◌, ◌∷◌, ◌++◌, ◌≤◌, ℕ, List, true, IfOk, OnOk};
ghost use Rattle.certpath_pem.specs.Labels.{is_label};
ghost use Rattle.certpath_pem.specs.Writing.{wrapped_from, wrapped, boundary_line, pem_of};

use base64::engine::general_purpose::STANDARD;
use std::alloc::{AllocError, Global};

/// How many octets of base64 a line has, but for the last one (RFC 7468, 2).
const LINE_WIDTH: usize = 64;

/// Writes one octet in a line that has room for so many more, or in a new one. Returns the room
/// that is left.
fn push_octet(text: &mut Vec<u8>, room: usize, octet: u8) -> Result<usize, AllocError>
    ensures { IfOk result (λ left. (rest : List ℕ) → text.new.items ++ wrapped_from left rest ≡ text.old.items ++ wrapped_from room (octet ∷ rest)) }
{
    if room == 0 {
        text.push(b'\n')?;
        text.push(octet)?;
        return Ok(LINE_WIDTH - 1);
    }
    text.push(octet)?;
    Ok(room - 1)
}

/// Writes octets in lines of 64, each ended by an LF.
fn push_wrapped(text: &mut Vec<u8>, octets: &[u8]) -> Result<(), AllocError>
    ensures { OnOk result (text.new.items ≡ text.old.items ++ wrapped octets.now) }
{
    let mut room = LINE_WIDTH;
    for octet in octets {
        room = push_octet(text, room, *octet)?;
    }
    text.push(b'\n')?;
    Ok(())
}

/// Writes a line that begins or ends a block.
fn push_boundary(text: &mut Vec<u8>, words: &[u8], label: &[u8]) -> Result<(), AllocError>
    ensures { OnOk result (text.new.items ≡ text.old.items ++ boundary_line words.now label.now) }
{
    text.extend_from_slice(words)?;
    text.extend_from_slice(label)?;
    text.extend_from_slice(b"-----\n")?;
    Ok(())
}

/// Returns octets as one block of PEM: a BEGIN line, base64 in lines of 64, an END line, each ended
/// by an LF (RFC 7468, 2 and 3). `is_label` says whether octets may be a label. The only error is
/// out of memory.
pub fn write_pem(alloc: Global, label: &[u8], octets: &[u8]) -> Result<Vec<u8>, AllocError>
    requires { is_label label.now ≡ true }
    ensures { IfOk result (λ text. text.items ≡ pem_of label.now octets.now) }
{
    let symbols = STANDARD.encode(alloc, octets)?;
    let mut text = Vec::new(alloc);
    push_boundary(&mut text, b"-----BEGIN ", label)?;
    push_wrapped(&mut text, symbols.as_bytes())?;
    push_boundary(&mut text, b"-----END ", label)?;
    Ok(text)
}
