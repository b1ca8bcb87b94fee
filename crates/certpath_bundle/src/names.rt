//! Names of files and labels of blocks, as they are shown.

ghost use Rattle.std.specs.Prelude.{◌≡◌, ◌++◌, OnOk, string_bytes};
ghost use Rattle.certpath_bundle.specs.Names.{is_hidden, shown_char, shown_name, is_plain, shown_octet, shown_label};

use std::alloc::AllocError;

/// Whether a character is shown by its number: those that move the cursor, end a line or turn the
/// direction of writing.
fn is_hidden(character: char) -> bool
    ensures { result ≡ is_hidden character }
{
    let code = character as u32;
    code < 32
        || (127 <= code && code <= 159)
        || (0x2028 <= code && code <= 0x202e)
        || (0x2066 <= code && code <= 0x2069)
}

/// Appends a character of a name.
fn push_char(text: &mut String, character: char) -> Result<(), AllocError>
    ensures { OnOk result (string_bytes text.new ≡ string_bytes text.old ++ shown_char character) }
{
    if is_hidden(character) {
        let code = character as u32;
        write!(text, "\\u{{{code:x}}}")
    } else {
        text.push(character)
    }
}

/// Appends a file's name.
pub(crate) fn push_name(text: &mut String, name: &str) -> Result<(), AllocError>
    ensures { OnOk result (string_bytes text.new ≡ string_bytes text.old ++ shown_name name.now) }
{
    for character in name.chars() {
        push_char(text, character)?;
    }
    Ok(())
}

/// Whether an octet is printable ASCII.
fn is_plain(octet: u8) -> bool
    ensures { result ≡ is_plain octet }
{
    32 <= octet && octet <= 126
}

/// Appends an octet of a label.
fn push_octet(text: &mut String, octet: u8) -> Result<(), AllocError>
    ensures { OnOk result (string_bytes text.new ≡ string_bytes text.old ++ shown_octet octet) }
{
    if is_plain(octet) {
        text.push(octet as char)
    } else {
        text.push('?')
    }
}

/// Appends a label.
pub(crate) fn push_label(text: &mut String, label: &[u8]) -> Result<(), AllocError>
    ensures { OnOk result (string_bytes text.new ≡ string_bytes text.old ++ shown_label label.now) }
{
    for octet in label {
        push_octet(text, *octet)?;
    }
    Ok(())
}
