//! The line that says what the check says.

ghost use Rattle.std.specs.Prelude.{◌≡◌, ◌++◌, string_bytes, OnOk};
ghost use Rattle.certpath_inputs.specs.Check.{check_line};

use std::alloc::AllocError;

/// Appends `check yes` or `check no`, and LF. The only error is out of memory.
pub fn push_check(text: &mut String, said: bool) -> Result<(), AllocError>
    ensures { OnOk result (string_bytes text.new ≡ string_bytes text.old ++ check_line said) }
{
    if said {
        writeln!(text, "check yes")
    } else {
        writeln!(text, "check no")
    }
}
