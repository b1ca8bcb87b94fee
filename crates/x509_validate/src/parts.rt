//! Messages of a certificate's version, serial number and times (RFC 5280, 4.1.2).

ghost use Rattle.std.specs.Prelude.{◌≡◌, ◌++◌, OnOk, map};
ghost use Rattle.x509_validate.specs.Parts.{version_messages, serial_messages, time_messages, validity_messages};
ghost use Rattle.x509_validate.specs.View.{message_view};

use crate::message::{Message, Weight, push_text};
use std::alloc::{AllocError, Global};
use x509_time::{ASN1Time, Validity};

/// Adds the messages of a version, as it is encoded: 0 is version 1.
pub(crate) fn push_version(
    alloc: Global,
    version: u32,
    said: &mut Vec<Message>,
) -> Result<(), AllocError>
    ensures { OnOk result (map message_view said.new.items ≡ map message_view said.old.items ++ version_messages version) }
{
    if version > 2 {
        push_text(alloc, Weight::Fatal, "Invalid version", said)
    } else {
        Ok(())
    }
}

/// Adds the messages of a serial number with these content octets.
pub(crate) fn push_serial(
    alloc: Global,
    octets: &[u8],
    said: &mut Vec<Message>,
) -> Result<(), AllocError>
    ensures { OnOk result (map message_view said.new.items ≡ map message_view said.old.items ++ serial_messages octets.now) }
{
    match octets {
        [] => push_text(alloc, Weight::Fatal, "Serial is empty", said),
        [first, ..] if *first > 127 => push_text(
            alloc,
            Weight::Warning,
            "Serial number is negative",
            said,
        ),
        [first, second, ..] if *first == 0 && *second <= 127 => push_text(
            alloc,
            Weight::Warning,
            "Leading zeroes in serial number",
            said,
        ),
        _ => Ok(()),
    }
}

fn push_time(
    alloc: Global,
    time: &ASN1Time,
    early: &str,
    late: &str,
    said: &mut Vec<Message>,
) -> Result<(), AllocError>
    ensures { OnOk result (map message_view said.new.items ≡ map message_view said.old.items ++ time_messages early.now late.now time.now) }
{
    let is_late = time.to_datetime().year() > 2049;
    if time.is_generalizedtime() && !is_late {
        push_text(alloc, Weight::Warning, early, said)
    } else if time.is_utctime() && is_late {
        push_text(alloc, Weight::Warning, late, said)
    } else {
        Ok(())
    }
}

/// Adds the messages of the times of a validity.
pub(crate) fn push_validity(
    alloc: Global,
    validity: &Validity,
    said: &mut Vec<Message>,
) -> Result<(), AllocError>
    ensures { OnOk result (map message_view said.new.items ≡ map message_view said.old.items ++ validity_messages validity.now) }
{
    push_time(
        alloc,
        &validity.not_before,
        "year <= 2049 should use UTCTime (notBefore)",
        "year >= 2050 should use GeneralizedTime (notBefore)",
        said,
    )?;
    push_time(
        alloc,
        &validity.not_after,
        "year <= 2049 should use UTCTime (notAfter)",
        "year >= 2050 should use GeneralizedTime (notAfter)",
        said,
    )
}
