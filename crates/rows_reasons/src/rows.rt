//! Certificates that differ in their extensions.

use cert_model::fields::{AlgField, BitField, CertFields, ExtField, KeyField, NameFields};
use jiff::civil::{DateTime, date};
use std::alloc::{AllocError, Global};

/// When a certificate is looked at: before, within or after its validity.
#[derive(Clone, Copy)]
pub(crate) enum When {
    Before,
    Within,
    After,
}

/// A certificate by its extensions, and when it is looked at.
#[derive(Clone, Copy)]
pub(crate) struct Row {
    pub(crate) name: &'static str,
    pub(crate) when: When,
    pub(crate) extensions: &'static [ExtField<'static>],
    /// The identifier whose extensions the caller processes, empty for none.
    pub(crate) processes: &'static [u8],
}

/// basicConstraints of an authority with path length 0 (RFC 5280, 4.2.1.9).
const AUTHORITY: ExtField<'static> = ExtField {
    identifier: &[0x55, 0x1d, 0x13],
    critical: true,
    value: &[0x30, 0x06, 0x01, 0x01, 0xff, 0x02, 0x01, 0x00],
};

/// basicConstraints without cA.
const UNCONSTRAINED: ExtField<'static> = ExtField {
    identifier: &[0x55, 0x1d, 0x13],
    critical: false,
    value: &[0x30, 0x00],
};

/// basicConstraints with the default of cA written out, which DER forbids (X.690, 11.5).
const DEFAULT_WRITTEN: ExtField<'static> = ExtField {
    identifier: &[0x55, 0x1d, 0x13],
    critical: false,
    value: &[0x30, 0x03, 0x01, 0x01, 0x00],
};

/// keyUsage with digitalSignature and keyEncipherment (RFC 5280, 4.2.1.3).
const ENCIPHERMENT: ExtField<'static> = ExtField {
    identifier: &[0x55, 0x1d, 0x0f],
    critical: false,
    value: &[0x03, 0x02, 0x05, 0xa0],
};

/// keyUsage with a trailing bit 0, which DER forbids (X.690, 11.2.2).
const BAD_USAGE: ExtField<'static> = ExtField {
    identifier: &[0x55, 0x1d, 0x0f],
    critical: false,
    value: &[0x03, 0x02, 0x04, 0xa0],
};

/// extendedKeyUsage, critical, which is processed by a caller alone.
const UNPROCESSED: ExtField<'static> = ExtField {
    identifier: &[0x55, 0x1d, 0x25],
    critical: true,
    value: &[],
};

const NAME_CONSTRAINTS: ExtField<'static> = ExtField {
    identifier: &[0x55, 0x1d, 0x1e],
    critical: false,
    value: &[],
};

const POLICY_CONSTRAINTS: ExtField<'static> = ExtField {
    identifier: &[0x55, 0x1d, 0x24],
    critical: false,
    value: &[],
};

pub(crate) const ROWS: [Row; 12] = [
    Row {
        name: "end entity",
        when: When::Within,
        extensions: &[],
        processes: &[],
    },
    Row {
        name: "not yet valid",
        when: When::Before,
        extensions: &[],
        processes: &[],
    },
    Row {
        name: "expired, and an extension twice",
        when: When::After,
        extensions: &[UNCONSTRAINED, UNCONSTRAINED],
        processes: &[],
    },
    Row {
        name: "critical and unknown",
        when: When::Within,
        extensions: &[UNCONSTRAINED, UNPROCESSED],
        processes: &[],
    },
    Row {
        name: "critical, and the caller processes it",
        when: When::Within,
        extensions: &[UNCONSTRAINED, UNPROCESSED],
        processes: &[0x55, 0x1d, 0x25],
    },
    Row {
        name: "critical, and the caller processes another",
        when: When::Within,
        extensions: &[UNCONSTRAINED, UNPROCESSED],
        processes: &[0x55, 0x1d, 0x1e],
    },
    Row {
        name: "default written",
        when: When::Within,
        extensions: &[DEFAULT_WRITTEN],
        processes: &[],
    },
    Row {
        name: "trailing bit",
        when: When::Within,
        extensions: &[AUTHORITY, BAD_USAGE],
        processes: &[],
    },
    Row {
        name: "authority",
        when: When::Within,
        extensions: &[AUTHORITY],
        processes: &[],
    },
    Row {
        name: "authority without keyCertSign",
        when: When::Within,
        extensions: &[AUTHORITY, ENCIPHERMENT],
        processes: &[],
    },
    Row {
        name: "authority with name constraints",
        when: When::Within,
        extensions: &[NAME_CONSTRAINTS, AUTHORITY],
        processes: &[],
    },
    Row {
        name: "authority with policy constraints",
        when: When::Within,
        extensions: &[AUTHORITY, POLICY_CONSTRAINTS],
        processes: &[],
    },
];

/// A moment before 2025, within it or after it.
pub(crate) fn moment(when: When) -> DateTime {
    match when {
        When::Before => date(2024, 6, 1).at(0, 0, 0, 0),
        When::Within => date(2025, 6, 1).at(0, 0, 0, 0),
        When::After => date(2027, 6, 1).at(0, 0, 0, 0),
    }
}

/// 1.2.3
const ALGORITHM: AlgField<'static> = AlgField {
    identifier: &[0x2a, 0x03],
    parameters: None,
};

const NO_BITS: BitField<'static> = BitField {
    unused: 0,
    octets: &[],
};

/// A certificate with empty names that is valid through 2025, with these extensions.
pub(crate) fn certificate<'a>(
    alloc: Global,
    extensions: &[ExtField<'a>],
) -> Result<CertFields<'a>, AllocError> {
    let mut own = Vec::new(alloc);
    for extension in extensions {
        own.push(*extension)?;
    }
    Ok(CertFields {
        version: 2,
        serial: &[0x01],
        signature: ALGORITHM,
        issuer: NameFields {
            sets: Vec::new(alloc),
        },
        not_before: date(2025, 1, 1).at(0, 0, 0, 0),
        not_after: date(2026, 1, 1).at(0, 0, 0, 0),
        subject: NameFields {
            sets: Vec::new(alloc),
        },
        key: KeyField {
            algorithm: ALGORITHM,
            key: NO_BITS,
        },
        issuer_id: None,
        subject_id: None,
        extensions: own,
        algorithm: ALGORITHM,
        signature_value: NO_BITS,
    })
}
