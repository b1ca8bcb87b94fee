//! Records of calls.

use asn1_oid::Oid;
use rows_hex::Added;
use std::alloc::Global;
use std::fmt::Display;
use x509_ext::{UniqueIdentifier, X509Version};
use x509_names::X509Name;
use x509_time::{ASN1Time, Validity};

/// How many calls there were.
#[derive(Clone, Copy)]
pub(crate) struct Count {
    calls: usize,
}

impl Count {
    /// No call.
    pub(crate) fn new() -> Count {
        Count { calls: 0 }
    }

    /// A call more.
    pub(crate) fn add(&mut self) {
        self.calls = self.calls.saturating_add(1);
    }
}

/// The calls so far, as text.
#[derive(Drop)]
pub(crate) struct Record {
    text: String,
    count: Count,
    failed: bool,
}

impl Record {
    /// No call.
    pub(crate) fn new(alloc: Global) -> Record {
        Record {
            text: String::new(alloc),
            count: Count::new(),
            failed: false,
        }
    }

    /// A call.
    pub(crate) fn call(&mut self, name: &str) {
        self.count.add();
        let added = add_name(&mut self.text, name);
        self.note(added);
    }

    /// A call, and the identifier that it tells.
    pub(crate) fn call_with_oid(&mut self, name: &str, oid: &Oid<'_>) {
        self.call_with(name, oid);
    }

    /// A call, and the name that it tells.
    pub(crate) fn call_with_name(&mut self, name: &str, told: &X509Name<'_>) {
        self.call_with(name, told);
    }

    /// A call, and how many things it tells.
    pub(crate) fn call_with_count(&mut self, name: &str, count: usize) {
        self.call_with(name, &count);
    }

    /// A call, and the version that it tells.
    pub(crate) fn call_with_version(&mut self, name: &str, version: &X509Version) {
        self.call_with(name, &version.0);
    }

    /// A call, and the time that it tells, in seconds since 1970.
    pub(crate) fn call_at(&mut self, name: &str, time: &ASN1Time) {
        self.call_with(name, &time.timestamp());
    }

    /// A call, and something of what it tells.
    pub(crate) fn call_with<T: Display>(&mut self, name: &str, what: &T) {
        self.count.add();
        let added = add_with(&mut self.text, name, what);
        self.note(added);
    }

    /// A call, and the octets that it tells.
    pub(crate) fn call_with_octets(&mut self, name: &str, octets: &[u8]) {
        self.count.add();
        let added = add_with_octets(&mut self.text, name, octets);
        self.note(added);
    }

    /// A call, and the octets of the bits that it tells, if it tells some.
    pub(crate) fn call_with_id(&mut self, name: &str, id: Option<&UniqueIdentifier<'_>>) {
        match id {
            Some(id) => self.call_with_octets(name, id.0.content),
            None => self.call_with(name, &"absent"),
        }
    }

    /// A call, and when what it tells begins and ends, in seconds since 1970.
    pub(crate) fn call_with_validity(&mut self, name: &str, validity: &Validity) {
        self.call_at(name, &validity.not_before);
        let added = add_with(&mut self.text, "to", &validity.not_after.timestamp());
        self.note(added);
    }

    fn note(&mut self, added: Added) {
        if added.is_err() {
            self.failed = true;
        }
    }
}

fn add_name(text: &mut String, name: &str) -> Added {
    if !text.is_empty() {
        text.push_str("; ")?;
    }
    text.push_str(name)
}

fn add_with<T: Display>(text: &mut String, name: &str, what: &T) -> Added {
    add_name(text, name)?;
    write!(text, " {what}")
}

fn add_with_octets(text: &mut String, name: &str, octets: &[u8]) -> Added {
    add_name(text, name)?;
    text.push(' ')?;
    for octet in octets {
        write!(text, "{octet:02x}")?;
    }
    Ok(())
}

/// Adds the calls of the methods, where both walks made the same and `walk_visits` as many; where not, what it was that differs.
pub(crate) fn add_record(
    text: &mut String,
    methods: &Record,
    other: &Record,
    visits: Count,
) -> Added {
    if methods.failed || other.failed {
        return text.push_str("out of memory");
    }
    text.push_str(&methods.text)?;
    if other.text.as_str() != methods.text.as_str() {
        write!(text, ", by the other walk {}", other.text)?;
    }
    if visits.calls != methods.count.calls {
        write!(text, ", {} calls by walk_visits", visits.calls)?;
    }
    Ok(())
}
