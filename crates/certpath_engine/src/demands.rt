//! What the words demand of paths, beside their being valid.
ghost use Rattle.std.specs.Prelude.{◌≡◌, IfOk, IfErr, string_bytes};
ghost use Rattle.purpose_names.specs.Showing.{IsShown};
ghost use Rattle.certpath_engine.specs.Asking.{WritesHost, RefusesHost, WritesPurposeOf, RefusesPurposeOf};

use crate::words::WordFault;
use asn1_oid::Oid;
use certpath_inputs::{AskedHost, AskedPurpose};
use host_names::Host;
use purpose_names::{PurposeRefusal, push_purpose, read_purpose};
use std::alloc::Global;

/// A purpose that is asked for.
#[derive(Drop)]
pub struct Purpose {
    /// Its identifier.
    pub identifier: Oid<'static>,
    /// Its name in RFC 5280, or its numbers.
    pub shown: String,
}

impl Purpose {
    /// As a run is asked for it.
    pub fn asked(&self) -> AskedPurpose<'_>
        ensures identifier { result.identifier.now ≡ self.now.identifier }
        ensures shown { result.shown.now ≡ string_bytes self.now.shown }
    {
        AskedPurpose {
            identifier: self.identifier.as_bytes(),
            shown: self.shown.as_str(),
        }
    }
}

/// The host that a word asks for, if there is one.
pub(crate) fn host_of<'a>(word: Option<&'a str>) -> Result<Option<AskedHost<'a>>, WordFault>
    ensures ok { IfOk result (WritesHost word.entry) }
    ensures refused { IfErr result (RefusesHost word.entry) }
{
    let Some(shown) = word else {
        return Ok(None);
    };
    match Host::parse(shown.as_bytes()) {
        Ok(host) => Ok(Some(AskedHost { host, shown })),
        Err(reason) => Err(WordFault::Host(reason)),
    }
}

/// A purpose with its text.
fn shown(alloc: Global, identifier: Oid<'static>) -> Result<Purpose, WordFault>
    ensures ok { IfOk result (λ p. (p.identifier ≡ identifier.entry) × IsShown p.identifier (string_bytes p.shown)) }
    ensures only { IfErr result (λ e. e ≡ WordFault.OutOfMemory) }
{
    let mut shown = String::new(alloc);
    match push_purpose(alloc, &mut shown, identifier.as_bytes()) {
        Ok(()) => Ok(Purpose { identifier, shown }),
        Err(_) => Err(WordFault::OutOfMemory),
    }
}

/// The purpose that a word asks for, if there is one.
pub(crate) fn purpose_of(alloc: Global, word: Option<&str>) -> Result<Option<Purpose>, WordFault>
    ensures ok { IfOk result (WritesPurposeOf word.entry) }
    ensures refused { IfErr result (RefusesPurposeOf word.entry) }
{
    let Some(text) = word else {
        return Ok(None);
    };
    let identifier = match read_purpose(alloc, text) {
        Ok(identifier) => identifier,
        Err(PurposeRefusal::OutOfMemory) => return Err(WordFault::OutOfMemory),
        Err(reason) => return Err(WordFault::Purpose(reason)),
    };
    match shown(alloc, identifier) {
        Ok(purpose) => Ok(Some(purpose)),
        Err(fault) => Err(fault),
    }
}
