//! What a report is asked for beside a path's being valid, and how it names that.

ghost use Rattle.std.specs.Prelude.{◌≡◌, IfSome, IfNone, IfOk, MatchResult, IsUtf8, string_bytes};
ghost use Rattle.purpose_names.specs.Showing.{IsShown};
ghost use Rattle.certpath_c.specs.Demands.{IsAskedPurpose, IsAskedHost};
ghost use Rattle.certpath_c.specs.Wanted.{IsNoHost};

use crate::wanted::{NoHost, host_in};
use asn1_core::OutOfMemory;
use certpath_run::{AskedHost, AskedPurpose};
use purpose_names::push_purpose;
use std::alloc::Global;

/// The text that a report has for a purpose.
pub(crate) fn shown_purpose(alloc: Global, identifier: &[u8]) -> Result<String, OutOfMemory>
    ensures { IfOk result (λ shown. IsShown identifier.now (string_bytes shown)) }
{
    let mut shown = String::new(alloc);
    push_purpose(alloc, &mut shown, identifier)?;
    Ok(shown)
}

/// The purpose of an identifier, by its text; none if it has no octets.
pub(crate) fn asked_purpose<'a>(identifier: &'a [u8], shown: &'a str) -> Option<AskedPurpose<'a>>
    requires { IsShown identifier.now shown.now }
    ensures { IsAskedPurpose identifier.now result }
{
    match identifier {
        [] => None,
        _ => Some(AskedPurpose { identifier, shown }),
    }
}

/// The text of octets; none if they are no UTF-8.
fn text_of(octets: &[u8]) -> Option<&str>
    ensures found { IfSome result (λ text. text.now ≡ octets.now) }
    ensures none { IfNone result (¬ IsUtf8 octets.now) }
{
    match str::from_utf8(octets) {
        Ok(text) => Some(text),
        Err(_) => None,
    }
}

/// The host that a text asks for, by this text; `Err` if it is no host. An empty text asks for
/// none.
pub(crate) fn asked_host(text: &[u8]) -> Result<Option<AskedHost<'_>>, NoHost>
    ensures { MatchResult result (IsAskedHost text.now) (λ _. IsNoHost text.now) }
{
    match host_in(text) {
        Ok(Some(host)) => match text_of(text) {
            Some(shown) => Ok(Some(AskedHost { host, shown })),
            // (never, since the text of a host is ASCII)
            None => Err(NoHost),
        },
        Ok(None) => Ok(None),
        Err(refused) => Err(refused),
    }
}
