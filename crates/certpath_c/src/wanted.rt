//! What is demanded of the certificates of a path, beside its being valid.

ghost use Rattle.std.specs.Prelude.{◌≡◌, option_copied, slice_index_or, [], IfSome, IfNone, MatchResult};
ghost use Rattle.cert_serving.specs.View.{demands_view};
ghost use Rattle.certpath_c.specs.Wanted.{given, IsHostIn, IsNoHost, IsWantedBy, demanded};

use crate::asked::Settings;
use cert_framing::Items;
use cert_judge::Policy;
use cert_serving::Demands;
use host_names::Host;

/// A purpose and a host, if they are demanded.
#[derive(Clone, Copy, Debug)]
pub(crate) struct Wanted<'a> {
    purpose: Option<&'a [u8]>,
    host: Option<Host<'a>>,
}

/// How a path is judged, and what is demanded beside that.
#[derive(Drop)]
pub(crate) struct Judged<'a> {
    pub(crate) policy: Policy,
    pub(crate) wanted: Wanted<'a>,
}

/// Octets, if there are any.
fn given(octets: &[u8]) -> Option<&[u8]>
    ensures { option_copied result ≡ given octets.now }
{
    match octets {
        [] => None,
        _ => Some(octets),
    }
}

/// The host that a text asks for; `Err` if it is no host. An empty text asks for none.
pub(crate) fn host_in(text: &[u8]) -> Result<Option<Host<'_>>, NoHost>
    ensures { MatchResult result (IsHostIn text.now) (λ _. IsNoHost text.now) }
{
    if text.is_empty() {
        return Ok(None);
    }
    match Host::parse(text) {
        Ok(host) => Ok(Some(host)),
        Err(_) => Err(NoHost),
    }
}

/// A text is no host.
#[derive(Clone, Copy, Debug)]
pub(crate) struct NoHost;

/// What settings demand; none if their host is no host.
pub(crate) fn wanted_of<'a>(settings: &Settings<'a>) -> Option<Wanted<'a>>
    ensures found { IfSome result (IsWantedBy settings.now) }
    ensures none { IfNone result (IsNoHost settings.now.host.now) }
{
    match host_in(settings.host) {
        Ok(host) => Some(Wanted {
            purpose: given(settings.purpose),
            host,
        }),
        Err(_) => None,
    }
}

/// The octets of the item at a position; none if there is no such item.
fn octets_at(items: &Items, position: usize) -> &[u8]
    ensures { result.now ≡ slice_index_or items.now.items position [] }
{
    if position < items.len() {
        items.get(position)
    } else {
        &[]
    }
}

/// What is demanded of items, of which the target has this position.
pub(crate) fn demands_of<'a>(items: &'a Items, target: usize, wanted: &Wanted<'a>) -> Demands<'a>
    ensures { demands_view result ≡ demanded wanted.now (slice_index_or items.now.items target []) }
{
    Demands {
        purpose: wanted.purpose,
        host: wanted.host,
        target: octets_at(items, target),
    }
}
