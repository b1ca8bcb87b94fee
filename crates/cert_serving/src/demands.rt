//! What is demanded of the certificates of a path.

ghost use Rattle.std.specs.Prelude.{◌≡◌, ◌↔◌, List, map, IsTrue};
ghost use Rattle.cert_model.specs.Fields.{Extension};
ghost use Rattle.cert_model.specs.View.{ext_view};
ghost use Rattle.cert_serving.specs.Demanding.{AllowsIt, ServesIt, Meets};
ghost use Rattle.cert_serving.specs.View.{demands_view};

use crate::serving::serves;
use cert_model::fields::ExtField;
use cert_purpose::allows;
use host_names::Host;

/// What is demanded of the certificates of a path, apart from its being valid. If neither a purpose
/// nor a host is given, every item is permitted.
#[derive(Clone, Copy, Debug)]
pub struct Demands<'a> {
    /// A purpose that each certificate of the path has to allow (RFC 5280, 4.2.1.12): the content
    /// octets of its identifier.
    pub purpose: Option<&'a [u8]>,
    /// A host that the target has to serve.
    pub host: Option<Host<'a>>,
    /// The octets of the target. A certificate with equal octets is asked for the host as well.
    pub target: &'a [u8],
}

/// Whether a purpose, if one is demanded, is allowed.
fn allows_it(demands: &Demands<'_>, extensions: &[ExtField<'_>]) -> bool
    ensures { IsTrue result ↔ AllowsIt (demands_view demands.now) (map ext_view extensions.now) }
{
    match demands.purpose {
        None => true,
        Some(purpose) => allows(extensions, purpose),
    }
}

/// Whether a host, if one is demanded, is served.
fn serves_it(demands: &Demands<'_>, extensions: &[ExtField<'_>]) -> bool
    ensures { IsTrue result ↔ ServesIt (demands_view demands.now) (map ext_view extensions.now) }
{
    match &demands.host {
        None => true,
        Some(host) => serves(extensions, host),
    }
}

/// Whether octets are those of the target.
fn is_target(demands: &Demands<'_>, octets: &[u8]) -> bool
    ensures { IsTrue result ↔ (octets.now ≡ (demands_view demands.now).target) }
{
    octets == demands.target
}

/// Whether a certificate meets the demands, by its octets and its extensions.
pub(crate) fn meets(demands: &Demands<'_>, octets: &[u8], extensions: &[ExtField<'_>]) -> bool
    ensures { IsTrue result ↔ Meets (demands_view demands.now) octets.now (map ext_view extensions.now) }
{
    if !allows_it(demands, extensions) {
        return false;
    }
    if !is_target(demands, octets) {
        return true;
    }
    serves_it(demands, extensions)
}

/// Whether nothing is demanded of a certificate with these octets.
pub(crate) fn is_met_by_any(demands: &Demands<'_>, octets: &[u8]) -> bool
    ensures { IsTrue result → (es : List Extension) → Meets (demands_view demands.now) octets.now es }
{
    match demands.purpose {
        Some(_) => false,
        None => match demands.host {
            Some(_) => !is_target(demands, octets),
            None => true,
        },
    }
}
