//! Why a text is no host, in words.
ghost use Rattle.std.specs.Prelude.{◌≡◌};
ghost use Rattle.certpath_engine.specs.Refusals.{host_reason};

use host_names::Refusal;

/// The reason, in words.
pub(crate) fn host_reason(refusal: Refusal) -> &'static str
    ensures { result.now ≡ host_reason refusal }
{
    match refusal {
        Refusal::Empty => "it is empty",
        Refusal::Url => "it is a URL or has a path",
        Refusal::EmailAddress => "it is an e-mail address",
        Refusal::Wildcard => "it has a wildcard",
        Refusal::Zone => "it has a zone",
        Refusal::Port => "it has a port",
        Refusal::NoAddress => "it is no IPv6 address",
        Refusal::NotAscii => "it has a character outside ASCII; such a label is written xn--..",
        Refusal::Character => "it has a character that no name has",
        Refusal::LongName => "it has more than 253 octets",
        Refusal::EmptyLabel => "it has an empty label",
        Refusal::LongLabel => "it has a label of more than 63 octets",
        Refusal::Hyphen => "it has a label with a hyphen at an end",
        Refusal::Number => "its last label is a number, and it is no IPv4 address",
    }
}
