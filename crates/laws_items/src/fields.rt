//! Premises of the laws of strict fields (`x509_certs`, `x509_links`, `certpath_c`).

ghost use Rattle.std.specs.Prelude.{◌<◌, ◌^◌, length};
ghost use Rattle.std.specs.Int.Digits.{AllBelowBase};
ghost use Rattle.cert_framing.specs.Framing.{IsItem};
ghost use Rattle.cert_model.specs.Examples.{constrained, revoking};
ghost use Rattle.cert_model.specs.Octets.{certificate_octets, list_octets};
ghost use Rattle.cert_model.specs.Range.{AreCertificateFields, AreListFields};

/// A certificate with an extension: its fields are in range, and its octets few.
pub fn example_of_a_certificate()
    ensures { AreCertificateFields constrained × AllBelowBase 256 (certificate_octets constrained)
        × (length (certificate_octets constrained) < 2 ^ 64) }
{}

/// A list with one entry: its fields are in range, and its octets few.
pub fn example_of_a_list()
    ensures { AreListFields revoking × AllBelowBase 256 (list_octets revoking) × (length (list_octets revoking) < 2 ^ 64)
        × IsItem 4_294_967_295 (list_octets revoking) }
{}

/// The wrapper of the certificate's extensions has 13 octets.
pub fn example_of_a_wrapper()
    ensures { 13 < 128 }
{}
