//! The labels of PEM blocks that are known, by number.

ghost use Rattle.std.specs.Prelude.{◌≡◌, ◌<◌, bytes_eq, [], ◌∷◌};
ghost use Rattle.certpath_c.specs.Labels.{number_among, item_number, signed_number, key_number, old_key_number, request_number, parameter_number, first_number, label_number};

fn is_equal(label: &[u8], name: &[u8]) -> bool
    ensures { result ≡ bytes_eq label.now name.now }
{
    label == name
}

/// The number of a label among four, of which the first has this number; 0 if it is none of them.
fn number_among(label: &[u8], first: u32, one: &[u8], two: &[u8], three: &[u8], four: &[u8]) -> u32
    requires { first < 100 }
    ensures { result ≡ number_among label.now first (one.now ∷ two.now ∷ three.now ∷ four.now ∷ []) }
{
    if is_equal(label, one) {
        first
    } else if is_equal(label, two) {
        first + 1
    } else if is_equal(label, three) {
        first + 2
    } else if is_equal(label, four) {
        first + 3
    } else {
        0
    }
}

fn item_number(label: &[u8]) -> u32
    ensures { result ≡ item_number label.now }
{
    number_among(
        label,
        1,
        b"CERTIFICATE",
        b"X509 CRL",
        b"X509 CERTIFICATE",
        b"X.509 CERTIFICATE",
    )
}

fn signed_number(label: &[u8]) -> u32
    ensures { result ≡ signed_number label.now }
{
    number_among(
        label,
        5,
        b"TRUSTED CERTIFICATE",
        b"PKCS7",
        b"CMS",
        b"PKCS #7 SIGNED DATA",
    )
}

fn key_number(label: &[u8]) -> u32
    ensures { result ≡ key_number label.now }
{
    number_among(
        label,
        9,
        b"PRIVATE KEY",
        b"ENCRYPTED PRIVATE KEY",
        b"PUBLIC KEY",
        b"OPENSSH PRIVATE KEY",
    )
}

fn old_key_number(label: &[u8]) -> u32
    ensures { result ≡ old_key_number label.now }
{
    number_among(
        label,
        13,
        b"RSA PRIVATE KEY",
        b"EC PRIVATE KEY",
        b"DSA PRIVATE KEY",
        b"RSA PUBLIC KEY",
    )
}

fn request_number(label: &[u8]) -> u32
    ensures { result ≡ request_number label.now }
{
    number_among(
        label,
        17,
        b"CERTIFICATE REQUEST",
        b"NEW CERTIFICATE REQUEST",
        b"ATTRIBUTE CERTIFICATE",
        b"X509 ATTRIBUTE CERTIFICATE",
    )
}

fn parameter_number(label: &[u8]) -> u32
    ensures { result ≡ parameter_number label.now }
{
    number_among(
        label,
        21,
        b"EC PARAMETERS",
        b"DSA PARAMETERS",
        b"DH PARAMETERS",
        b"X9.42 DH PARAMETERS",
    )
}

/// The first number, unless it is 0, and the second one then.
fn either(first: u32, second: u32) -> u32
    ensures { result ≡ first_number first second }
{
    if first == 0 { second } else { first }
}

/// The number of a label; 0 if it isn't a known one.
pub(crate) fn label_number(label: &[u8]) -> u32
    ensures { result ≡ label_number label.now }
{
    let of_item = either(item_number(label), signed_number(label));
    let of_key = either(key_number(label), old_key_number(label));
    let of_other = either(request_number(label), parameter_number(label));
    either(of_item, either(of_key, of_other))
}
