//! Signatures that were verified by other means, as a `Vouch`.

ghost use Rattle.std.specs.Prelude.{◌↔◌, IsTrue};
ghost use Rattle.example_path.specs.Vouching.{AreVouched, IsVouched};

use cert_judge::Vouch;

/// A verified signature: the octets of the signer's SubjectPublicKeyInfo, and of the signed item.
#[derive(Drop)]
pub struct Signature {
    pub key: Vec<u8>,
    pub item: Vec<u8>,
}

/// All signatures that were verified.
#[derive(Drop)]
pub struct Verified {
    pub signatures: Vec<Signature>,
}

/// A key vouches for an item if one of the signatures is of both. No extension is processed.
impl Vouch for Verified {
    ghost use Rattle.cert_judge.specs.Vouching.{vouching_alone};
    ghost use Rattle.example_path.specs.Vouching.{AreVouched};

    ghost vouches_for = { λ v. vouching_alone (λ key item. AreVouched key item v.signatures.items) };

    fn vouches(&self, key: &[u8], item: &[u8]) -> bool {
        are_vouched(&self.signatures, key, item)
    }

    fn processes(&self, _item: &[u8], _identifier: &[u8]) -> bool {
        false
    }
}

fn is_vouched(signature: &Signature, key: &[u8], item: &[u8]) -> bool
    ensures { IsTrue result ↔ IsVouched key.now item.now signature.now }
{
    signature.key.as_slice() == key && signature.item.as_slice() == item
}

fn are_vouched(signatures: &[Signature], key: &[u8], item: &[u8]) -> bool
    ensures { IsTrue result ↔ AreVouched key.now item.now signatures.now }
{
    for signature in signatures {
        if is_vouched(signature, key, item) {
            return true;
        }
    }
    false
}
