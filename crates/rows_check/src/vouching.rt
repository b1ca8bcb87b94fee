use cert_judge::Vouch;

/// A key and an item that it vouches for.
#[derive(Drop)]
pub struct VouchedPair {
    pub key: Vec<u8>,
    pub item: Vec<u8>,
}

/// The pairs that a case names.
#[derive(Drop)]
pub struct VouchedPairs {
    pub pairs: Vec<VouchedPair>,
}

impl Vouch for VouchedPairs {
    ghost use Rattle.cert_judge.specs.Vouching.{vouching_alone};
    ghost use Rattle.rows_check.specs.Vouching.{AreVouched};

    ghost vouches_for = { λ v. vouching_alone (λ key item. AreVouched key item v.pairs.items) };

    fn vouches(&self, key: &[u8], item: &[u8]) -> bool {
        are_vouched(&self.pairs, key, item)
    }

    fn processes(&self, _item: &[u8], _identifier: &[u8]) -> bool {
        false
    }
}

ghost use Rattle.std.specs.Prelude.{◌↔◌, IsTrue};
ghost use Rattle.rows_check.specs.Vouching.{AreVouched, IsVouched};

fn is_vouched(pair: &VouchedPair, key: &[u8], item: &[u8]) -> bool
    ensures { IsTrue result ↔ IsVouched key.now item.now pair.now }
{
    pair.key.as_slice() == key && pair.item.as_slice() == item
}

fn are_vouched(pairs: &[VouchedPair], key: &[u8], item: &[u8]) -> bool
    ensures { IsTrue result ↔ AreVouched key.now item.now pairs.now }
{
    for pair in pairs {
        if is_vouched(pair, key, item) {
            return true;
        }
    }
    false
}
