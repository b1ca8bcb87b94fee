//! Laws and examples. Each is a function that does nothing: its contract is the law.

ghost use Rattle.std.specs.Prelude.{◌≡◌, codes};
ghost use Rattle.purpose_names.specs.Names.{identifier_of, IsWordOf};
ghost use Rattle.purpose_names.specs.Reading.{IsAny};
ghost use Rattle.purpose_names.specs.declared.naming.NamedPurpose as names;
ghost use Rattle.purpose_names.specs.declared.naming.NamedPurpose.TheVariants.{ServerAuth, TimeStamping};

/// Of words: letters have no case, and the purpose of any is no named one.
pub fn examples_of_words()
    ensures own { IsWordOf (codes "serverAuth") ServerAuth }
    ensures case { IsWordOf (codes "SERVERauth") ServerAuth }
    ensures openssl { IsWordOf (codes "timestampsign") TimeStamping }
    ensures any { (p : names.NamedPurpose) → ¬ IsWordOf (codes "anyExtendedKeyUsage") p }
    ensures is_any { IsAny (codes "ANYextendedKeyUsage") }
{}

/// Two purposes have two identifiers, and no word is for two.
pub fn one_purpose()
    ensures identifiers { (p q : names.NamedPurpose) → identifier_of p ≡ identifier_of q → p ≡ q }
{}
