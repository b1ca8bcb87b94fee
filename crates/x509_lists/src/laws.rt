//! Laws of the reader of revocation lists. Each is a function without an effect; its contract is
//! the law.

ghost use Rattle.std.specs.Prelude.{◌≡◌, ◌⊎◌, ℕ, Bool, List, [], None};
ghost use Rattle.x509_ext.specs.Fields.{meaning_of};
ghost use Rattle.x509_lists.specs.Fields.{TbsList};
ghost use Rattle.x509_lists.specs.Lists.{TbsParts, BeginsWithWrapper};

/// No entries are hidden: if entries count as absent, nothing follows the updates, or a wrapper of
/// extensions does. So what has entries that can't be read is no list.
pub fn no_hidden_entries()
    ensures { (deep : Bool) (octets : List ℕ) (t : TbsList) (rest : List ℕ) (is : TbsParts (meaning_of deep) octets t rest) → is.written ≡ None
        → (is.after_next_update ≡ []) ⊎ BeginsWithWrapper is.after_next_update }
{}
