//! Premises of the laws of purposes (`purpose_names`).

ghost use Rattle.std.specs.Prelude.{◌≡◌};
ghost use Rattle.purpose_names.specs.Names.{identifier_of};
ghost use Rattle.purpose_names.specs.declared.naming.NamedPurpose.TheVariants.{ServerAuth};

/// The purpose of servers.
pub fn example_of_one_purpose()
    ensures { identifier_of ServerAuth ≡ identifier_of ServerAuth }
{}
