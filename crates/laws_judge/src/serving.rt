//! Premises of the laws of permits (`cert_serving`).

ghost use Rattle.std.specs.Prelude.{◌≡◌, [], ◌∷◌};
ghost use Rattle.cert_graph.specs.Entries.{IsAt};
ghost use Rattle.cert_judge.specs.Classed.{AreClassed};
ghost use Rattle.cert_serving.specs.Demanding.{PermitsOf, ProcessesFor};
ghost use Rattle.cert_serving.specs.Refusing.{are_permitted, are_processed};
ghost use Rattle.laws_items.specs.Classes.{null_item, null_octets};
ghost use Rattle.laws_judge.specs.Serving.{allowing, servers};

/// A purpose is demanded of a NULL, which is no certificate, so it is permitted.
pub fn example_of_permits()
    ensures { PermitsOf servers (null_octets ∷ []) (are_permitted allowing.now) × ProcessesFor servers (are_processed allowing.now)
        × AreClassed (null_octets ∷ []) (null_item ∷ []) × IsAt (null_item ∷ []) 0 (λ x. x.octets ≡ servers.target) }
{}
