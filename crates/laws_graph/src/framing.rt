//! Premises of the laws of framing (`cert_framing`).

ghost use Rattle.std.specs.Prelude.{◌≡◌, false, [], ◌∷◌, ◌++◌};
ghost use Rattle.std.specs.List.{concat};
ghost use Rattle.cert_framing.specs.Framing.{IsFraming, IsItem};
ghost use Rattle.cert_framing.specs.Held.{StandsFor, TakesPieces};
ghost use Rattle.laws_graph.specs.Worked.{cut_end, empty_item, fed, stream, unfed};

/// The empty SEQUENCE, `30 00`, and then `30`, which is cut, under a limit of 10 octets.
pub fn example_of_one_framing()
    ensures { IsFraming 10 stream (empty_item ∷ []) cut_end }
{}

/// The empty SEQUENCE, and an octet after it.
pub fn example_of_one_item()
    ensures { IsItem 10 empty_item × (empty_item ++ (0x30 ∷ []) ≡ empty_item ++ (0x30 ∷ [])) }
{}

/// A bundle that was fed nothing and one that was fed the stream, in one piece.
pub fn example_of_one_bundle()
    ensures held { (fed.limit ≡ fed.limit) × (fed.has_fault ≡ false) × StandsFor fed stream }
    ensures pieces { (unfed.limit ≡ unfed.limit) × StandsFor unfed [] × TakesPieces unfed (stream ∷ []) fed
        × (concat (stream ∷ []) ≡ concat (stream ∷ [])) }
{}
