//! Laws of tagged values that may be absent: `OptTaggedExplicit`, `OptTaggedImplicit` and those of
//! other classes.

ghost use Rattle.std.specs.Prelude.{◌↔◌, ◌≢◌, ℕ, List, [], None};
ghost use Rattle.asn1_traits.specs.Reads.{NoneReads};
ghost use Rattle.asn1_traits.specs.Elements.{ReadsElement, ReadsBerElement};
ghost use Rattle.asn1_traits.specs.Options.{BeginsWithTag, BeginsWithBerTag};
ghost use Rattle.asn1_tagged.specs.Tagging.{ExplicitMeans, ImplicitMeans};
ghost use Rattle.asn1_tagged.specs.Optional.{OptTaggedReads};

use crate::value::{Explicit, Implicit, TaggedValue};
use asn1_traits::{AnyMeaning, BerMeaning, DerAnyMeaning, DerMeaning, Tagged};

/// From which octets an optional value with an explicit tag is read, by DER's rules: if present,
/// those of the value that isn't optional; it is absent if no octet is left or the header has
/// another tag number, whatever its class. So after a header of the wanted tag number it is never
/// absent: another class and an element that ends early are rejected, and so is a header that can't
/// be read.
pub fn opt_explicit_by_der<T: DerMeaning, E, const CLASS: u8, const TAG: u32>()
    ensures reads { (octets : List ℕ) (v : _) (rest : List ℕ) → ⟦<Option<TaggedValue<T, E, Explicit, CLASS, TAG>> as DerMeaning>⟧.der_reads octets v rest
        ↔ OptTaggedReads BeginsWithTag TAG (ReadsElement (λ e x. ExplicitMeans CLASS TAG T.der_reads e x.inner)) octets v rest }
    ensures wanted { (octets rest : List ℕ) → BeginsWithTag octets TAG → ⟦<Option<TaggedValue<T, E, Explicit, CLASS, TAG>> as DerMeaning>⟧.der_reads octets None rest → ⊥ }
    ensures unread { (octets : List ℕ) → octets ≢ [] → ((n : ℕ) → BeginsWithTag octets n → ⊥) → NoneReads ⟦<Option<TaggedValue<T, E, Explicit, CLASS, TAG>> as DerMeaning>⟧.der_reads octets }
{}

/// From which octets an optional value with an explicit tag is read, by BER's rules: if present,
/// those of the value that isn't optional; it is absent if no octet is left or the header has
/// another tag number, whatever its class.
pub fn opt_explicit_by_ber<T: BerMeaning, E, const CLASS: u8, const TAG: u32>()
    ensures reads { (octets : List ℕ) (v : _) (rest : List ℕ) → ⟦<Option<TaggedValue<T, E, Explicit, CLASS, TAG>> as BerMeaning>⟧.ber_reads octets v rest
        ↔ OptTaggedReads BeginsWithBerTag TAG (ReadsBerElement (λ e x. ExplicitMeans CLASS TAG T.ber_reads e x.inner)) octets v rest }
    ensures wanted { (octets rest : List ℕ) → BeginsWithBerTag octets TAG → ⟦<Option<TaggedValue<T, E, Explicit, CLASS, TAG>> as BerMeaning>⟧.ber_reads octets None rest → ⊥ }
    ensures unread { (octets : List ℕ) → octets ≢ [] → ((n : ℕ) → BeginsWithBerTag octets n → ⊥) → NoneReads ⟦<Option<TaggedValue<T, E, Explicit, CLASS, TAG>> as BerMeaning>⟧.ber_reads octets }
{}

/// From which octets an optional value with an implicit tag is read, by DER's rules: if present,
/// those of the value that isn't optional; it is absent if no octet is left or the header has
/// another tag number, whatever its class.
pub fn opt_implicit_by_der<T: DerAnyMeaning + Tagged, E, const CLASS: u8, const TAG: u32>()
    ensures reads { (octets : List ℕ) (v : _) (rest : List ℕ) → ⟦<Option<TaggedValue<T, E, Implicit, CLASS, TAG>> as DerMeaning>⟧.der_reads octets v rest
        ↔ OptTaggedReads BeginsWithTag TAG (ReadsElement (λ e x. ImplicitMeans CLASS TAG T.own_class_number T.tag_number T.der_means e x.inner)) octets v rest }
    ensures wanted { (octets rest : List ℕ) → BeginsWithTag octets TAG → ⟦<Option<TaggedValue<T, E, Implicit, CLASS, TAG>> as DerMeaning>⟧.der_reads octets None rest → ⊥ }
    ensures unread { (octets : List ℕ) → octets ≢ [] → ((n : ℕ) → BeginsWithTag octets n → ⊥) → NoneReads ⟦<Option<TaggedValue<T, E, Implicit, CLASS, TAG>> as DerMeaning>⟧.der_reads octets }
{}

/// From which octets an optional value with an implicit tag is read, by BER's rules: if present,
/// those of the value that isn't optional; it is absent if no octet is left or the header has
/// another tag number, whatever its class.
pub fn opt_implicit_by_ber<T: AnyMeaning + Tagged, E, const CLASS: u8, const TAG: u32>()
    ensures reads { (octets : List ℕ) (v : _) (rest : List ℕ) → ⟦<Option<TaggedValue<T, E, Implicit, CLASS, TAG>> as BerMeaning>⟧.ber_reads octets v rest
        ↔ OptTaggedReads BeginsWithBerTag TAG (ReadsBerElement (λ e x. ImplicitMeans CLASS TAG T.own_class_number T.tag_number T.means e x.inner)) octets v rest }
    ensures wanted { (octets rest : List ℕ) → BeginsWithBerTag octets TAG → ⟦<Option<TaggedValue<T, E, Implicit, CLASS, TAG>> as BerMeaning>⟧.ber_reads octets None rest → ⊥ }
    ensures unread { (octets : List ℕ) → octets ≢ [] → ((n : ℕ) → BeginsWithBerTag octets n → ⊥) → NoneReads ⟦<Option<TaggedValue<T, E, Implicit, CLASS, TAG>> as BerMeaning>⟧.ber_reads octets }
{}
