//! Laws of iterators and of sets. Each is a function that does nothing: its contract is the law.

ghost use Rattle.asn1_lists.specs.Steps.{GivesToEnd, EndsForGood, GivesValues};
ghost use Rattle.asn1_lists.specs.Ordered.{EqualSets, ReorderedSets, IsInOrder, OneOrder};

use asn1_core::Error;
use asn1_traits::{BerMeaning, DerMeaning, ToDer};

/// What a `SequenceIterator` by DER's rules gives from its first call to its end: `Ok` items and
/// then nothing, or `Ok` items and one `Err`; and then nothing for good. Octets that are values to
/// their end give `Ok` items alone, unless memory runs out.
pub fn calls_to_the_end<E: From<Error>, T: DerMeaning>()
    ensures given { GivesToEnd E.from_gives T.der_grows T.der_reads }
    ensures ends { EndsForGood E.from_gives T.der_grows T.der_reads }
    ensures values { GivesValues E.from_gives T.der_grows T.der_reads }
{}

/// What a `SequenceIterator` by BER's rules gives from its first call to its end: `Ok` items and
/// then nothing, or `Ok` items and one `Err`; and then nothing for good.
pub fn ber_calls_to_the_end<E: From<Error>, T: BerMeaning>()
    ensures given { GivesToEnd E.from_gives T.ber_grows T.ber_reads }
    ensures ends { EndsForGood E.from_gives T.ber_grows T.ber_reads }
    ensures values { GivesValues E.from_gives T.ber_grows T.ber_reads }
{}

/// Equal sets are written as equal octets (X.690, 11.6): two `SetOf` have one element if their
/// values are equal in any order, or are only written as equal octets.
pub fn equal_sets<T: ToDer>()
    ensures encodings { EqualSets T.element }
    ensures values { ReorderedSets T.element }
{}

/// The order in which a `SetOf` is written: its encodings ascend; only one list of these does.
pub fn ascending_order<T: ToDer>()
    ensures ordered { IsInOrder T.element }
    ensures one { OneOrder }
{}
