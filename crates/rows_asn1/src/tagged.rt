//! Values under tags.

use crate::words::{Call, add_words};
use asn1_rs::{
    ApplicationExplicit, ApplicationImplicit, Error, Explicit, Implicit, OptTaggedExplicit,
    OptTaggedImplicit, PrivateExplicit, PrivateImplicit, TaggedExplicit, TaggedImplicit,
    TaggedValue,
};
use rows_hex::Added;

/// A type of values under a tag, or under two.
#[derive(Clone, Copy)]
pub(crate) enum Tagged {
    TaggedExplicit,
    TaggedImplicit,
    TaggedVec,
    OptExplicit,
    OptImplicit,
    ApplicationExplicit,
    ApplicationImplicit,
    PrivateExplicit,
    PrivateImplicit,
    UniversalValue,
    ExplicitValue,
    ImplicitValue,
    BehindBehind,
    BehindInPlace,
    InPlaceBehind,
    InPlaceInPlace,
    ApplicationInPlace,
}

/// Adds what the octets are at the type.
pub(crate) fn add_tagged(text: &mut String, call: Call, tagged: Tagged, octets: &[u8]) -> Added {
    match tagged {
        Tagged::TaggedExplicit => add_words::<TaggedExplicit<u8, Error, 0>>(text, call, octets),
        Tagged::TaggedImplicit => add_words::<TaggedImplicit<u8, Error, 0>>(text, call, octets),
        Tagged::TaggedVec => add_words::<TaggedImplicit<Vec<u8>, Error, 1>>(text, call, octets),
        Tagged::OptExplicit => add_words::<OptTaggedExplicit<u8, Error, 0>>(text, call, octets),
        Tagged::OptImplicit => add_words::<OptTaggedImplicit<u8, Error, 0>>(text, call, octets),
        _ => add_of_class(text, call, tagged, octets),
    }
}

/// The same of tags that aren't context-specific.
fn add_of_class(text: &mut String, call: Call, tagged: Tagged, octets: &[u8]) -> Added {
    match tagged {
        Tagged::ApplicationExplicit => add_words::<ApplicationExplicit<bool, Error, 30>>(
            text, call, octets,
        ),
        Tagged::ApplicationImplicit => add_words::<ApplicationImplicit<bool, Error, 31>>(
            text, call, octets,
        ),
        Tagged::PrivateExplicit => add_words::<PrivateExplicit<bool, Error, 31>>(
            text, call, octets,
        ),
        Tagged::PrivateImplicit => add_words::<PrivateImplicit<bool, Error, 4_294_967_295>>(
            text, call, octets,
        ),
        Tagged::UniversalValue => add_words::<TaggedValue<bool, Error, Explicit, 0, 5>>(
            text, call, octets,
        ),
        Tagged::ExplicitValue => add_words::<TaggedValue<u8, Error, Explicit, 4, 0>>(
            text, call, octets,
        ),
        Tagged::ImplicitValue => add_words::<TaggedValue<u8, Error, Implicit, 4, 0>>(
            text, call, octets,
        ),
        _ => add_within(text, call, tagged, octets),
    }
}

/// The same of tags within tags.
fn add_within(text: &mut String, call: Call, tagged: Tagged, octets: &[u8]) -> Added {
    type Behind<T, const TAG: u32> = TaggedExplicit<T, Error, TAG>;
    type InPlace<T, const TAG: u32> = TaggedImplicit<T, Error, TAG>;
    match tagged {
        Tagged::BehindBehind => add_words::<Behind<Behind<u8, 1>, 0>>(text, call, octets),
        Tagged::BehindInPlace => add_words::<Behind<InPlace<u8, 1>, 0>>(text, call, octets),
        Tagged::InPlaceBehind => add_words::<InPlace<Behind<u8, 1>, 0>>(text, call, octets),
        Tagged::InPlaceInPlace => add_words::<InPlace<InPlace<u8, 1>, 0>>(text, call, octets),
        _ => add_words::<ApplicationImplicit<InPlace<u8, 1>, Error, 0>>(text, call, octets),
    }
}
