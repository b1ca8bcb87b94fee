//! Tag numbers (X.690, 8.1.2).

ghost use Rattle.std.specs.Prelude.{◌≡◌, ◌↔◌, Some, IsOk, IfErr};

use crate::error::Error;

/// A tag number (X.690, 8.1.2), of any class. The constants are the universal ones (X.680, 8.6),
/// named as the types that have them.
#[derive(Clone, Copy, Debug, PartialEq, Eq, PartialOrd, Ord, Hash)]
pub struct Tag(pub u32);

impl Tag {
    /// End-of-contents octets (X.690, 8.1.5).
    pub const EndOfContent: Tag = Tag(0);

    /// BOOLEAN.
    pub const Boolean: Tag = Tag(1);

    /// INTEGER.
    pub const Integer: Tag = Tag(2);

    /// BIT STRING.
    pub const BitString: Tag = Tag(3);

    /// OCTET STRING.
    pub const OctetString: Tag = Tag(4);

    /// NULL.
    pub const Null: Tag = Tag(5);

    /// OBJECT IDENTIFIER.
    pub const Oid: Tag = Tag(6);

    /// ObjectDescriptor.
    pub const ObjectDescriptor: Tag = Tag(7);

    /// EXTERNAL.
    pub const External: Tag = Tag(8);

    /// REAL.
    pub const RealType: Tag = Tag(9);

    /// ENUMERATED.
    pub const Enumerated: Tag = Tag(10);

    /// EMBEDDED PDV.
    pub const EmbeddedPdv: Tag = Tag(11);

    /// UTF8String.
    pub const Utf8String: Tag = Tag(12);

    /// RELATIVE-OID.
    pub const RelativeOid: Tag = Tag(13);

    /// SEQUENCE and SEQUENCE OF.
    pub const Sequence: Tag = Tag(16);

    /// SET and SET OF.
    pub const Set: Tag = Tag(17);

    /// NumericString.
    pub const NumericString: Tag = Tag(18);

    /// PrintableString.
    pub const PrintableString: Tag = Tag(19);

    /// TeletexString, another name of T61String.
    pub const TeletexString: Tag = Tag(20);

    /// T61String, another name of TeletexString.
    pub const T61String: Tag = Tag(20);

    /// VideotexString.
    pub const VideotexString: Tag = Tag(21);

    /// IA5String.
    pub const Ia5String: Tag = Tag(22);

    /// UTCTime.
    pub const UtcTime: Tag = Tag(23);

    /// GeneralizedTime.
    pub const GeneralizedTime: Tag = Tag(24);

    /// GraphicString.
    pub const GraphicString: Tag = Tag(25);

    /// VisibleString.
    pub const VisibleString: Tag = Tag(26);

    /// GeneralString.
    pub const GeneralString: Tag = Tag(27);

    /// UniversalString.
    pub const UniversalString: Tag = Tag(28);

    /// BMPString.
    pub const BmpString: Tag = Tag(30);

    /// Returns `Ok(())` if the tag number is `tag`, else `UnexpectedTag` with both numbers.
    pub fn assert_eq(&self, tag: Tag) -> Result<(), Error>
        ensures ok { IsOk result ↔ (self.now ≡ tag) }
        ensures err { IfErr result (λ e. e ≡ Error.UnexpectedTag (Some tag) self.now) }
    {
        if self.0 == tag.0 {
            Ok(())
        } else {
            Err(Error::UnexpectedTag {
                expected: Some(tag),
                actual: *self,
            })
        }
    }

    /// Returns `InvalidValue` for this tag number; `msg` says in English what is wrong with the
    /// value.
    pub fn invalid_value(&self, msg: &'static str) -> Error
        ensures { result ≡ Error.InvalidValue self.now msg.entry }
    {
        Error::InvalidValue { tag: *self, msg }
    }
}

impl From<u32> for Tag {
    ghost from_gives = { λ n tag. tag.0 ≡ n };

    fn from(number: u32) -> Tag {
        Tag(number)
    }
}
