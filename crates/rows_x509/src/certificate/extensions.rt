//! What the values of extensions were parsed as.

use crate::words::Words;
use rows_hex::{Added, add_hex};
use x509_ext::ParsedExtension;
use x509_ext::types::CRLDistributionPoints;

impl Words for ParsedExtension<'_> {
    /// The value's case and its fields; of one that its type refuses the case alone, since which error is told isn't promised.
    fn add_words(&self, text: &mut String) -> Added {
        if self.unsupported() {
            return text.push_str("unsupported");
        }
        if self.error().is_some() {
            return text.push_str("ParseError");
        }
        match self {
            ParsedExtension::KeyUsage(usage) => write!(text, "KeyUsage {}, {usage}", usage.flags),
            ParsedExtension::NSCertType(kinds) => write!(text, "NSCertType {kinds}"),
            ParsedExtension::ReasonCode(reason) => write!(text, "ReasonCode {}", reason.0),
            ParsedExtension::CRLNumber(number) => {
                text.push_str("CRLNumber ")?;
                add_hex(text, number.as_bytes())
            }
            ParsedExtension::InvalidityDate(date) => {
                text.push_str("InvalidityDate ")?;
                date.add_words(text)
            }
            ParsedExtension::CRLDistributionPoints(points) => add_points(text, points),
            parsed => write!(text, "{parsed:?}"),
        }
    }
}

/// Adds the points, and the text of each one's reasons.
fn add_points(text: &mut String, points: &CRLDistributionPoints<'_>) -> Added {
    write!(text, "CRLDistributionPoints({points:?})")?;
    for point in points.points.iter() {
        if let Some(reasons) = &point.reasons {
            write!(text, ", {reasons}")?;
        }
    }
    Ok(())
}
