//! Key usages made of a number.

use rows_hex::Added;
use x509_ext_flags::KeyUsage;

/// Adds each usage whose bit stands in the number.
pub(crate) fn add_key_usage(text: &mut String, word: &str) -> Added {
    match word.parse::<u16>() {
        Ok(flags) => add_usages(text, KeyUsage { flags }),
        Err(_) => text.push_str("no number"),
    }
}

/// Adds each usage that stands, behind a blank.
fn add_usages(text: &mut String, usage: KeyUsage) -> Added {
    text.push_str("usages")?;
    for (name, stands) in [
        (" digital_signature", usage.digital_signature()),
        (" non_repudiation", usage.non_repudiation()),
        (" key_encipherment", usage.key_encipherment()),
        (" data_encipherment", usage.data_encipherment()),
        (" key_agreement", usage.key_agreement()),
        (" key_cert_sign", usage.key_cert_sign()),
        (" crl_sign", usage.crl_sign()),
        (" encipher_only", usage.encipher_only()),
        (" decipher_only", usage.decipher_only()),
    ] {
        if stands {
            text.push_str(name)?;
        }
    }
    Ok(())
}
