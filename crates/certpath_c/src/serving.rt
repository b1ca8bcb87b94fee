//! Whether an item is for a purpose, and whether it serves a host.

ghost use Rattle.std.specs.Prelude.{◌≡◌};
ghost use Rattle.certpath_c.specs.Serving.{reason_number, Marks, AllowsAnswer, ServesAnswer};

use crate::status::{BAD_HOST, DONE, NOT_CERTIFICATE, OUT_OF_MEMORY};
use cert_serving::{Answer, item_allows, item_serves};
use host_names::{Host, Refusal};
use std::alloc::Global;

/// The number of a reason why a text is no host.
fn reason_number(refusal: Refusal) -> u32
    ensures { result ≡ reason_number refusal }
{
    match refusal {
        Refusal::Empty => 0,
        Refusal::Url => 1,
        Refusal::EmailAddress => 2,
        Refusal::Wildcard => 3,
        Refusal::Zone => 4,
        Refusal::Port => 5,
        Refusal::NoAddress => 6,
        Refusal::NotAscii => 7,
        Refusal::Character => 8,
        Refusal::LongName => 9,
        Refusal::EmptyLabel => 10,
        Refusal::LongLabel => 11,
        Refusal::Hyphen => 12,
        Refusal::Number => 13,
    }
}

/// Whether an answer is on a certificate; then 1 or 0 is written.
fn mark(answer: Answer, says_yes: &mut u32) -> bool
    ensures { Marks answer says_yes.old says_yes.new result }
{
    match answer {
        Answer::NotCertificate => false,
        Answer::No => {
            *says_yes = 0;
            true
        }
        Answer::Yes => {
            *says_yes = 1;
            true
        }
    }
}

/// `certpath_allows` of the header.
#[unsafe(no_mangle)]
pub extern "C" fn certpath_allows(
    alloc: Global,
    item: &[u8],
    purpose: &[u8],
    says_yes: &mut u32,
) -> i32
    ensures { AllowsAnswer item.now purpose.now says_yes.old says_yes.new result }
{
    let Ok(answer) = item_allows(alloc, item, purpose) else {
        return OUT_OF_MEMORY;
    };
    if mark(answer, says_yes) {
        DONE
    } else {
        NOT_CERTIFICATE
    }
}

/// `certpath_serves` of the header.
#[unsafe(no_mangle)]
pub extern "C" fn certpath_serves(
    alloc: Global,
    item: &[u8],
    host: &[u8],
    says_yes: &mut u32,
) -> i32
    ensures { ServesAnswer item.now host.now says_yes.old says_yes.new result }
{
    match Host::parse(host) {
        Ok(asked) => {
            let Ok(answer) = item_serves(alloc, item, &asked) else {
                return OUT_OF_MEMORY;
            };
            if mark(answer, says_yes) {
                DONE
            } else {
                NOT_CERTIFICATE
            }
        }
        Err(refusal) => {
            *says_yes = reason_number(refusal);
            BAD_HOST
        }
    }
}
