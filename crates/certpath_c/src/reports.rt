//! The reports of the commands, as text.

ghost use Rattle.std.specs.Prelude.{◌≡◌, ℕ, IfOk, IsErrOf, string_bytes};
ghost use Rattle.cert_vouchers.specs.Answers.{HasFirstBad};
ghost use Rattle.certpath_c.specs.Reports.{run_settings, HasReport, PutsReport, PathAnswer, WhyAnswer, PathsAnswer};

use crate::asked::{Settings, policy_of};
use crate::demands::{asked_host, asked_purpose, shown_purpose};
use crate::status::{BAD_HOST, BAD_LINE, BAD_MOMENT, DONE, OUT_OF_MEMORY, TOO_SMALL};
use crate::writing::put;
use asn1_device::ReadSource;
use cert_judge::Policy;
use certpath_run::{
    AllSettings, Demand, PathReport, PathsReport, Reported, Reports, RunError,
    Settings as RunSettings, WhyReport, read_report,
};
use std::alloc::Global;

/// How long a report is, or which line of the vouchers is refused.
#[repr(C)]
#[derive(Clone, Copy, Debug)]
pub struct Report {
    pub length: usize,
    pub bad_line: usize,
}

/// What the program is asked by these settings.
fn asked_of(settings: &Settings<'_>, policy: Policy) -> RunSettings
    ensures { result ≡ run_settings settings.now policy }
{
    RunSettings {
        target: settings.target,
        policy,
        limit: settings.limit,
    }
}

/// The text of the report that is asked for.
fn report_text<T: Reports>(
    alloc: Global,
    bundle: &[u8],
    anchors: &[u8],
    vouchers: &[u8],
    asked: &T,
) -> Result<String, RunError>
    ensures ok { IfOk result (λ text. HasReport (λ items anchor_items pairs octets. (outcome : T.Outcome) × T.is_right asked.now outcome items anchor_items pairs octets) bundle.now anchors.now vouchers.now (T.limit_of asked.now) (string_bytes text)) }
    ensures bad_line { (n : ℕ) → IsErrOf result (RunError.BadLine n) → HasFirstBad vouchers.now n }
{
    let Reported { text, outcome: _ } = read_report(
        alloc,
        &mut ReadSource::new(bundle),
        &mut ReadSource::new(anchors),
        &mut ReadSource::new(vouchers),
        asked,
    )?;
    Ok(text)
}

/// Writes a report into the caller's buffer, or says why there is none.
fn put_report(found: Result<String, RunError>, text: &mut [u8], report: &mut Report) -> i32
    ensures { PutsReport found text.old text.new report.old report.new result }
{
    match found {
        Ok(said) => {
            let octets = said.as_bytes();
            report.length = octets.len();
            if put(text, octets) { DONE } else { TOO_SMALL }
        }
        Err(RunError::BadLine(number)) => {
            report.bad_line = number;
            BAD_LINE
        }
        Err(_) => OUT_OF_MEMORY,
    }
}

/// `certpath_path` of the header.
#[unsafe(no_mangle)]
pub extern "C" fn certpath_path(
    alloc: Global,
    bundle: &[u8],
    anchors: &[u8],
    vouchers: &[u8],
    settings: &Settings<'_>,
    text: &mut [u8],
    report: &mut Report,
) -> i32
    ensures { PathAnswer bundle.now anchors.now vouchers.now settings.now text.old text.new report.old report.new result }
{
    let Some(policy) = policy_of(settings) else {
        return BAD_MOMENT;
    };
    let Ok(host) = asked_host(settings.host) else {
        return BAD_HOST;
    };
    let Ok(shown) = shown_purpose(alloc, settings.purpose) else {
        return OUT_OF_MEMORY;
    };
    let demand = Demand {
        purpose: asked_purpose(settings.purpose, shown.as_str()),
        host,
    };
    let judged = asked_of(settings, policy);
    let asked = PathReport {
        settings: &judged,
        demand,
    };
    let found = report_text(alloc, bundle, anchors, vouchers, &asked);
    put_report(found, text, report)
}

/// `certpath_why` of the header.
#[unsafe(no_mangle)]
pub extern "C" fn certpath_why(
    alloc: Global,
    bundle: &[u8],
    anchors: &[u8],
    vouchers: &[u8],
    settings: &Settings<'_>,
    text: &mut [u8],
    report: &mut Report,
) -> i32
    ensures { WhyAnswer bundle.now anchors.now vouchers.now settings.now text.old text.new report.old report.new result }
{
    let Some(policy) = policy_of(settings) else {
        return BAD_MOMENT;
    };
    let Ok(host) = asked_host(settings.host) else {
        return BAD_HOST;
    };
    let Ok(shown) = shown_purpose(alloc, settings.purpose) else {
        return OUT_OF_MEMORY;
    };
    let demand = Demand {
        purpose: asked_purpose(settings.purpose, shown.as_str()),
        host,
    };
    let judged = asked_of(settings, policy);
    let asked = WhyReport {
        settings: &judged,
        demand,
    };
    let found = report_text(alloc, bundle, anchors, vouchers, &asked);
    put_report(found, text, report)
}

/// `certpath_paths` of the header.
#[unsafe(no_mangle)]
pub extern "C" fn certpath_paths(
    alloc: Global,
    bundle: &[u8],
    anchors: &[u8],
    vouchers: &[u8],
    settings: &Settings<'_>,
    text: &mut [u8],
    report: &mut Report,
) -> i32
    ensures { PathsAnswer bundle.now anchors.now vouchers.now settings.now text.old text.new report.old report.new result }
{
    let Some(policy) = policy_of(settings) else {
        return BAD_MOMENT;
    };
    let Ok(shown) = shown_purpose(alloc, settings.purpose) else {
        return OUT_OF_MEMORY;
    };
    let purpose = asked_purpose(settings.purpose, shown.as_str());
    let judged = AllSettings {
        policy,
        limit: settings.limit,
    };
    let asked = PathsReport {
        settings: &judged,
        purpose,
    };
    let found = report_text(alloc, bundle, anchors, vouchers, &asked);
    put_report(found, text, report)
}
