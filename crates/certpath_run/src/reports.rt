//! What a run can report, and by which relation its text is right.
//!
//! [`Reports`] is the one thing in which the commands `path`, `why` and `paths` differ: what is
//! reported of the inputs once they are read. [`crate::run_report`] is the rest of them.

ghost use Rattle.std.specs.Prelude.{◌≡◌, ℕ, List, IfOk, string_bytes};
ghost use Rattle.cert_framing.specs.Held.{Framed};
ghost use Rattle.cert_vouchers.specs.declared.vouchers.Vouchers.{Vouchers};

use crate::finding::findings_on;
use crate::reporting::{report_on, why_on};
use crate::reporting_all::{ReportedAll, report_on_all};
use crate::settings::{AllOutcome, Outcome, Settings};
use asn1_core::OutOfMemory;
use certpath_inputs::{AllSettings, AskedPurpose, Demand, Inputs};
use std::alloc::Global;

/// A report, and what it says in one value.
#[derive(Drop)]
pub struct Reported<T> {
    /// The lines of the report, each with LF at its end.
    pub text: String,
    /// What they say, as `Outcome` or `AllOutcome`.
    pub outcome: T,
}

/// What is reported of inputs that were read: the settings of a run, and what is done by them.
pub trait Reports {
    /// What the report says in one value.
    type Outcome: Drop;

    /// Which text is right for an outcome, the items, the anchors and the vouchers. A fixed
    /// relation of the value.
    ghost is_right: { Self → Self.Outcome → Framed → Framed → Vouchers → List ℕ → Type 0 };

    /// The most content octets that an item has.
    ghost limit_of: { Self → ℕ };

    /// Returns the most content octets that an item has, in bundle and anchors.
    fn limit(&self) -> u32
        ensures { result ≡ limit_of self.now };

    /// Builds the report on these inputs.
    ///
    /// # Errors
    ///
    /// Out of memory alone.
    fn report(&self, alloc: Global, inputs: &Inputs) -> Result<Reported<Self::Outcome>, OutOfMemory>
        ensures { IfOk result (λ r. is_right self.now r.outcome inputs.now.items inputs.now.anchors inputs.now.vouchers (string_bytes r.text)) };
}

/// Reports the answer on a target, and what the check says of it: the command `path`.
#[derive(Clone, Copy)]
pub struct PathReport<'a> {
    /// The target, and how items are judged.
    pub settings: &'a Settings,
    /// What is demanded of the path, beside its being valid.
    pub demand: Demand<'a>,
}

impl Reports for PathReport<'_> {
    ghost use Rattle.certpath_run.specs.Runs.{IsReportFor};

    type Outcome = Outcome;

    ghost is_right = { λ asked outcome items anchors pairs text. IsReportFor asked.settings.now asked.demand outcome items anchors pairs text };

    ghost limit_of = { λ asked. asked.settings.now.limit };

    fn limit(&self) -> u32 {
        self.settings.limit
    }

    fn report(&self, alloc: Global, inputs: &Inputs) -> Result<Reported<Outcome>, OutOfMemory> {
        report_on(alloc, inputs, self.settings, &self.demand)
    }
}

/// Reports the answer on a target, and what prevents a path: the command `why`.
#[derive(Clone, Copy)]
pub struct WhyReport<'a> {
    /// The target, and how items are judged.
    pub settings: &'a Settings,
    /// What is demanded of the path, beside its being valid.
    pub demand: Demand<'a>,
}

impl Reports for WhyReport<'_> {
    ghost use Rattle.certpath_run.specs.Runs.{IsWhyReportFor};

    type Outcome = Outcome;

    ghost is_right = { λ asked outcome items anchors pairs text. IsWhyReportFor asked.settings.now asked.demand outcome items anchors pairs text };

    ghost limit_of = { λ asked. asked.settings.now.limit };

    fn limit(&self) -> u32 {
        self.settings.limit
    }

    fn report(&self, alloc: Global, inputs: &Inputs) -> Result<Reported<Outcome>, OutOfMemory> {
        why_on(alloc, inputs, self.settings, &self.demand)
    }
}

/// Reports the paths of all items, and what the check says of them: the command `paths`.
#[derive(Clone, Copy)]
pub struct PathsReport<'a> {
    /// How items are judged.
    pub settings: &'a AllSettings,
    /// The purpose that each certificate of a path has to allow (RFC 5280, 4.2.1.12).
    pub purpose: Option<AskedPurpose<'a>>,
}

impl Reports for PathsReport<'_> {
    ghost use Rattle.certpath_run.specs.AllReport.{IsAllReportFor};
    ghost use Rattle.certpath_inputs.specs.Demands.{of_purpose};

    type Outcome = AllOutcome;

    ghost is_right = { λ asked outcome items anchors pairs text. IsAllReportFor asked.settings.now (of_purpose asked.purpose) outcome items anchors pairs text };

    ghost limit_of = { λ asked. asked.settings.now.limit };

    fn limit(&self) -> u32 {
        self.settings.limit
    }

    fn report(&self, alloc: Global, inputs: &Inputs) -> Result<Reported<AllOutcome>, OutOfMemory> {
        let demand = Demand::for_purpose(self.purpose);
        let ReportedAll {
            text,
            outcome,
            inventory: _,
        } = report_on_all(alloc, inputs, self.settings, &demand)?;
        Ok(Reported { text, outcome })
    }
}

/// What was found of all items, beside the report.
#[derive(Drop)]
pub struct Findings {
    /// The text of the inventory that the report is of, for `certpath_recheck::run_recheck`.
    pub evidence: String,
    /// Whether each certificate has a path.
    pub outcome: AllOutcome,
}

/// Reports the paths of all items as [`PathsReport`] does, and keeps what shows them: the command
/// `paths --evidence`. The two texts have about as many octets as the paths have digits, twice.
#[derive(Clone, Copy)]
pub struct EvidenceReport<'a> {
    /// How items are judged.
    pub settings: &'a AllSettings,
    /// The purpose that each certificate of a path has to allow; the evidence then holds it.
    pub purpose: Option<AskedPurpose<'a>>,
}

impl Reports for EvidenceReport<'_> {
    ghost use Rattle.std.specs.Prelude.{string_bytes};
    ghost use Rattle.certpath_run.specs.AllReport.{AreFindingsFor};
    ghost use Rattle.certpath_inputs.specs.Demands.{of_purpose};

    type Outcome = Findings;

    ghost is_right = { λ asked found items anchors pairs text. AreFindingsFor asked.settings.now (of_purpose asked.purpose) found.outcome (string_bytes found.evidence) items anchors pairs text };

    ghost limit_of = { λ asked. asked.settings.now.limit };

    fn limit(&self) -> u32 {
        self.settings.limit
    }

    fn report(&self, alloc: Global, inputs: &Inputs) -> Result<Reported<Findings>, OutOfMemory> {
        let demand = Demand::for_purpose(self.purpose);
        findings_on(alloc, inputs, self.settings, &demand)
    }
}
