//! The commands of the program over any reader and writer: each reads its inputs to their ends,
//! builds a text, and writes it at once; [`frame`] writes its text in pieces.
//!
//! `path`, `why` and `paths` read bundle, anchors and vouchers. They are one function,
//! [`run_report`], over what is reported: a type that implements [`Reports`]. Items are judged by
//! `certpath_find`, the answer is found over what was judged, and `certcheck` checks it over the
//! items themselves. [`run_questions`], [`frame`] and [`frame_why`] are over items alone.
#![tactic(auto)]

mod answering;
mod asking;
mod explaining;
mod finding;
mod frame_pieces;
mod frame_text;
mod framing;
mod items;
mod judging;
pub mod laws;
pub mod laws_of_reports;
mod remembering;
mod report;
mod report_all;
mod reporting;
mod reporting_all;
mod reports;
mod running;
mod settings;

pub use crate::asking::run_questions;
pub use crate::explaining::frame_why;
pub use crate::framing::frame;
pub use crate::items::{ItemInput, ItemsError};
pub use crate::reports::{
    EvidenceReport, Findings, PathReport, PathsReport, Reported, Reports, WhyReport,
};
pub use crate::running::{read_report, run, run_report};
pub use crate::settings::{AllOutcome, Outcome, Settings};
pub use certpath_find::{find, find_all};
pub use certpath_inputs::{AllSettings, AskedHost, AskedPurpose, Demand, Input, RunError};
