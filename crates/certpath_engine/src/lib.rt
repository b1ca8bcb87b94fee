//! The engine of the program `certpath`: its words, what its commands do, and the statuses that
//! they end with.
//!
//! It runs over any reader and writer; the program itself only opens files and prints.
#![tactic(auto)]

mod bundle_exit;
mod bundle_texts;
mod commands;
mod demands;
mod exit;
mod items_exit;
mod moment;
mod number;
mod path_exit;
mod questions_texts;
mod recheck_exit;
mod refusals;
mod texts;
mod words;

pub use asn1_device::{ReadSource, WriteSink};
pub use bundle_exit::{BundleOutcome, bundle_status};
pub use cert_framing::End;
pub use certpath_bundle::{BundleError, File, bundle, read_file};
pub use certpath_inputs::{InputError, MAX_READS, READ_SIZE, write_text};
pub use certpath_recheck::{RecheckError, run_recheck_for};
pub use certpath_run::{
    AllSettings, AskedPurpose, EvidenceReport, Findings, Input, ItemInput, ItemsError, Outcome,
    PathReport, PathsReport, Reported, Reports, RunError, Settings, WhyReport, frame, frame_why,
    read_report, run, run_questions, run_report,
};
pub use demands::Purpose;
pub use exit::{Exit, Message, words_status};
pub use items_exit::{FrameOutcome, ItemFiles, QuestionsOutcome, frame_status, questions_status};
pub use number::read_number;
pub use path_exit::{PathFiles, PathOutcome, PathsOutcome, path_status, paths_status};
pub use recheck_exit::{RecheckFiles, RecheckOutcome, recheck_status};
pub use words::{Command, Question, WordFault, asked_of, read_words};
