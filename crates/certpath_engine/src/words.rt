//! What the words of the command line ask for.
ghost use Rattle.std.specs.Prelude.{map, string_bytes, IfOk, IfErr};
ghost use Rattle.certpath_engine.specs.Asking.{ReadsFrame, ReadsBundle, ReadsPath, ReadsWhy, ReadsQuestions, ReadsPaths, ReadsRecheck, AsksQuestion, AsksDemand, AsksPurpose, WritesTarget, RefusesDemands, RefusesQuestion, NamesFiles, WritesSettings, RefusesSettings, AnswersWords};

use crate::bundle_texts::BundleTexts;
use crate::demands::{Purpose, host_of, purpose_of};
use crate::items_exit::ItemFiles;
use crate::moment::read_moment;
use crate::number::read_number;
use crate::path_exit::PathFiles;
use crate::questions_texts::QuestionsTexts;
use crate::recheck_exit::RecheckFiles;
use crate::texts::{AllTexts, Asked, FrameTexts, PathTexts, PathsTexts, RecheckTexts, read_texts};
use cert_judge::Policy;
use certpath_run::{AllSettings, AskedHost, AskedPurpose, Demand, Settings};
use host_names::Refusal;
use purpose_names::PurposeRefusal;
use std::alloc::Global;

/// What the words ask for.
#[derive(Drop)]
pub enum Command<'a> {
    /// Print where the items of a file lie.
    Frame {
        /// The file's name.
        file: &'a str,
        /// The most content octets that an item has.
        limit: u32,
        /// Whether to print why items are other.
        why: bool,
    },
    /// Join the certificates and revocation lists of files.
    Bundle {
        /// The files' names.
        files: Vec<&'a str>,
    },
    /// Find a path.
    Path(Question<'a>),
    /// Print what prevents a path.
    Why(Question<'a>),
    /// Find the paths of all items.
    Paths {
        /// The files' names.
        files: PathFiles<'a>,
        /// The name of the file for the evidence.
        evidence: Option<&'a str>,
        /// The moment, whether lists are demanded, and the most content octets that an item has.
        settings: AllSettings,
        /// The purpose that is demanded.
        purpose: Option<Purpose>,
    },
    /// Check evidence.
    Recheck {
        /// The files' names.
        files: RecheckFiles<'a>,
        /// The moment, whether lists are demanded, and the most content octets that an item has.
        settings: AllSettings,
        /// The purpose that is demanded.
        purpose: Option<Purpose>,
    },
    /// Ask which keys may have signed which items.
    Questions {
        /// The files' names.
        files: ItemFiles<'a>,
        /// The most content octets that an item has.
        limit: u32,
    },
}

/// What is asked about one target.
#[derive(Drop)]
pub struct Question<'a> {
    /// The files' names.
    pub files: PathFiles<'a>,
    /// The target, the moment, whether lists are demanded, and the most content octets that an item
    /// has.
    pub settings: Settings,
    /// The host that is demanded.
    pub host: Option<AskedHost<'a>>,
    /// The purpose that is demanded.
    pub purpose: Option<Purpose>,
}

impl<'a> Question<'a> {
    /// What is demanded of the path.
    pub fn demand(&self) -> Demand<'_>
        ensures { AsksDemand self.now result }
    {
        Demand {
            purpose: asked_of(&self.purpose),
            host: self.host,
        }
    }
}

/// A purpose as a run is asked for it, if there is one.
pub fn asked_of(purpose: &Option<Purpose>) -> Option<AskedPurpose<'_>>
    ensures { AsksPurpose purpose.now result }
{
    match purpose {
        Some(purpose) => Some(purpose.asked()),
        None => None,
    }
}

/// Why the words ask for nothing.
#[derive(Debug, Drop)]
pub enum WordFault {
    /// They are refused, or ask for help. The text is for the user, and ends in LF.
    Refused(String),
    /// A number is not of its form, or too large.
    Number,
    /// A moment is not of its form, or no date and time.
    Moment,
    /// A text is no host.
    Host(Refusal),
    /// A text is no purpose that can be asked for.
    Purpose(PurposeRefusal),
    /// Memory was refused.
    OutOfMemory,
}

/// Reads the words of the command line, the program's name first. Linear in their octets.
///
/// # Errors
///
/// `Refused` if `clap` does not take them, with its text. `Number` if an N is not one or more
/// decimal digits, or above 4,294,967,295. `Moment` if the moment is not of its form, or no date
/// and time. `Host` and `Purpose` if a text is none, with the reason. `OutOfMemory`. Of several
/// bad words the first in this order is named.
#[tactic(auto, using(crate::proofs::WordLemmas::path_answers, crate::proofs::WordLemmas::why_answers))]
pub fn read_words<'a>(alloc: Global, words: &'a [String]) -> Result<Command<'a>, WordFault>
    ensures { AnswersWords (map string_bytes words.entry.now) result }
{
    match read_texts(alloc, words) {
        Ok(Asked::Frame(texts)) => frame_of(texts),
        Ok(Asked::Bundle(texts)) => bundle_of(texts),
        Ok(Asked::Path(texts)) => path_of(alloc, texts),
        Ok(Asked::Why(texts)) => why_of(alloc, texts),
        Ok(Asked::Questions(texts)) => questions_of(texts),
        Ok(Asked::Paths(texts)) => paths_of(alloc, texts),
        Ok(Asked::Recheck(texts)) => recheck_of(alloc, texts),
        Err(fault) => Err(fault),
    }
}

/// The command `frame` of these words.
fn frame_of<'a>(texts: FrameTexts<'a>) -> Result<Command<'a>, WordFault>
    ensures { ReadsFrame texts.entry result }
{
    let Some(limit) = read_number(texts.limit) else {
        return Err(WordFault::Number);
    };
    Ok(Command::Frame {
        file: texts.file,
        limit,
        why: texts.why == "true",
    })
}

/// The command `bundle` of these words.
fn bundle_of<'a>(texts: BundleTexts<'a>) -> Result<Command<'a>, WordFault>
    ensures { ReadsBundle texts.entry result }
{
    Ok(Command::Bundle { files: texts.files })
}

/// The command `path` of these words.
fn path_of<'a>(alloc: Global, texts: PathTexts<'a>) -> Result<Command<'a>, WordFault>
    ensures { ReadsPath texts.entry result }
{
    match asked_question(alloc, texts) {
        Ok(question) => Ok(Command::Path(question)),
        Err(fault) => Err(fault),
    }
}

/// The command `why` of these words.
fn why_of<'a>(alloc: Global, texts: PathTexts<'a>) -> Result<Command<'a>, WordFault>
    ensures { ReadsWhy texts.entry result }
{
    match asked_question(alloc, texts) {
        Ok(question) => Ok(Command::Why(question)),
        Err(fault) => Err(fault),
    }
}

/// The command `questions` of these words.
fn questions_of<'a>(texts: QuestionsTexts<'a>) -> Result<Command<'a>, WordFault>
    ensures { ReadsQuestions texts.entry result }
{
    let Some(limit) = read_number(texts.limit) else {
        return Err(WordFault::Number);
    };
    let files = ItemFiles {
        bundle: texts.bundle,
        anchors: texts.anchors,
    };
    Ok(Command::Questions { files, limit })
}

/// The command `paths` of these words.
fn paths_of<'a>(alloc: Global, texts: PathsTexts<'a>) -> Result<Command<'a>, WordFault>
    ensures { ReadsPaths texts.entry result }
{
    let settings = match settings_of(texts.all) {
        Ok(settings) => settings,
        Err(fault) => return Err(fault),
    };
    match purpose_of(alloc, texts.all.purpose) {
        Ok(purpose) => Ok(Command::Paths {
            files: files_of(texts.all),
            evidence: texts.evidence,
            settings,
            purpose,
        }),
        Err(fault) => Err(fault),
    }
}

/// The command `recheck` of these words.
fn recheck_of<'a>(alloc: Global, texts: RecheckTexts<'a>) -> Result<Command<'a>, WordFault>
    ensures { ReadsRecheck texts.entry result }
{
    let settings = match settings_of(texts.all) {
        Ok(settings) => settings,
        Err(fault) => return Err(fault),
    };
    match purpose_of(alloc, texts.all.purpose) {
        Ok(purpose) => Ok(Command::Recheck {
            files: RecheckFiles {
                searched: files_of(texts.all),
                evidence: texts.evidence,
            },
            settings,
            purpose,
        }),
        Err(fault) => Err(fault),
    }
}

/// The question of these words, with what is demanded.
fn asked_question<'a>(alloc: Global, texts: PathTexts<'a>) -> Result<Question<'a>, WordFault>
    ensures ok { IfOk result (AsksQuestion texts.entry) }
    ensures refused { IfErr result (RefusesDemands texts.entry) }
{
    let settings = match question_settings(texts) {
        Ok(settings) => settings,
        Err(fault) => return Err(fault),
    };
    let host = match host_of(texts.host) {
        Ok(host) => host,
        Err(fault) => return Err(fault),
    };
    match purpose_of(alloc, texts.all.purpose) {
        Ok(purpose) => Ok(Question {
            files: files_of(texts.all),
            settings,
            host,
            purpose,
        }),
        Err(fault) => Err(fault),
    }
}

/// The settings of the question of these words.
#[tactic(auto, using(crate::proofs::WordLemmas::settings_fault))]
fn question_settings(texts: PathTexts<'_>) -> Result<Settings, WordFault>
    ensures ok { IfOk result (WritesTarget texts.entry) }
    ensures refused { IfErr result (RefusesQuestion texts.entry) }
{
    let Some(target) = read_number(texts.target) else {
        return Err(WordFault::Number);
    };
    let settings = match settings_of(texts.all) {
        Ok(settings) => settings,
        Err(fault) => return Err(fault),
    };
    Ok(Settings {
        target: target as usize,
        policy: settings.policy,
        limit: settings.limit,
    })
}

/// The names of the files.
fn files_of<'a>(texts: AllTexts<'a>) -> PathFiles<'a>
    ensures { NamesFiles texts.entry result }
{
    PathFiles {
        bundle: texts.bundle,
        anchors: texts.anchors,
        vouchers: texts.vouchers,
    }
}

/// How all items are judged.
fn settings_of(texts: AllTexts<'_>) -> Result<AllSettings, WordFault>
    ensures ok { IfOk result (WritesSettings texts.entry) }
    ensures refused { IfErr result (RefusesSettings texts.entry) }
{
    let Some(limit) = read_number(texts.limit) else {
        return Err(WordFault::Number);
    };
    let Some(moment) = read_moment(texts.moment) else {
        return Err(WordFault::Moment);
    };
    let policy = Policy::new(moment, texts.demand == "true");
    Ok(AllSettings { policy, limit })
}
