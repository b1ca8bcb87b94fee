//! The words after a command, as they were written.
ghost use Rattle.std.specs.Prelude.{map, string_bytes, codes, IfOk, IfErr};
ghost use Rattle.clap.specs.Matches.{found_of};
ghost use Rattle.clap.specs.Words.{kind_of, rows_of};
ghost use Rattle.certpath_engine.specs.Asking.{TellsTexts, TellsQuestion, TellsAll, frame_arguments, path_arguments, all_arguments, recheck_arguments, AnswersTexts, IsRefusal};

use crate::bundle_texts::{BundleTexts, bundle_texts};
use crate::commands::program;
use crate::questions_texts::{QuestionsTexts, questions_texts};
use crate::words::WordFault;
use clap::ArgMatches;
use clap::error::ErrorKind;
use std::alloc::Global;

/// The words after a command.
pub(crate) enum Asked<'a> {
    Frame(FrameTexts<'a>),
    Bundle(BundleTexts<'a>),
    Path(PathTexts<'a>),
    Why(PathTexts<'a>),
    Questions(QuestionsTexts<'a>),
    Paths(PathsTexts<'a>),
    Recheck(RecheckTexts<'a>),
}

/// The words after `frame`.
#[derive(Clone, Copy)]
pub(crate) struct FrameTexts<'a> {
    pub(crate) file: &'a str,
    pub(crate) limit: &'a str,
    pub(crate) why: &'a str,
}

/// The words after `path`, and after `why`.
#[derive(Clone, Copy)]
pub(crate) struct PathTexts<'a> {
    pub(crate) target: &'a str,
    pub(crate) host: Option<&'a str>,
    pub(crate) all: AllTexts<'a>,
}

/// The words after `paths`.
#[derive(Clone, Copy)]
pub(crate) struct PathsTexts<'a> {
    pub(crate) all: AllTexts<'a>,
    pub(crate) evidence: Option<&'a str>,
}

/// The words after `recheck`.
#[derive(Clone, Copy)]
pub(crate) struct RecheckTexts<'a> {
    pub(crate) all: AllTexts<'a>,
    pub(crate) evidence: &'a str,
}

/// The files, and how all items are judged.
#[derive(Clone, Copy)]
pub(crate) struct AllTexts<'a> {
    pub(crate) bundle: &'a str,
    pub(crate) anchors: &'a str,
    pub(crate) vouchers: &'a str,
    pub(crate) moment: &'a str,
    pub(crate) demand: &'a str,
    pub(crate) limit: &'a str,
    pub(crate) purpose: Option<&'a str>,
}

/// The command, and its words as they were written.
pub(crate) fn read_texts<'a>(alloc: Global, words: &'a [String]) -> Result<Asked<'a>, WordFault>
    ensures { AnswersTexts (map string_bytes words.entry.now) result }
{
    let Ok(command) = program(alloc) else {
        return Err(WordFault::OutOfMemory);
    };
    let matches = match command.try_get_matches_from(words) {
        Ok(matches) => matches,
        Err(error) => return Err(refusal(alloc, &error)),
    };
    match matches.subcommand() {
        Some(("frame", found)) => frame_texts(found),
        Some(("bundle", found)) => bundle_texts(alloc, found),
        Some(("path", found)) => path_texts(found),
        Some(("why", found)) => why_texts(found),
        Some(("questions", found)) => questions_texts(found),
        Some(("paths", found)) => paths_texts(found),
        Some(("recheck", found)) => recheck_texts(found),
        _ => Err(WordFault::OutOfMemory),
    }
}

/// What `clap` says of words that it refuses.
fn refusal(alloc: Global, error: &clap::Error) -> WordFault
    ensures { IsRefusal (kind_of error.now) result }
{
    if error.kind() == ErrorKind::OutOfMemory {
        return WordFault::OutOfMemory;
    }
    match format!(in alloc; "{error}") {
        Ok(text) => WordFault::Refused(text),
        Err(_) => WordFault::OutOfMemory,
    }
}

/// The words after `frame`.
fn frame_texts<'a>(found: &ArgMatches<'a>) -> Result<Asked<'a>, WordFault>
    ensures { TellsTexts (codes "frame") frame_arguments (rows_of (found_of found.now)) result }
{
    let Some(file) = found.get_str("FILE") else {
        return Err(WordFault::OutOfMemory);
    };
    let Some(limit) = found.get_str("limit") else {
        return Err(WordFault::OutOfMemory);
    };
    let Some(why) = found.get_str("why") else {
        return Err(WordFault::OutOfMemory);
    };
    Ok(Asked::Frame(FrameTexts { file, limit, why }))
}

/// The words after `path`.
#[tactic(auto, using(crate::proofs::WordLemmas::question_fault))]
fn path_texts<'a>(found: &ArgMatches<'a>) -> Result<Asked<'a>, WordFault>
    ensures { TellsTexts (codes "path") path_arguments (rows_of (found_of found.now)) result }
{
    match question_texts(found) {
        Ok(texts) => Ok(Asked::Path(texts)),
        Err(fault) => Err(fault),
    }
}

/// The words after `why`.
#[tactic(auto, using(crate::proofs::WordLemmas::question_fault))]
fn why_texts<'a>(found: &ArgMatches<'a>) -> Result<Asked<'a>, WordFault>
    ensures { TellsTexts (codes "why") path_arguments (rows_of (found_of found.now)) result }
{
    match question_texts(found) {
        Ok(texts) => Ok(Asked::Why(texts)),
        Err(fault) => Err(fault),
    }
}

/// The words after `paths`.
#[tactic(auto, using(crate::proofs::WordLemmas::all_fault, crate::proofs::WordLemmas::paths_values))]
fn paths_texts<'a>(found: &ArgMatches<'a>) -> Result<Asked<'a>, WordFault>
    ensures { TellsTexts (codes "paths") all_arguments (rows_of (found_of found.now)) result }
{
    let evidence = found.get_str("evidence");
    match all_texts(found) {
        Ok(all) => Ok(Asked::Paths(PathsTexts { all, evidence })),
        Err(fault) => Err(fault),
    }
}

/// The words after `recheck`.
fn recheck_texts<'a>(found: &ArgMatches<'a>) -> Result<Asked<'a>, WordFault>
    ensures { TellsTexts (codes "recheck") recheck_arguments (rows_of (found_of found.now)) result }
{
    let Some(evidence) = found.get_str("EVIDENCE") else {
        return Err(WordFault::OutOfMemory);
    };
    match all_texts(found) {
        Ok(all) => Ok(Asked::Recheck(RecheckTexts { all, evidence })),
        Err(fault) => Err(fault),
    }
}

/// The words of a question on one target.
#[tactic(auto, using(crate::proofs::WordLemmas::target_fault, crate::proofs::WordLemmas::path_values))]
fn question_texts<'a>(found: &ArgMatches<'a>) -> Result<PathTexts<'a>, WordFault>
    ensures { TellsQuestion (rows_of (found_of found.now)) result }
{
    let Some(target) = found.get_str("target") else {
        return Err(WordFault::OutOfMemory);
    };
    let host = found.get_str("host");
    match all_texts(found) {
        Ok(all) => Ok(PathTexts { target, host, all }),
        Err(fault) => Err(fault),
    }
}

/// The files, and how all items are judged.
fn all_texts<'a>(found: &ArgMatches<'a>) -> Result<AllTexts<'a>, WordFault>
    ensures { TellsAll (rows_of (found_of found.now)) result }
{
    let Some(bundle) = found.get_str("BUNDLE") else {
        return Err(WordFault::OutOfMemory);
    };
    let Some(anchors) = found.get_str("ANCHORS") else {
        return Err(WordFault::OutOfMemory);
    };
    let Some(vouchers) = found.get_str("VOUCHERS") else {
        return Err(WordFault::OutOfMemory);
    };
    let Some(moment) = found.get_str("at") else {
        return Err(WordFault::OutOfMemory);
    };
    let Some(demand) = found.get_str("demand-lists") else {
        return Err(WordFault::OutOfMemory);
    };
    let Some(limit) = found.get_str("limit") else {
        return Err(WordFault::OutOfMemory);
    };
    let purpose = found.get_str("purpose");
    Ok(AllTexts {
        bundle,
        anchors,
        vouchers,
        moment,
        demand,
        limit,
        purpose,
    })
}
