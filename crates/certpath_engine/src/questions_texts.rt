//! The words after `questions`, as they were written.
ghost use Rattle.std.specs.Prelude.{codes};
ghost use Rattle.clap.specs.Matches.{found_of};
ghost use Rattle.clap.specs.Words.{rows_of};
ghost use Rattle.certpath_engine.specs.Asking.{TellsTexts, questions_arguments};

use crate::texts::Asked;
use crate::words::WordFault;
use clap::ArgMatches;

/// The words after `questions`.
#[derive(Clone, Copy)]
pub(crate) struct QuestionsTexts<'a> {
    pub(crate) bundle: &'a str,
    pub(crate) anchors: &'a str,
    pub(crate) limit: &'a str,
}

/// The words after `questions`.
pub(crate) fn questions_texts<'a>(found: &ArgMatches<'a>) -> Result<Asked<'a>, WordFault>
    ensures { TellsTexts (codes "questions") questions_arguments (rows_of (found_of found.now)) result }
{
    let Some(bundle) = found.get_str("BUNDLE") else {
        return Err(WordFault::OutOfMemory);
    };
    let Some(anchors) = found.get_str("ANCHORS") else {
        return Err(WordFault::OutOfMemory);
    };
    let Some(limit) = found.get_str("limit") else {
        return Err(WordFault::OutOfMemory);
    };
    Ok(Asked::Questions(QuestionsTexts {
        bundle,
        anchors,
        limit,
    }))
}
