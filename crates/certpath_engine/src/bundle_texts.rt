//! The words after `bundle`, as they were written.
ghost use Rattle.std.specs.Prelude.{codes};
ghost use Rattle.clap.specs.Matches.{found_of};
ghost use Rattle.clap.specs.Words.{rows_of};
ghost use Rattle.certpath_engine.specs.Asking.{GivesBundle};

use crate::texts::Asked;
use crate::words::WordFault;
use clap::ArgMatches;
use std::alloc::Global;

/// The words after `bundle`.
#[derive(Drop)]
pub(crate) struct BundleTexts<'a> {
    pub(crate) files: Vec<&'a str>,
}

/// The words after `bundle`.
pub(crate) fn bundle_texts<'a>(
    alloc: Global,
    found: &ArgMatches<'a>,
) -> Result<Asked<'a>, WordFault>
    ensures { GivesBundle (rows_of (found_of found.now)) result }
{
    let Some(values) = found.get_strs("FILE") else {
        return Err(WordFault::OutOfMemory);
    };
    let Ok(files) = Vec::from_slice(alloc, values) else {
        return Err(WordFault::OutOfMemory);
    };
    Ok(Asked::Bundle(BundleTexts { files }))
}
