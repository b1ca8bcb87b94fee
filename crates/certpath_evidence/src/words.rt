//! What a line says.

ghost use Rattle.std.specs.Prelude.{◌≡◌, ◌++◌, ℕ, List, IfSome, IfNone, IfOk};
ghost use Rattle.cert_graph.specs.declared.changes.Change.{Change};
ghost use Rattle.cert_graph.specs.declared.reach.Reach.{Reach};
ghost use Rattle.certpath_evidence.specs.Evidence.{Said, path, said_by, path_words, verdict_line, reach_words, change_line, FitsSaid, FitsReach, FitsChange};

use crate::lines::{after_word, split_once};
use crate::numbers::{limit_of, number_of};
use cert_graph::{Change, Reach, Verdict};
use std::alloc::{AllocError, Global};

/// The words of the lines; a path's and a limit's end in a space, since numbers follow.
const PATH: &[u8] = b"path ";

const ANCHOR: &[u8] = b"anchor";

const NO_PATH: &[u8] = b"none";

const NO_CERTIFICATE: &[u8] = b"no certificate";

const NO: &[u8] = b"no";

const UP_TO: &[u8] = b"upto ";

const ANY: &[u8] = b"any";

/// The path of a line, of which the word `path` is read already.
fn path_of(alloc: Global, words: &[u8]) -> Result<Option<Verdict>, AllocError>
    ensures found { IfOk result (λ r. IfSome r (λ v. FitsSaid (said_by v) × (PATH.now ++ words.now ≡ verdict_line (said_by v)))) }
    ensures only { IfOk result (λ r. IfNone r ((positions : List ℕ) (anchor : ℕ) → FitsSaid (path positions anchor) → words.now ≡ path_words positions anchor → ⊥)) }
{
    let mut positions = Vec::new(alloc);
    let mut rest = words;
    while let Some((word, after)) = split_once(rest, b' ') {
        if word == ANCHOR {
            let Some(anchor) = number_of(after) else {
                return Ok(None);
            };
            return Ok(Some(Verdict::FirstPath { positions, anchor }));
        }
        let Some(position) = number_of(word) else {
            return Ok(None);
        };
        positions.push(position)?;
        rest = after;
    }
    Ok(None)
}

/// The verdict of a line.
pub(crate) fn verdict_of(alloc: Global, line: &[u8]) -> Result<Option<Verdict>, AllocError>
    ensures found { IfOk result (λ r. IfSome r (λ v. FitsSaid (said_by v) × (line.now ≡ verdict_line (said_by v)))) }
    ensures only { IfOk result (λ r. IfNone r ((said : Said) → FitsSaid said → line.now ≡ verdict_line said → ⊥)) }
{
    if line == NO_PATH {
        return Ok(Some(Verdict::Pathless));
    }
    if line == NO_CERTIFICATE {
        return Ok(Some(Verdict::NoCertificate));
    }
    match after_word(line, PATH) {
        Some(words) => path_of(alloc, words),
        None => Ok(None),
    }
}

fn reach_of(words: &[u8]) -> Option<Reach>
    ensures found { IfSome result (λ r. FitsReach r × (words.now ≡ reach_words r)) }
    ensures only { IfNone result ((reach : Reach) → FitsReach reach → words.now ≡ reach_words reach → ⊥) }
{
    if words == NO {
        return Some(Reach::No);
    }
    if words == ANY {
        return Some(Reach::Any);
    }
    let limit = limit_of(after_word(words, UP_TO)?)?;
    Some(Reach::UpTo(limit))
}

/// The change of a line.
pub(crate) fn change_of(line: &[u8]) -> Option<Change>
    ensures found { IfSome result (λ c. FitsChange c × (line.now ≡ change_line c)) }
    ensures only { IfNone result ((change : Change) → FitsChange change → line.now ≡ change_line change → ⊥) }
{
    let (word, words) = split_once(line, b' ')?;
    let position = number_of(word)?;
    let reach = reach_of(words)?;
    Some(Change { position, reach })
}
