//! Answers on a file of items, and their checks.

use crate::answers::{Anyone, no_path, path_of_ten};
use anyhow::{Result, bail};
use certcheck::{Answer, Bundle, Items, Policy, check};
use certpath_find::find;
use der_tree::parse_der;
use jiff::civil::date;
use std::alloc::Global;
use std::time::Instant;

/// The items of a stream.
pub(crate) fn framed(alloc: Global, octets: &[u8]) -> Result<Items> {
    let mut bundle = Bundle::new(alloc, u32::MAX);
    if bundle.feed(octets).is_err() {
        bail!("out of memory");
    }
    match bundle.finish() {
        Ok(items) => Ok(items),
        Err(_) => bail!("out of memory"),
    }
}

/// Answers on the first of the items and checks the answer, where every key vouches for everything; says what came, and behind it on standard
/// error how long the answer and its check took, and how long it took to read each item as a tree.
pub(crate) fn run(rt: &HostRuntime, kind: &str, items: &Items, anchors: &Items) -> Result<()> {
    let policy = Policy::new(date(2025, 6, 1).at(0, 0, 0, 0), false);
    let start = Instant::now(rt)?;
    let trees = are_trees(rt.alloc(), items);
    let parsed = start.elapsed(rt)?;
    let start = Instant::now(rt)?;
    let answer = answer_of(rt.alloc(), items, anchors, &policy, kind)?;
    let found = start.elapsed(rt)?;
    let start = Instant::now(rt)?;
    let Ok(yes) = check(rt.alloc(), items, 0, anchors, &Anyone, &policy, &answer) else {
        bail!("out of memory");
    };
    let checked = start.elapsed(rt)?;
    let length = length_of(&answer);
    println!(rt;
        "{} items: trees {trees}, path of {length}, check {yes}",
        items.len()
    )?;
    eprintln!(rt;
        "parse {} us, answer {} us, check {} us",
        parsed.as_micros(),
        found.as_micros(),
        checked.as_micros()
    )?;
    Ok(())
}

/// Whether each item is read as a tree.
fn are_trees(alloc: Global, items: &Items) -> bool {
    let mut trees = true;
    for place in 0..items.len() {
        if parse_der(alloc, items.get(place)).is_err() {
            trees = false;
        }
    }
    trees
}

/// The answer that is asked for.
fn answer_of(
    alloc: Global,
    items: &Items,
    anchors: &Items,
    policy: &Policy,
    kind: &str,
) -> Result<Answer> {
    match kind {
        "path" => Ok(path_of_ten(alloc, items.len())?),
        "none" => Ok(no_path(alloc, items.len())?),
        _ => match find(alloc, items, 0, anchors, &Anyone, policy) {
            Ok(answer) => Ok(answer),
            Err(_) => bail!("out of memory"),
        },
    }
}

/// How many certificates a path has.
fn length_of(answer: &Answer) -> usize {
    match answer {
        Answer::Path { positions, .. } => positions.len(),
        _ => 0,
    }
}
