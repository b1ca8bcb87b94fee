//! The jobs that users of these crates wait for, on inputs that the program makes of a seed. Words: a job and a seed below 2^32.
//! Standard output has a digest of all results, and no times.
//!
//! `inventory`: a run for each of several targets, over one bundle. `log`: certificates read with the values of their extensions, and
//! asked for what a log's reader wants. `lists`: revocation lists with many entries. `trees`: certificates as trees of objects.
//! `names`: certificates that all have one name, and a key each. `chain`: a long chain of issuers, with a target beside it.
//! `small` does each of these on a small input.
//!
//! `shapes.der` of the folder that it runs in has the certificates whose copies the inputs are; `bench/shapes.py` writes it.
#![tactic(auto)]

mod bundles;
mod chain;
mod digest;
mod failure;
mod inventory;
mod lists;
mod log;
mod names;
mod parts;
mod random;
mod runs;
mod shapes;
mod trees;

use crate::failure::Failure;
use crate::random::Random;
use crate::shapes::Shapes;
use std::{env, fs};

/// The file of shapes, in the folder that the program runs in.
const SHAPES: &str = "shapes.der";

/// The jobs, in the order in which `small` does them.
const JOBS: [&str; 6] = ["inventory", "log", "lists", "trees", "names", "chain"];

fn main(rt: HostRuntime) -> Result<(), Failure> {
    let mut words = env::args(&rt)?.skip(1);
    let (Some(job), Some(seed)) = (words.next(), words.next()) else {
        return Err(Failure::Words);
    };
    let Ok(seed) = seed.as_str().parse::<u32>() else {
        return Err(Failure::Words);
    };
    let octets = fs::read(&rt, SHAPES)?;
    let shapes = Shapes::new(rt.alloc(), octets.as_slice())?;
    if job.as_str() == "small" {
        for job in JOBS {
            tell(&rt, &shapes, job, seed, true)?;
        }
        return Ok(());
    }
    tell(&rt, &shapes, job.as_str(), seed, false)
}

/// Does a job, and says the digest of its results.
fn tell(
    rt: &HostRuntime,
    shapes: &Shapes,
    job: &str,
    seed: u32,
    small: bool,
) -> Result<(), Failure> {
    let alloc = rt.alloc();
    let mut random = Random::new(seed);
    let digest = match job {
        "inventory" => inventory::run_all(alloc, shapes, &mut random, small)?,
        "log" => log::read_all(alloc, shapes, &mut random, small)?,
        "lists" => lists::read_all(alloc, shapes, &mut random, small)?,
        "trees" => trees::read_all(alloc, shapes, &mut random, small)?,
        "names" => names::run_all(alloc, shapes, &mut random, small)?,
        "chain" => chain::run_all(alloc, shapes, &mut random, small)?,
        _ => return Err(Failure::Words),
    };
    println!(rt; "{job} {seed} {:016x}", digest.value())?;
    Ok(())
}
