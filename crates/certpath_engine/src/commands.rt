//! The program's commands and their words, as `clap` reads them.
ghost use Rattle.std.specs.Prelude.{◌≡◌, false, IfOk};
ghost use Rattle.clap.specs.Words.{app_of, rule_of};
ghost use Rattle.clap.specs.declared.builder.command.Command.TheViews.{out-Command};
ghost use Rattle.certpath_engine.specs.Words.{certpath_app, targets_app, items_app, frame_app, bundle_app, path_app, why_app, questions_app, paths_app, recheck_app, with_question, with_host, with_purpose, with_files, with_policy, faults_rule, file_rule, files_rule, target_rule, moment_rule, demand_rule, limit_rule, evidence_rule, host_rule, purpose_rule};

use clap::{Arg, ArgAction, Command};
use std::alloc::{AllocError, Global};

/// All commands.
pub(crate) fn program<'a>(alloc: Global) -> Result<Command<'a>, AllocError>
    ensures { IfOk result (λ c. app_of c ≡ certpath_app) }
{
    target_commands(alloc)?
        .subcommand(paths_command(alloc)?)?
        .subcommand(recheck_command(alloc)?)?
        .subcommand(bundle_command(alloc)?)
}

/// The commands over items, and those on one target.
fn target_commands<'a>(alloc: Global) -> Result<Command<'a>, AllocError>
    ensures app { IfOk result (λ c. app_of c ≡ targets_app) }
    ensures local { IfOk result (λ c. (out-Command c).has_globals ≡ false) }
{
    item_commands(alloc)?
        .subcommand(path_command(alloc)?)?
        .subcommand(why_command(alloc)?)
}

/// The commands over items.
fn item_commands<'a>(alloc: Global) -> Result<Command<'a>, AllocError>
    ensures app { IfOk result (λ c. app_of c ≡ items_app) }
    ensures local { IfOk result (λ c. (out-Command c).has_globals ≡ false) }
{
    Command::new(alloc, "certpath")
        .about("Reads certificates and revocation lists in DER")
        .bin_name("certpath")?
        .subcommand_required(true)
        .subcommand(frame_command(alloc)?)?
        .subcommand(questions_command(alloc)?)
}

/// The command `frame`.
fn frame_command<'a>(alloc: Global) -> Result<Command<'a>, AllocError>
    ensures app { IfOk result (λ c. app_of c ≡ frame_app) }
    ensures local { IfOk result (λ c. (out-Command c).has_globals ≡ false) }
{
    Command::new(alloc, "frame")
        .about("Prints where the items of a file lie, and how it ends")
        .arg(file_argument(alloc, "FILE", "The items, one after another"))?
        .arg(limit_argument(alloc))?
        .arg(faults_argument(alloc))
}

/// The command `bundle`.
fn bundle_command<'a>(alloc: Global) -> Result<Command<'a>, AllocError>
    ensures app { IfOk result (λ c. app_of c ≡ bundle_app) }
    ensures local { IfOk result (λ c. (out-Command c).has_globals ≡ false) }
{
    Command::new(alloc, "bundle")
        .about("Joins the certificates and revocation lists of PEM, DER and PKCS #7 files")
        .arg(files_argument(alloc))
}

/// The command `path`.
fn path_command<'a>(alloc: Global) -> Result<Command<'a>, AllocError>
    ensures app { IfOk result (λ c. app_of c ≡ path_app) }
    ensures local { IfOk result (λ c. (out-Command c).has_globals ≡ false) }
{
    let path = Command::new(alloc, "path").about(
        "Finds the first of the shortest valid paths, and checks it",
    );
    let path = with_question(alloc, path)?;
    with_host(alloc, path)
}

/// The command `why`.
fn why_command<'a>(alloc: Global) -> Result<Command<'a>, AllocError>
    ensures app { IfOk result (λ c. app_of c ≡ why_app) }
    ensures local { IfOk result (λ c. (out-Command c).has_globals ≡ false) }
{
    let why = Command::new(alloc, "why").about(
        "Prints the answer of path, and what stands in the way of a path",
    );
    let why = with_question(alloc, why)?;
    with_host(alloc, why)
}

/// The command `questions`.
fn questions_command<'a>(alloc: Global) -> Result<Command<'a>, AllocError>
    ensures app { IfOk result (λ c. app_of c ≡ questions_app) }
    ensures local { IfOk result (λ c. (out-Command c).has_globals ≡ false) }
{
    Command::new(alloc, "questions")
        .about("Prints which keys may have signed which items")
        .arg(file_argument(alloc, "BUNDLE", "The items, one behind the other"))?
        .arg(file_argument(alloc, "ANCHORS", "The anchors, one behind the other"))?
        .arg(limit_argument(alloc))
}

/// The command `paths`.
fn paths_command<'a>(alloc: Global) -> Result<Command<'a>, AllocError>
    ensures app { IfOk result (λ c. app_of c ≡ paths_app) }
    ensures local { IfOk result (λ c. (out-Command c).has_globals ≡ false) }
{
    let paths = Command::new(alloc, "paths").about(
        "Finds the first of the shortest valid paths of every item, and checks them",
    );
    let paths = with_files(alloc, paths)?;
    let paths = with_policy(alloc, paths)?.arg(evidence_argument(alloc))?;
    with_purpose(alloc, paths)
}

/// The command `recheck`.
fn recheck_command<'a>(alloc: Global) -> Result<Command<'a>, AllocError>
    ensures app { IfOk result (λ c. app_of c ≡ recheck_app) }
    ensures local { IfOk result (λ c. (out-Command c).has_globals ≡ false) }
{
    let recheck = Command::new(alloc, "recheck").about(
        "Checks what paths found, by the evidence that it wrote",
    );
    let recheck = with_files(alloc, recheck)?.arg(file_argument(
        alloc,
        "EVIDENCE",
        "What paths --evidence wrote",
    ))?;
    let recheck = with_policy(alloc, recheck)?;
    with_purpose(alloc, recheck)
}

/// A command with the words of a question on one target: the files, the target, the moment, whether
/// lists are demanded, the limit.
fn with_question<'a>(alloc: Global, command: Command<'a>) -> Result<Command<'a>, AllocError>
    requires { (out-Command command).has_globals ≡ false }
    ensures app { IfOk result (λ c. app_of c ≡ with_question (app_of command.entry)) }
    ensures local { IfOk result (λ c. (out-Command c).has_globals ≡ false) }
{
    let command = with_files(alloc, command)?.arg(target_argument(alloc))?;
    with_policy(alloc, command)
}

/// A command with a host and a purpose that may be demanded.
fn with_host<'a>(alloc: Global, command: Command<'a>) -> Result<Command<'a>, AllocError>
    requires { (out-Command command).has_globals ≡ false }
    ensures app { IfOk result (λ c. app_of c ≡ with_host (app_of command.entry)) }
    ensures local { IfOk result (λ c. (out-Command c).has_globals ≡ false) }
{
    let command = command.arg(host_argument(alloc))?;
    with_purpose(alloc, command)
}

/// A command with a purpose that may be demanded.
fn with_purpose<'a>(alloc: Global, command: Command<'a>) -> Result<Command<'a>, AllocError>
    requires { (out-Command command).has_globals ≡ false }
    ensures app { IfOk result (λ c. app_of c ≡ with_purpose (app_of command.entry)) }
    ensures local { IfOk result (λ c. (out-Command c).has_globals ≡ false) }
{
    command.arg(purpose_argument(alloc))
}

/// A command with the three files.
fn with_files<'a>(alloc: Global, command: Command<'a>) -> Result<Command<'a>, AllocError>
    requires { (out-Command command).has_globals ≡ false }
    ensures app { IfOk result (λ c. app_of c ≡ with_files (app_of command.entry)) }
    ensures local { IfOk result (λ c. (out-Command c).has_globals ≡ false) }
{
    command
        .arg(file_argument(alloc, "BUNDLE", "The items, one behind the other"))?
        .arg(file_argument(alloc, "ANCHORS", "The anchors, one behind the other"))?
        .arg(file_argument(
            alloc,
            "VOUCHERS",
            "Digests of a key and of what it vouches for, a line each",
        ))
}

/// A command with the moment, whether lists are demanded, and the limit.
fn with_policy<'a>(alloc: Global, command: Command<'a>) -> Result<Command<'a>, AllocError>
    requires { (out-Command command).has_globals ≡ false }
    ensures app { IfOk result (λ c. app_of c ≡ with_policy (app_of command.entry)) }
    ensures local { IfOk result (λ c. (out-Command c).has_globals ≡ false) }
{
    command
        .arg(moment_argument(alloc))?
        .arg(demand_argument(alloc))?
        .arg(limit_argument(alloc))
}

/// A file.
fn file_argument<'a>(alloc: Global, name: &'a str, help: &'a str) -> Arg<'a>
    ensures rule { rule_of result ≡ file_rule name.entry.now }
    ensures local { result.global ≡ false }
{
    Arg::new(alloc, name).required(true).help(help)
}

/// Files, one at least.
fn files_argument<'a>(alloc: Global) -> Arg<'a>
    ensures rule { rule_of result ≡ files_rule }
    ensures local { result.global ≡ false }
{
    Arg::new(alloc, "FILE")
        .required(true)
        .action(ArgAction::Append)
        .help("The files; - is standard input")
}

/// `--target N`.
fn target_argument<'a>(alloc: Global) -> Arg<'a>
    ensures rule { rule_of result ≡ target_rule }
    ensures local { result.global ≡ false }
{
    Arg::new(alloc, "target")
        .long("target")
        .value_name("N")
        .required(true)
        .help("The position of the target among the items, from 0 on")
}

/// `--at YYYY-MM-DDTHH:MM:SS`.
fn moment_argument<'a>(alloc: Global) -> Arg<'a>
    ensures rule { rule_of result ≡ moment_rule }
    ensures local { result.global ≡ false }
{
    Arg::new(alloc, "at")
        .long("at")
        .value_name("YYYY-MM-DDTHH:MM:SS")
        .required(true)
        .help("The moment that is judged by, in universal time")
}

/// `--demand-lists`.
fn demand_argument<'a>(alloc: Global) -> Arg<'a>
    ensures rule { rule_of result ≡ demand_rule }
    ensures local { result.global ≡ false }
{
    Arg::new(alloc, "demand-lists")
        .long("demand-lists")
        .action(ArgAction::SetTrue)
        .help("A certificate needs a revocation list of its issuer")
}

/// `--limit N`.
fn limit_argument<'a>(alloc: Global) -> Arg<'a>
    ensures rule { rule_of result ≡ limit_rule }
    ensures local { result.global ≡ false }
{
    Arg::new(alloc, "limit")
        .long("limit")
        .value_name("N")
        .help("The most content octets of an item")
        .default_value("16777216")
}

/// `--why`.
fn faults_argument<'a>(alloc: Global) -> Arg<'a>
    ensures rule { rule_of result ≡ faults_rule }
    ensures local { result.global ≡ false }
{
    Arg::new(alloc, "why")
        .long("why")
        .action(ArgAction::SetTrue)
        .help("Prints why an item is neither a certificate nor a list")
}

/// `--evidence FILE`.
fn evidence_argument<'a>(alloc: Global) -> Arg<'a>
    ensures rule { rule_of result ≡ evidence_rule }
    ensures local { result.global ≡ false }
{
    Arg::new(alloc, "evidence")
        .long("evidence")
        .value_name("FILE")
        .help("Writes to FILE what recheck needs to check all paths")
}

/// `--host NAME`.
fn host_argument<'a>(alloc: Global) -> Arg<'a>
    ensures rule { rule_of result ≡ host_rule }
    ensures local { result.global ≡ false }
{
    Arg::new(alloc, "host")
        .long("host")
        .value_name("NAME")
        .help("A name or an address that the target has to serve")
}

/// `--purpose NAME|OID`.
fn purpose_argument<'a>(alloc: Global) -> Arg<'a>
    ensures rule { rule_of result ≡ purpose_rule }
    ensures local { result.global ≡ false }
{
    Arg::new(alloc, "purpose")
        .long("purpose")
        .value_name("NAME|OID")
        .help("A purpose that each certificate of a path has to allow")
}
