//! The program `certpath`: opens the files that its words name, and ends with the status that the
//! engine gives.
#![tactic(auto)]

ghost use Rattle.std.specs.Prelude.{◌≡◌, IfOk, IfErr, map};
ghost use Rattle.certpath_cli.specs.Outcomes.{IsOfFile, IsOfWord, IsOfWords, IsOfFiles, IsUnopened, IsOfSearch, IsOfPaths, IsOfItemFiles, AreItemsUnopened, IsOfRecheck};

use certpath_engine::{
    AllSettings, AskedPurpose, BundleError, BundleOutcome, Command, EvidenceReport, Exit, File,
    Findings, FrameOutcome, Input, InputError, ItemFiles, ItemInput, ItemsError, Outcome,
    PathFiles, PathOutcome, PathReport, PathsOutcome, PathsReport, Question, QuestionsOutcome,
    ReadSource, RecheckError, RecheckFiles, RecheckOutcome, Reported, Reports, RunError, WhyReport,
    WordFault, WriteSink, asked_of, bundle, bundle_status, frame, frame_status, frame_why,
    path_status, paths_status, questions_status, read_file, read_report, read_words,
    recheck_status, run_questions, run_recheck_for, run_report, words_status, write_text,
};
use std::alloc::Global;
use std::process::ExitCode;
use std::rt::{Files, Runtime};
use std::{env, fs, io};

fn main(rt: HostRuntime) -> ExitCode {
    ExitCode::from(status_of(&rt))
}

/// Does what the words ask for, and returns the exit status.
fn status_of<R: Runtime + AllocGlobal>(rt: &R) -> u8 {
    let words = match words_given(rt) {
        Ok(words) => words,
        Err(fault) => return say(rt, words_status(fault)),
    };
    match read_words(rt.alloc(), words.as_slice()) {
        Ok(Command::Frame { file, limit, why }) => {
            say(rt, frame_status(frame_file(rt, file, limit, why)))
        }
        Ok(Command::Bundle { files }) => say(rt, bundle_status(bundle_files(rt, &files))),
        Ok(Command::Path(question)) => say(rt, path_status(find_path(rt, &question))),
        Ok(Command::Why(question)) => say(rt, path_status(explain(rt, &question))),
        Ok(
            Command::Paths {
                files,
                evidence,
                settings,
                purpose,
            },
        ) => {
            let outcome = find_paths(rt, files, evidence, &settings, asked_of(&purpose));
            say(rt, paths_status(outcome))
        }
        Ok(
            Command::Recheck {
                files,
                settings,
                purpose,
            },
        ) => {
            let outcome = recheck(rt, files, &settings, asked_of(&purpose));
            say(rt, recheck_status(outcome))
        }
        Ok(Command::Questions { files, limit }) => {
            say(rt, questions_status(ask_questions(rt, files, limit)))
        }
        Err(fault) => say(rt, words_status(fault)),
    }
}

/// The words of the command line, the program's name first.
fn words_given<R: Runtime + AllocGlobal>(rt: &R) -> Result<Vec<String>, WordFault> {
    match env::args(rt) {
        Ok(words) => words
            .collect(rt.alloc())
            .map_err(|_| WordFault::OutOfMemory),
        Err(error) => Err(unreadable_words(rt.alloc(), &error)),
    }
}

/// Why there are no words: memory was refused, or one of them is not UTF-8.
fn unreadable_words(alloc: Global, error: &io::Error) -> WordFault {
    if error.kind() == io::ErrorKind::OutOfMemory {
        return WordFault::OutOfMemory;
    }
    match String::from_str(alloc, "error: a word is not UTF-8\n") {
        Ok(text) => WordFault::Refused(text),
        Err(_) => WordFault::OutOfMemory,
    }
}

/// Frames a file to standard output, with the reasons why items are other if these are asked for.
fn frame_file<'a, R: Runtime + AllocGlobal>(
    rt: &R,
    file: &'a str,
    limit: u32,
    why: bool,
) -> FrameOutcome<'a>
    ensures { IsOfFile file.entry.now result }
{
    match fs::open(rt, file) {
        Ok(opened) => {
            let mut reader = ReadSource::new(opened);
            let mut writer = WriteSink::new(io::writer(rt));
            let answer = if why {
                frame_why(rt.alloc(), &mut reader, limit, &mut writer)
            } else {
                frame(rt.alloc(), &mut reader, limit, &mut writer)
            };
            FrameOutcome::Framed(file, answer)
        }
        Err(error) if error.kind() == io::ErrorKind::OutOfMemory => {
            FrameOutcome::Framed(file, Err(ItemsError::OutOfMemory))
        }
        Err(_) => FrameOutcome::Unopened(file),
    }
}

/// Joins the certificates and revocation lists of files, to standard output.
fn bundle_files<'a, R: Runtime + AllocGlobal>(rt: &R, words: &[&'a str]) -> BundleOutcome<'a>
    ensures { IsOfWords (map (λ w. w.now) words.now) result }
{
    let files = match files_read(rt, words) {
        Ok(files) => files,
        Err(outcome) => return outcome,
    };
    let mut writer = WriteSink::new(io::writer(rt));
    BundleOutcome::Bundled(bundle(rt.alloc(), &files, &mut writer))
}

/// The files of these words, or how far the run came without one. Each is opened once those before
/// it are read, so that there may be more of them than can be open at once.
#[tactic(auto, using(crate::proofs::WordFacts::of_one))]
fn files_read<'a, R: Runtime + AllocGlobal>(
    rt: &R,
    words: &[&'a str],
) -> Result<Vec<File<'a>>, BundleOutcome<'a>>
    ensures ok { IfOk result (λ files. map (λ f. f.name) files.items ≡ words.now) }
    ensures refused { IfErr result (IsOfWords (map (λ w. w.now) words.now)) }
{
    let mut files = Vec::new(rt.alloc());
    for word in words {
        match file_read(rt, word) {
            Ok(file) => {
                if files.push(file).is_err() {
                    return Err(BundleOutcome::Bundled(Err(BundleError::OutOfMemory)));
                }
            }
            Err(outcome) => return Err(outcome),
        }
    }
    Ok(files)
}

/// The file of a word, or how far the run came without it.
fn file_read<'a, R: Runtime + AllocGlobal>(
    rt: &R,
    word: &'a str,
) -> Result<File<'a>, BundleOutcome<'a>>
    ensures ok { IfOk result (λ file. file.name ≡ word.entry) }
    ensures refused { IfErr result (IsOfWord word.entry.now) }
{
    let opened = match fs::open(rt, path_of(word)) {
        Ok(opened) => opened,
        Err(error) if error.kind() == io::ErrorKind::OutOfMemory => {
            return Err(BundleOutcome::Unread(word, InputError::OutOfMemory));
        }
        Err(_) => return Err(BundleOutcome::Unopened(word)),
    };
    let mut reader = ReadSource::new(opened);
    match read_file(rt.alloc(), word, &mut reader) {
        Ok(file) => Ok(file),
        Err(error) => Err(BundleOutcome::Unread(word, error)),
    }
}

/// The path of a word: - is standard input.
fn path_of(word: &str) -> &str {
    if word == "-" { "/dev/stdin" } else { word }
}

/// Writes a report on three files to standard output. All are opened before one is read.
fn report_on<'a, R: Runtime + AllocGlobal, T: Reports>(
    rt: &R,
    files: PathFiles<'a>,
    asked: &T,
) -> PathOutcome<'a, T::Outcome>
    ensures { IsOfFiles files.entry result }
{
    let mut inputs = match opened_inputs(rt, files) {
        Ok(inputs) => inputs,
        Err(outcome) => return outcome,
    };
    let mut writer = WriteSink::new(io::writer(rt));
    let answer = run_report(
        rt.alloc(),
        &mut inputs.bundle,
        &mut inputs.anchors,
        &mut inputs.vouchers,
        asked,
        &mut writer,
    );
    PathOutcome::Ran(files, answer)
}

/// Finds a path, to standard output.
fn find_path<'a, R: Runtime + AllocGlobal>(
    rt: &R,
    question: &Question<'a>,
) -> PathOutcome<'a, Outcome>
    ensures { IsOfFiles question.now.files result }
{
    let asked = PathReport {
        settings: &question.settings,
        demand: question.demand(),
    };
    report_on(rt, question.files, &asked)
}

/// Says what prevents a path, to standard output.
fn explain<'a, R: Runtime + AllocGlobal>(
    rt: &R,
    question: &Question<'a>,
) -> PathOutcome<'a, Outcome>
    ensures { IsOfFiles question.now.files result }
{
    let asked = WhyReport {
        settings: &question.settings,
        demand: question.demand(),
    };
    report_on(rt, question.files, &asked)
}

/// Finds the paths of all items, to standard output, and writes the evidence to a file, if one
/// is named.
fn find_paths<'a, R: Runtime + AllocGlobal>(
    rt: &R,
    files: PathFiles<'a>,
    evidence: Option<&'a str>,
    settings: &AllSettings,
    purpose: Option<AskedPurpose<'_>>,
) -> PathsOutcome<'a>
    ensures { IsOfPaths files.entry evidence.entry result }
{
    match evidence {
        Some(word) => show_paths(rt, files, word, &EvidenceReport { settings, purpose }),
        None => PathsOutcome::Found(report_on(rt, files, &PathsReport { settings, purpose })),
    }
}

/// Finds the paths of all items over three files, writes the evidence to a file, and then the
/// report to standard output.
fn show_paths<'a, R: Runtime + AllocGlobal>(
    rt: &R,
    files: PathFiles<'a>,
    evidence: &'a str,
    asked: &EvidenceReport<'_>,
) -> PathsOutcome<'a>
    ensures { IsOfSearch files.entry evidence.entry.now result }
{
    let mut inputs = match opened_inputs(rt, files) {
        Ok(inputs) => inputs,
        Err(outcome) => return PathsOutcome::Found(outcome),
    };
    let found = read_report(
        rt.alloc(),
        &mut inputs.bundle,
        &mut inputs.anchors,
        &mut inputs.vouchers,
        asked,
    );
    let reported = match found {
        Ok(reported) => reported,
        Err(error) => return PathsOutcome::Found(PathOutcome::Ran(files, Err(error))),
    };
    match create(rt, files, evidence) {
        Ok(file) => write_findings(rt, files, evidence, file, &reported),
        Err(outcome) => outcome,
    }
}

/// Creates the file of the evidence, or empties it, or says how far the run came without it.
fn create<'a, R: Runtime + AllocGlobal>(
    rt: &R,
    files: PathFiles<'a>,
    evidence: &'a str,
) -> Result<R::File, PathsOutcome<'a>>
    ensures { IfErr result (IsOfSearch files.entry evidence.entry.now) }
{
    match fs::File::create(rt, evidence) {
        Ok(file) => Ok(file),
        Err(error) if error.kind() == io::ErrorKind::OutOfMemory => Err(PathsOutcome::Found(
            PathOutcome::Ran(files, Err(RunError::OutOfMemory)),
        )),
        Err(_) => Err(PathsOutcome::Uncreated(evidence)),
    }
}

/// Writes the evidence to its file, and then the report to standard output.
fn write_findings<'a, R: Runtime + AllocGlobal>(
    rt: &R,
    files: PathFiles<'a>,
    evidence: &'a str,
    file: R::File,
    reported: &Reported<Findings>,
) -> PathsOutcome<'a>
    ensures { IsOfSearch files.entry evidence.entry.now result }
{
    let mut file = WriteSink::new(file);
    if write_text(&mut file, reported.outcome.evidence.as_bytes()).is_err() {
        return PathsOutcome::Unwritten(evidence);
    }
    let mut writer = WriteSink::new(io::writer(rt));
    match write_text(&mut writer, reported.text.as_bytes()) {
        Ok(()) => PathsOutcome::Found(PathOutcome::Ran(files, Ok(reported.outcome.outcome))),
        Err(error) => PathsOutcome::Found(PathOutcome::Ran(files, Err(error))),
    }
}

/// Checks evidence over four files, to standard output. All are opened before one is read.
fn recheck<'a, R: Runtime + AllocGlobal>(
    rt: &R,
    files: RecheckFiles<'a>,
    settings: &AllSettings,
    purpose: Option<AskedPurpose<'_>>,
) -> RecheckOutcome<'a>
    ensures { IsOfRecheck files.entry result }
{
    let mut inputs = match opened_inputs::<R, bool>(rt, files.searched) {
        Ok(inputs) => inputs,
        Err(PathOutcome::Unopened(file)) => return RecheckOutcome::Unopened(file),
        Err(PathOutcome::Ran(_, _)) => return out_of_memory(files),
    };
    let mut evidence = match fs::open(rt, files.evidence) {
        Ok(opened) => ReadSource::new(opened),
        Err(error) if error.kind() == io::ErrorKind::OutOfMemory => return out_of_memory(files),
        Err(_) => return RecheckOutcome::Unopened(files.evidence),
    };
    let mut writer = WriteSink::new(io::writer(rt));
    let answer = run_recheck_for(
        rt.alloc(),
        &mut inputs.bundle,
        &mut inputs.anchors,
        &mut inputs.vouchers,
        &mut evidence,
        settings,
        purpose,
        &mut writer,
    );
    RecheckOutcome::Ran(files, answer)
}

/// Memory was refused before a file was read.
fn out_of_memory<'a>(files: RecheckFiles<'a>) -> RecheckOutcome<'a>
    ensures { IsOfRecheck files.entry result }
{
    RecheckOutcome::Ran(files, Err(RecheckError::Run(RunError::OutOfMemory)))
}

/// Asks over two files which keys may have signed which items, to standard output. Both are opened
/// before one is read.
fn ask_questions<'a, R: Runtime + AllocGlobal>(
    rt: &R,
    files: ItemFiles<'a>,
    limit: u32,
) -> QuestionsOutcome<'a>
    ensures { IsOfItemFiles files.entry result }
{
    let bundle = match opened_items(rt, files, ItemInput::Bundle) {
        Ok(opened) => opened,
        Err(outcome) => return outcome,
    };
    let anchors = match opened_items(rt, files, ItemInput::Anchors) {
        Ok(opened) => opened,
        Err(outcome) => return outcome,
    };
    let mut bundle = ReadSource::new(bundle);
    let mut anchors = ReadSource::new(anchors);
    let mut writer = WriteSink::new(io::writer(rt));
    let answer = run_questions(rt.alloc(), &mut bundle, &mut anchors, limit, &mut writer);
    QuestionsOutcome::Asked(files, answer)
}

/// Opens a file of items, or says how far the run came without it.
fn opened_items<'a, R: Runtime + AllocGlobal>(
    rt: &R,
    files: ItemFiles<'a>,
    input: ItemInput,
) -> Result<R::File, QuestionsOutcome<'a>>
    ensures { IfErr result (AreItemsUnopened files.entry input) }
{
    let word = files.word(input);
    match fs::open(rt, word) {
        Ok(opened) => Ok(opened),
        Err(error) if error.kind() == io::ErrorKind::OutOfMemory => Err(QuestionsOutcome::Asked(
            files,
            Err(ItemsError::OutOfMemory),
        )),
        Err(_) => Err(QuestionsOutcome::Unopened(word)),
    }
}

/// The three inputs, open.
#[derive(Drop)]
struct Inputs<F> {
    bundle: ReadSource<F>,
    anchors: ReadSource<F>,
    vouchers: ReadSource<F>,
}

/// Opens the files of the three inputs, in order, or says how far the run came without one. All are
/// opened before one is read.
fn opened_inputs<'a, R: Runtime + AllocGlobal, T: Drop>(
    rt: &R,
    files: PathFiles<'a>,
) -> Result<Inputs<R::File>, PathOutcome<'a, T>>
    ensures { IfErr result (IsOfFiles files.entry) }
{
    let bundle = opened(rt, files, Input::Bundle)?;
    let anchors = opened(rt, files, Input::Anchors)?;
    let vouchers = opened(rt, files, Input::Vouchers)?;
    Ok(Inputs {
        bundle: ReadSource::new(bundle),
        anchors: ReadSource::new(anchors),
        vouchers: ReadSource::new(vouchers),
    })
}

/// Opens an input's file, or says how far the run came without it.
fn opened<'a, R: Runtime + AllocGlobal, T: Drop>(
    rt: &R,
    files: PathFiles<'a>,
    input: Input,
) -> Result<R::File, PathOutcome<'a, T>>
    ensures { IfErr result (IsUnopened files.entry input) }
{
    let file = files.word(input);
    match fs::open(rt, file) {
        Ok(opened) => Ok(opened),
        Err(error) if error.kind() == io::ErrorKind::OutOfMemory => {
            Err(PathOutcome::Ran(files, Err(RunError::OutOfMemory)))
        }
        Err(_) => Err(PathOutcome::Unopened(file)),
    }
}

/// Says on standard error what there is to say, and returns the exit status.
fn say<R: Eprint>(rt: &R, exit: Exit<'_>) -> u8
    ensures { result ≡ exit.entry.status }
{
    if let Some(message) = &exit.message {
        // The status says it too, if standard error fails.
        let _ = rt.eprint(message);
    }
    exit.status
}
