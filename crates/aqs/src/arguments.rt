//! The command line.

use crate::job::Job;
use crate::page::Page;
use clap::error::ErrorKind;
use clap::{Arg, ArgAction, ArgMatches, Command, Error};
use driver::choice::Choice;
use driver::form::Form;
use driver::notation::Notation;
use history::number::number_of;
use script::limits::MOST_MILLISECONDS;
use std::alloc::{AllocError, Global};
use std::convert::AsStr;
use tasks::fault::{Fault, RunOption};
use tasks::task::Task;
use workers::Keep;

/// What a command line asks for.
#[derive(Debug, Drop)]
pub struct Asked {
    pub job: Job,
    /// The file to read, or none for standard input.
    pub file: Option<String>,
    /// The file to write, or none for standard output.
    pub output: Option<String>,
    /// The file with the names of seats and conditions, if one is named.
    pub names: Option<String>,
    /// What else is asked of a run, if its command line has such options or a terminal is told of it.
    pub options: Option<RunOptions>,
}

/// What else is asked of a run.
#[derive(Debug, Drop)]
pub struct RunOptions {
    /// After how many milliseconds the program says how the threads stand, and ends.
    pub timeout: Option<u32>,
    /// The object whose history is written in place of the run text.
    pub object: Option<String>,
    /// The folder in which the history of each object is left.
    pub dir: Option<String>,
    /// What is kept of the answers that no history records.
    pub keep: Keep,
}

/// Returns the program's fault for a parser's error.
fn fault_of(error: Error) -> Fault {
    match error.kind() {
        ErrorKind::OutOfMemory => Fault::Memory,
        _ => Fault::Usage,
    }
}

/// Returns the number that an option gives, or None if the option is missing.
fn number_in(asked: &ArgMatches<'_>, name: &str, bad: Fault) -> Result<Option<u64>, Fault> {
    match asked.get_str(name) {
        None => Ok(None),
        Some(word) => match number_of(word.as_bytes()) {
            Some(number) => Ok(Some(number)),
            None => Err(bad),
        },
    }
}

/// Returns which entries are chosen. The first may not come after the last.
fn choice_in(asked: &ArgMatches<'_>) -> Result<Choice, Fault> {
    let from = number_in(asked, "from", Fault::BadFrom)?;
    let to = number_in(asked, "to", Fault::BadTo)?;
    match (from, to) {
        (Some(first), Some(last)) if last < first => Err(Fault::BadFrom),
        _ => Ok(Choice { from, to }),
    }
}

/// Returns an option `--NAME`.
fn option<'a>(alloc: Global, name: &'a str, action: ArgAction) -> Arg<'a> {
    Arg::new(alloc, name).long(name).action(action)
}

/// Returns a command that reads a text and writes another: `NAME [-o FILE] [FILE]`.
fn reader<'a>(alloc: Global, name: &'a str) -> Result<Command<'a>, AllocError> {
    let reader = Command::new(alloc, name).arg(Arg::new(alloc, "file"))?;
    reader.arg(option(alloc, "output", ArgAction::Set).short('o'))
}

/// Returns a reader that may write a JSON object: `NAME [--json] [-o FILE] [FILE]`.
fn teller<'a>(alloc: Global, name: &'a str) -> Result<Command<'a>, AllocError> {
    let teller = reader(alloc, name)?;
    teller.arg(option(alloc, "json", ArgAction::SetTrue))
}

/// Returns `replay [--history] [-o FILE] [FILE]`.
fn replay<'a>(alloc: Global) -> Result<Command<'a>, AllocError> {
    let replay = reader(alloc, "replay")?;
    replay.arg(option(alloc, "history", ArgAction::SetTrue))
}

/// Returns `draw [--page] [--names FILE] [--from NUMBER] [--to NUMBER] [-o FILE] [FILE]`.
fn draw<'a>(alloc: Global) -> Result<Command<'a>, AllocError> {
    let draw = reader(alloc, "draw")?;
    let draw = draw.arg(option(alloc, "page", ArgAction::SetTrue))?;
    let draw = draw.arg(option(alloc, "names", ArgAction::Set))?;
    let draw = draw.arg(option(alloc, "from", ArgAction::Set))?;
    draw.arg(option(alloc, "to", ArgAction::Set))
}

/// Returns `explain [--at NUMBER] [--json] [-o FILE] [FILE]`.
fn explain<'a>(alloc: Global) -> Result<Command<'a>, AllocError> {
    let explain = teller(alloc, "explain")?;
    explain.arg(option(alloc, "at", ArgAction::Set))
}

/// Returns `run [--timeout MILLISECONDS] [--object NAME] [--dir FOLDER] [--unrecorded] [-o FILE] [FILE]`.
fn run<'a>(alloc: Global) -> Result<Command<'a>, AllocError> {
    let run = reader(alloc, "run")?;
    let run = run.arg(option(alloc, "timeout", ArgAction::Set))?;
    let run = run.arg(option(alloc, "object", ArgAction::Set))?;
    let run = run.arg(option(alloc, "dir", ArgAction::Set))?;
    run.arg(option(alloc, "unrecorded", ArgAction::SetTrue))
}

/// Returns `manual [COMMAND]`.
fn pages<'a>(alloc: Global) -> Result<Command<'a>, AllocError> {
    Command::new(alloc, "manual").arg(Arg::new(alloc, "command"))
}

/// Returns the page of the manual on a command, or on all.
fn page_in(options: &ArgMatches<'_>) -> Result<Page, Fault> {
    match options.get_str("command") {
        None => Ok(Page::Overview),
        Some("replay") => Ok(Page::Replay),
        Some("audit") => Ok(Page::Audit),
        Some("explain") => Ok(Page::Explain),
        Some("summary") => Ok(Page::Summary),
        Some("draw") => Ok(Page::Draw),
        Some("run") => Ok(Page::Run),
        Some(_) => Err(Fault::Usage),
    }
}

/// Adds a command to the program.
fn with<'a>(
    program: Command<'a>,
    command: Result<Command<'a>, AllocError>,
) -> Result<Command<'a>, AllocError> {
    program.subcommand(command?)
}

/// Returns the program with all its commands.
fn program<'a>(alloc: Global) -> Result<Command<'a>, AllocError> {
    let program = with(Command::new(alloc, "aqs"), replay(alloc))?;
    let program = with(program, teller(alloc, "audit"))?;
    let program = with(program, run(alloc))?;
    let program = with(program, draw(alloc))?;
    let program = with(program, explain(alloc))?;
    let program = with(program, teller(alloc, "summary"))?;
    let program = with(program, pages(alloc))?;
    with(program, Ok(Command::new(alloc, "about")))
}

/// Returns how an answer is to be written.
fn notation_in(options: &ArgMatches<'_>) -> Notation {
    if options.get_flag("json") {
        Notation::Json
    } else {
        Notation::Lines
    }
}

/// Returns what a command with these options is to do.
fn job_of(name: &str, options: &ArgMatches<'_>) -> Result<Job, Fault> {
    Ok(match name {
        "run" => Job::Run,
        "manual" => Job::Tell(page_in(options)?),
        "about" => Job::Tell(Page::About),
        "audit" => Job::Answer(Task::Audit(notation_in(options))),
        "draw" if options.get_flag("page") => Job::Answer(Task::Page(choice_in(options)?)),
        "draw" => Job::Answer(Task::Draw(choice_in(options)?)),
        "explain" => Job::Explain(
            number_in(options, "at", Fault::BadAt)?,
            notation_in(options),
        ),
        "summary" => Job::Answer(Task::Summary(notation_in(options))),
        _ if options.get_flag("history") => Job::Answer(Task::Replay(Form::History)),
        _ => Job::Answer(Task::Replay(Form::Replay)),
    })
}

/// Returns the file that a command names by an argument, if it names one.
fn file_in(
    alloc: Global,
    options: &ArgMatches<'_>,
    argument: &str,
) -> Result<Option<String>, Fault> {
    match options.get_str(argument) {
        None => Ok(None),
        // The parser lets it through after `--`, `--output=` and `--dir=`.
        Some(file) if file.starts_with('-') => Err(Fault::Usage),
        Some(file) => Ok(Some(String::from_str(alloc, file)?)),
    }
}

/// Returns the milliseconds after which a run is late: 1 to the greatest number of a script.
fn timeout_in(options: &ArgMatches<'_>) -> Result<Option<u32>, Fault> {
    let bad = Fault::BadRunOption(RunOption::Timeout);
    match number_in(options, "timeout", bad)? {
        None => Ok(None),
        Some(number) if 1 <= number && number <= MOST_MILLISECONDS => Ok(Some(number as u32)),
        Some(_) => Err(bad),
    }
}

/// Returns the name of the object that a run is asked for.
fn object_in(alloc: Global, options: &ArgMatches<'_>) -> Result<Option<String>, Fault> {
    match options.get_str("object") {
        None => Ok(None),
        Some(name) => Ok(Some(String::from_str(alloc, name)?)),
    }
}

/// Returns what a run is to keep of the answers that no history records.
fn keep_in(options: &ArgMatches<'_>) -> Keep {
    if options.get_flag("unrecorded") {
        Keep::Each
    } else {
        Keep::Count
    }
}

/// Returns what else a run is asked for. A history text has no place for answers that no history records.
fn options_in(
    alloc: Global,
    options: &ArgMatches<'_>,
    is_told: bool,
) -> Result<Option<RunOptions>, Fault> {
    let timeout = timeout_in(options)?;
    let object = object_in(alloc, options)?;
    let dir = file_in(alloc, options, "dir")?;
    let keep = keep_in(options);
    let is_plain = timeout.is_none() && object.is_none() && dir.is_none();
    match keep {
        Keep::Count if is_plain && !is_told => Ok(None),
        Keep::Each if object.is_some() => Err(Fault::Usage),
        _ => Ok(Some(RunOptions {
            timeout,
            object,
            dir,
            keep,
        })),
    }
}

/// Returns what the parsed words ask for. Without a command, standard input is replayed.
fn asked_by(alloc: Global, words: &ArgMatches<'_>, is_told: bool) -> Result<Asked, Fault> {
    let Some((name, options)) = words.subcommand() else {
        return Ok(Asked {
            job: Job::Answer(Task::Replay(Form::Replay)),
            file: None,
            output: None,
            names: None,
            options: None,
        });
    };
    let job = job_of(name, options)?;
    let (file, output) = match job {
        Job::Tell(_) => (None, None),
        Job::Answer(_) | Job::Explain(_, _) | Job::Run => (
            file_in(alloc, options, "file")?,
            file_in(alloc, options, "output")?,
        ),
    };
    let names = match job {
        Job::Answer(Task::Draw(_)) | Job::Answer(Task::Page(_)) => {
            file_in(alloc, options, "names")?
        }
        _ => None,
    };
    let options = match job {
        Job::Run => options_in(alloc, options, is_told)?,
        Job::Answer(_) | Job::Explain(_, _) | Job::Tell(_) => None,
    };
    Ok(Asked {
        job,
        file,
        output,
        names,
        options,
    })
}

/// Returns what the words of a command line ask for. The first word is the program's name. `is_told` says whether
/// a terminal is told of a run.
pub fn arguments<S: AsStr>(alloc: Global, words: &[S], is_told: bool) -> Result<Asked, Fault> {
    let program = program(alloc)?;
    let words = program.try_get_matches_from(words).map_err(fault_of)?;
    asked_by(alloc, &words, is_told)
}
