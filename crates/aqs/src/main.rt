//! The program `aqs`: replays the steps of a synchroniser's seats, audits and draws histories, and runs
//! threads.
//!
//! `aqs manual` says what each command does. The exit status is 1 for a history that isn't legal, for a text or
//! a file of which an explanation says what is wrong, and for a run that didn't end in time. A fault is printed
//! on standard error, in one line. Nothing has been written then, unless writing itself failed. If standard
//! error is a terminal, a line there says how much of a long text was read, and lines there how the threads of a
//! long run stand.
#![tactic(auto)]

ghost use Rattle.std.specs.Prelude.{◌≡◌, ◌↔◌, Ok, false, IfErr, IfOk, IfSome, IsErrOf, IsTrue};
ghost use Rattle.aqs.specs.Work.{IsReadFor, Works};
ghost use Rattle.script.specs.Reading.{Reads};
ghost use Rattle.streams.specs.declared.stream_fault.StreamFault.TheVariants.{ReadFailed, WriteFailed};
ghost use Rattle.tasks.specs.RunScript.{IsFaultOfScript};
ghost use Rattle.tasks.specs.declared.fault.Fault.TheVariants.{Stream};

mod arguments;
mod folder;
mod input;
mod job;
mod output;
mod page;
mod progress;
mod texts;

use crate::arguments::{Asked, RunOptions, arguments};
use crate::folder::Left;
use crate::input::{Input, Origin};
use crate::job::Job;
use crate::output::{Output, close, open};
use crate::page::page_text;
use crate::progress::Progress;
use picture::naming::Names;
use run_text::write_history;
use script::Script;
use std::alloc::Global;
use std::convert::AsStr;
use std::env;
use std::fs::File;
use std::io::{self, IsTerminal, Read, Write};
use std::process::ExitCode;
use std::rt::{Env, Files};
use std::sync::{Arc, Wait};
use std::thread::Threads;
use std::time::Clock;
use streams::device::Device;
use streams::sink::Sink;
use streams::source::Source;
use streams::stream_fault::StreamFault;
use streams::until_end::UntilEnd;
use streams::watched::Watched;
use tasks::ending::status_of_end;
use tasks::explain::{explain, tell_unread, write_told};
use tasks::fault::{Fault, RunOption};
use tasks::names::names_of;
use tasks::perform::perform_with;
use tasks::ran::Ran;
use tasks::run_script::{run_script, script_of};
use tasks::timed::{Timed, run_within, tell_late};

/// What is said on a terminal if only the program's name was given.
const KEYBOARD: &[u8] =
    b"aqs: reads a steps text from the keyboard; aqs manual says what else it does\n";

/// Returns the names of the file that has them, or none.
fn names_in<R: Files + AllocGlobal>(rt: &R, file: Option<&str>) -> Result<Names, Fault> {
    let Some(name) = file else {
        return Ok(Names::none(rt.alloc()));
    };
    match File::open(rt, name) {
        Ok(file) => names_of(rt.alloc(), &mut UntilEnd::new(Device::new(file))),
        Err(_) => Err(Fault::Stream(StreamFault::ReadFailed)),
    }
}

/// Does a job, with the text from a source.
fn work<R: AllocGlobal + Threads + Wait + Clock + Sync, S: Source, W: Sink>(
    rt: &R,
    job: Job,
    names: &Names,
    reader: &mut S,
    writer: &mut W,
) -> Result<u8, Fault>
    requires reader { S.failed reader.old ≡ false }
    requires writer { W.failed writer.old ≡ false }
    ensures works { Works names.now job (S.left reader.old) (W.held writer.old) (W.held writer.new) result }
    ensures end { IsReadFor job (S.left reader.old) result (S.left reader.new) }
    ensures read { IsErrOf result (Stream ReadFailed) ↔ IsTrue (S.failed reader.new) }
    ensures write { IsErrOf result (Stream WriteFailed) ↔ IsTrue (W.failed writer.new) }
{
    match job {
        Job::Answer(task) => perform_with(rt.alloc(), names, reader, writer, task),
        Job::Explain(at, notation) => explain(rt.alloc(), reader, writer, at, notation),
        Job::Run => run_script(rt, reader, writer),
        Job::Tell(page) => write_told(writer, page_text(page), 0),
    }
}

/// Does a job, with the text from a reader. The terminal is told how much of the text was read.
fn finish<R: AllocGlobal + Threads + Wait + Clock + Sync, I: Read + Drop, E: Write + Drop, W: Sink>(
    rt: &R,
    job: Job,
    names: &Names,
    input: I,
    progress: Progress<E>,
    writer: &mut W,
) -> Result<u8, Fault>
    requires { W.failed writer.old ≡ false }
    ensures works { Works names.now job (I.remaining input) (W.held writer.old) (W.held writer.new) result }
    ensures write { IsErrOf result (Stream WriteFailed) ↔ IsTrue (W.failed writer.new) }
{
    let mut reader = Watched::new(UntilEnd::new(Device::new(input)), progress);
    let done = work(rt, job, names, &mut reader, writer);
    reader.end();
    done
}

/// Returns the fault of a text that can't be read. An explanation says why instead.
fn unread<R: AllocGlobal, W: Sink>(
    rt: &R,
    job: Job,
    file: Option<&str>,
    reason: &io::Error,
    writer: &mut W,
) -> Result<u8, Fault>
    requires { W.failed writer.old ≡ false }
{
    let Job::Explain(_, notation) = job else {
        return Err(Fault::Stream(StreamFault::ReadFailed));
    };
    let reason = format!(in rt.alloc(); "{reason}")?;
    let name = file.unwrap_or("standard input");
    tell_unread(rt.alloc(), writer, name, &reason, notation)
}

/// Returns the place of the object that is asked for.
fn place_in(script: &Script, object: Option<&str>) -> Result<Option<usize>, Fault> {
    match object {
        None => Ok(None),
        Some(name) => match script.objects().get_index_of(name) {
            Some(place) => Ok(Some(place)),
            None => Err(Fault::BadRunOption(RunOption::Object)),
        },
    }
}

/// Writes the history of the object at a place, or else the run text.
fn write_ran<R: AllocGlobal, W: Sink>(
    rt: &R,
    ran: Ran,
    place: Option<usize>,
    writer: &mut W,
) -> Result<u8, Fault>
    requires { W.failed writer.old ≡ false }
{
    match place {
        None => ran.write(rt.alloc(), writer),
        Some(place) => match ran.object(place) {
            Some((_, part)) => {
                write_history(rt.alloc(), part, writer)?;
                Ok(0)
            }
            None => Err(Fault::BadRunOption(RunOption::Object)),
        },
    }
}

/// Returns the script of a reader. The terminal is told how much of it was read.
fn script_in<I: Read + Drop, E: Write + Drop>(
    alloc: Global,
    input: I,
    progress: Progress<E>,
) -> Result<Script, Fault>
    ensures ok { IfOk result (λ script. IfSome (I.remaining input) (λ text. Reads text (Ok script))) }
    ensures err { IfErr result (IsFaultOfScript (I.remaining input)) }
{
    let mut reader = Watched::new(UntilEnd::new(Device::new(input)), progress);
    let script = script_of(alloc, &mut reader);
    reader.end();
    script
}

/// Runs the threads of a script, and does what its options ask for. A terminal is told of a long run.
fn run_with<
    R: Files + AllocGlobal + Threads + Wait + Clock + Sync + Send + Copy + 'static,
    E: Write + Drop,
    W: Sink,
>(
    rt: &R,
    options: &RunOptions,
    script: Script,
    terminal: &mut Option<E>,
    writer: &mut W,
    left: &mut Left,
) -> Result<u8, Fault>
    requires { W.failed writer.old ≡ false }
{
    let Ok(script) = Arc::new(rt.alloc(), script) else {
        return Err(Fault::Memory);
    };
    let place = place_in(&*script, options.object.as_ref().map(|name| name.as_str()))?;
    if let Some(folder) = &options.dir {
        left.choose(rt, folder.as_str(), &*script)?;
    }
    let ran = match run_within(rt, script, options.timeout, options.keep, terminal)? {
        Timed::Ended(ran) => ran,
        Timed::Late(text) => return tell_late(writer, &text),
    };
    left.write(rt, &ran)?;
    write_ran(rt, ran, place, writer)
}

/// Does a job, with the text of a file or else of standard input.
fn answer<
    R: Files + AllocGlobal + Threads + Wait + Clock + Sync + Send + Copy + 'static,
    I: Read + Drop,
    O: Write + Drop,
    E: IsTerminal + Write + Drop,
>(rt: &R, asked: &Asked, given: I, output: O, mut error: E, left: &mut Left) -> Result<u8, Fault> {
    let job = asked.job;
    let file = asked.file.as_ref().map(|name| name.as_str());
    let names = names_in(rt, asked.names.as_ref().map(|name| name.as_str()))?;
    let mut writer = Device::new(output);
    let origin = match file {
        None => Origin::Given(given),
        Some(name) => match File::open(rt, name) {
            Ok(file) => Origin::Named(file),
            Err(error) => return unread(rt, job, file, &error, &mut writer),
        },
    };
    let mut input = Input::new(origin);
    let is_terminal = error.is_terminal();
    let progress = Progress::new(rt.alloc(), &mut error, is_terminal, input.size());
    if let Some(options) = &asked.options {
        let script = script_in(rt.alloc(), &mut input, progress)?;
        let mut terminal = if is_terminal { Some(error) } else { None };
        return run_with(rt, options, script, &mut terminal, &mut writer, left);
    }
    let done = finish(rt, job, &names, &mut input, progress, &mut writer);
    match (done, input.failure()) {
        (Err(Fault::Stream(StreamFault::ReadFailed)), Some(error)) => {
            unread(rt, job, file, error, &mut writer)
        }
        (done, _) => done,
    }
}

/// Says on a terminal that a steps text is read from the keyboard.
fn tell_of_keyboard<I: IsTerminal, E: IsTerminal + Write>(given: &I, error: &mut E) {
    if given.is_terminal() && error.is_terminal() {
        let _ = error.write_all(KEYBOARD);
    }
}

/// Does what the words ask for.
fn run<
    R: Files + AllocGlobal + Threads + Wait + Clock + Sync + Send + Copy + 'static,
    S: AsStr,
    I: IsTerminal + Read + Drop,
    O: Write + Drop,
    E: IsTerminal + Write + Drop,
>(rt: &R, words: &[S], given: I, output: O, mut error: E) -> Result<u8, Fault> {
    let asked = arguments(rt.alloc(), words, error.is_terminal())?;
    if words.len() < 2 {
        tell_of_keyboard(&given, &mut error);
    }
    let named = asked.output.as_ref().map(|name| name.as_str());
    let mut output: Output<O, R::File> = open(rt, output, named)?;
    let mut left = Left::new(rt.alloc());
    let done = answer(rt, &asked, given, &mut output, error, &mut left);
    let done = close(rt, output, done);
    if done.is_err() {
        left.remove(rt);
    }
    done
}

/// Returns the words of the command line.
fn words<R: Env + AllocGlobal>(rt: &R) -> Result<Vec<String>, Fault> {
    match env::args(rt) {
        Ok(words) => Ok(words.collect(rt.alloc())?),
        Err(error) => match error.kind() {
            io::ErrorKind::OutOfMemory => Err(Fault::Memory),
            _ => Err(Fault::Usage),
        },
    }
}

fn main(rt: HostRuntime) -> ExitCode {
    let done = match words(&rt) {
        Ok(words) => run(&rt, &words, rt.stdin(), rt.stdout(), rt.stderr()),
        Err(fault) => Err(fault),
    };
    ExitCode::from(status_of_end(&rt, done))
}
