//! A folder in which a run leaves histories.

ghost use Rattle.workers.specs.Reports.{IsSound};

use run_text::write_history;
use script::Script;
use std::alloc::Global;
use std::fs::{self, File};
use std::io::ErrorKind;
use std::rt::Files;
use streams::device::Device;
use streams::stream_fault::StreamFault;
use tasks::fault::{Fault, RunOption};
use tasks::ran::Ran;
use workers::ObjectReport;

/// The fault of a folder that is none, or has a file of an object's name.
const BAD: Fault = Fault::BadRunOption(RunOption::Dir);

/// The files in which a run leaves the histories of its objects.
#[derive(Drop)]
pub struct Left {
    /// The names, one for each object in the script's order.
    names: Vec<String>,
    /// How many of them the run has made.
    made: usize,
}

/// Whether something has this name, or may have it.
fn is_taken(rt: &impl Files, name: &str) -> bool {
    match fs::symlink_metadata(rt, name) {
        Ok(_) => true,
        Err(error) => !matches!(error.kind(), ErrorKind::NotFound),
    }
}

/// Writes a history into a file that was made for it.
fn write_into<R: Files + AllocGlobal>(
    rt: &R,
    file: R::File,
    part: &ObjectReport,
) -> Result<(), Fault>
    requires { IsSound part.now }
{
    Ok(write_history(rt.alloc(), part, &mut Device::new(file))?)
}

impl Left {
    /// Returns no files.
    pub fn new(alloc: Global) -> Self {
        Left {
            names: Vec::new(alloc),
            made: 0,
        }
    }

    /// Chooses the files: NAME.history in the folder, for each object. An object's name is a plain file name,
    /// since it has no other characters than `a` to `z`, `0` to `9` and `-`.
    ///
    /// # Errors
    ///
    /// `bad --dir` if there is no such folder, or if it has something of one of these names.
    pub fn choose<R: Files + AllocGlobal>(
        &mut self,
        rt: &R,
        folder: &str,
        script: &Script,
    ) -> Result<(), Fault> {
        match fs::metadata(rt, folder) {
            Ok(found) if found.is_dir() => {}
            _ => return Err(BAD),
        }
        for (name, _) in script.objects().iter() {
            let name = format!(in rt.alloc(); "{folder}/{name}.history")?;
            if is_taken(rt, name.as_str()) {
                return Err(BAD);
            }
            let Ok(()) = self.names.push(name) else {
                return Err(Fault::Memory);
            };
        }
        Ok(())
    }

    /// Makes the files, and writes the history of each object into its own.
    pub fn write<R: Files + AllocGlobal>(&mut self, rt: &R, ran: &Ran) -> Result<(), Fault> {
        for place in 0..self.names.len() {
            let Some(name) = self.names.get(place) else {
                return Ok(());
            };
            let Some((_, part)) = ran.object(place) else {
                return Ok(());
            };
            let Ok(file) = File::create_new(rt, name.as_str()) else {
                return Err(Fault::Stream(StreamFault::WriteFailed));
            };
            self.made = place + 1;
            write_into(rt, file, part)?;
        }
        Ok(())
    }

    /// Removes the files that were made.
    pub fn remove<R: Files>(&self, rt: &R) {
        for place in 0..self.made {
            if let Some(name) = self.names.get(place) {
                let _ = fs::remove_file(rt, name.as_str());
            }
        }
    }
}
