//! Runs of scripts, and their texts.

ghost use Rattle.std.specs.Prelude.{◌<◌};

use run_text::RunText;
use script::read_script;
use std::process::Abort;
use std::sync::Wait;
use std::thread::Threads;
use std::time::Clock;
use streams::device::Device;
use workers::{Gate, Keep, RunFault, run_threads};

/// Runs the script of a text, and writes the run text over what was there. Returns the fault if there is
/// none.
pub fn run<G: Gate + Sync, R: Abort + Threads + Wait + Clock + AllocGlobal + Sync>(
    rt: &R,
    text: &str,
    gate: &G,
    written: &mut Vec<u8>,
) -> Option<RunFault> {
    written.clear();
    let script = read_script(rt.alloc(), text.as_bytes()).expect(rt, "a script");
    let report = match run_threads(rt, rt.alloc(), &script, gate, Keep::Each) {
        Ok(report) => report,
        Err(fault) => return Some(fault),
    };
    let text = RunText::of(rt.alloc(), &script, report).expect(rt, "memory");
    text.write(&mut Device::new(&mut *written))
        .expect(rt, "a device");
    None
}

/// Returns how often a part is in a text.
pub fn count_of(text: &[u8], part: &str) -> usize {
    (0..text.len())
        .filter(|at| text[*at..].starts_with(part.as_bytes()))
        .count()
}

/// Returns a list of `count` texts. Between the two halves of each is its number, below `end` in turn.
pub fn list_of<R: Abort + AllocGlobal>(rt: &R, halves: (&str, &str), count: u32, end: u32) -> String
    requires { 0 < end }
{
    let (before, behind) = halves;
    let mut list = String::new(rt.alloc());
    for number in 0..count {
        let comma = if number == 0 { "" } else { "," };
        let number = number % end;
        let item = format!(in rt.alloc(); "{comma}{before}{number}{behind}").expect(rt, "memory");
        list.push_str(&item).expect(rt, "memory");
    }
    list
}

/// Returns a script of these objects and threads.
pub fn script_of<R: Abort + AllocGlobal>(rt: &R, objects: &str, threads: &str) -> String {
    format!(in rt.alloc(); "{{\"objects\":[{objects}],\"threads\":[{threads}]}}").expect(
        rt, "memory",
    )
}
