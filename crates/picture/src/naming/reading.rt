//! Reading a text of names.

ghost use Rattle.std.specs.Prelude.{◌≡◌, IfOk};
ghost use Rattle.picture.specs.Reading.{NamesRead, after_line};
ghost use Rattle.picture.specs.inner.{given_if};

use crate::naming::fault::NamesFault;
use crate::naming::line::naming_of;
use crate::naming::names::Names;
use history::text::first_line;
use std::alloc::{AllocError, Global};

/// Gives the name of a line, and returns whether the line is right: it gives a name, and no second one.
fn take_line(alloc: Global, names: &mut Names, line: &[u8]) -> Result<bool, AllocError>
    ensures { IfOk result (λ is_right. given_if is_right names.new ≡ after_line names.old line.now) }
{
    let Some((whom, name)) = naming_of(line) else {
        return Ok(false);
    };
    if names.of(whom).len() > 0 {
        return Ok(false);
    }
    names.give(alloc, whom, name)?;
    Ok(true)
}

/// Returns the names that a text gives, or the first line that is wrong.
pub fn read_names(alloc: Global, text: &[u8]) -> Result<Names, NamesFault>
    ensures { NamesRead text.now result }
{
    let mut names = Names::none(alloc);
    let mut rest = text;
    let mut number = 1;
    'lines: while let Some((line, after)) = first_line(rest) {
        match take_line(alloc, &mut names, line) {
            Err(_) => return Err(NamesFault::OutOfMemory),
            Ok(false) => return Err(NamesFault::BadNaming(number)),
            Ok(true) => {}
        }
        rest = after;
        number += 1;
    }
    if rest.len() > 0 {
        return Err(NamesFault::BadNaming(number));
    }
    Ok(names)
}
