//! A steps text, and its reading.

ghost use Rattle.steps.specs.StepsText.{Reads};

use crate::header::StepsHeader;
use crate::next_line::{header_of, next_line};
use frame::acts::Act;
use std::alloc::Global;
use streams::fault::ReadFault;

/// About the length of a step's line. Memory for the list of acts is reserved for lines of this length.
const LINE_LENGTH: usize = 12;

/// A header, and the steps of its object's seats. In format 2 there may be trims between them.
#[derive(Debug, Drop)]
pub struct StepsText {
    pub header: StepsHeader,
    pub acts: Vec<Act>,
}

/// Returns the header and the acts that a text spells, or its first fault, or lack of memory.
pub fn read_steps(alloc: Global, text: &[u8]) -> Result<StepsText, ReadFault>
    ensures { Reads text.now result }
{
    let (header, mut rest) = header_of(text)?;
    let mut acts = Vec::with_capacity(alloc, text.len() / LINE_LENGTH)?;
    while let Some((act, left)) = next_line(rest, &header, acts.len() as u64)? {
        acts.push(act)?;
        rest = &rest[rest.len() - left..];
    }
    Ok(StepsText { header, acts })
}
