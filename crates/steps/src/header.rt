//! The first line of a steps text.

ghost use Rattle.std.specs.Prelude.{◌≡◌, ◌≢◌, IfSome, IfNone};
ghost use Rattle.history.specs.Header.{IsInRange};
ghost use Rattle.steps.specs.declared.header.StepsHeader.{StepsHeader};
ghost use Rattle.steps.specs.StepLines.{header_line, name_of};

use history::header::Header;
use history::text::behind;

/// Which lines a steps text may have.
#[derive(Clone, Copy, Debug, PartialEq, Eq)]
pub enum Format {
    /// Steps alone.
    One,
    /// Steps, and trims between them.
    Two,
}

/// The first line of a steps text: its format, and the object.
#[derive(Clone, Copy, Debug, PartialEq, Eq)]
pub struct StepsHeader {
    pub format: Format,
    pub header: Header,
}

/// Returns the beginning of the first line.
fn name_of(format: Format) -> &'static [u8]
    ensures { result.now ≡ name_of format }
{
    match format {
        Format::One => b"aqs-steps 1 ",
        Format::Two => b"aqs-steps 2 ",
    }
}

/// Returns the header that this line spells, in this format.
fn header_in(format: Format, line: &[u8]) -> Option<StepsHeader>
    ensures found { IfSome result (λ h. IsInRange h.header × (line.now ≡ header_line h)) }
    ensures none { IfNone result ((h : StepsHeader) → h.format ≡ format → IsInRange h.header →
        line.now ≢ header_line h) }
{
    let header = Header::read_part(behind(name_of(format), line)?)?;
    Some(StepsHeader { format, header })
}

/// Returns the header that this line spells.
pub fn header_on(line: &[u8]) -> Option<StepsHeader>
    ensures found { IfSome result (λ h. IsInRange h.header × (line.now ≡ header_line h)) }
    ensures none { IfNone result ((h : StepsHeader) → IsInRange h.header → line.now ≢ header_line h) }
{
    match header_in(Format::One, line) {
        Some(header) => Some(header),
        None => header_in(Format::Two, line),
    }
}
