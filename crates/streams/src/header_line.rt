//! The first line of a text: its name and version, and the object part of a header.

ghost use Rattle.std.specs.Prelude.{◌≡◌, ◌≢◌, ◌++◌, ◌≤◌, IfSome, IfNone, IfOk, IfErr, length};
ghost use Rattle.history.specs.declared.header.Header.{Header};
ghost use Rattle.history.specs.Header.{IsInRange};
ghost use Rattle.history.specs.Spelling.{part_of};
ghost use Rattle.streams.specs.HeaderLine.{BeginsWithHeader, LacksHeader};

use crate::fault::TextFault;
use history::header::Header;
use history::text::{behind, first_line};

/// Returns the header that this line spells after the name and version of its form of text.
fn header_behind(name: &[u8], line: &[u8]) -> Option<Header>
    ensures found { IfSome result (λ h. IsInRange h × (line.now ≡ name.now ++ part_of h)) }
    ensures none { IfNone result ((h : Header) → IsInRange h → line.now ≢ name.now ++ part_of h) }
{
    Header::read_part(behind(name, line)?)
}

/// Returns the header that a text begins with, after the name and version of its form, and what follows its
/// line.
pub fn first_header<'a>(name: &[u8], text: &'a [u8]) -> Result<(Header, &'a [u8]), TextFault>
    ensures ok { IfOk result (BeginsWithHeader name.now text.entry.now) }
    ensures err { IfErr result (LacksHeader name.now text.entry.now) }
    ensures shorter { IfOk result (λ r. length r.1.now ≤ length text.entry.now) }
{
    let Some((line, after)) = first_line(text) else {
        return Err(TextFault::CutShort);
    };
    match header_behind(name, line) {
        Some(header) => Ok((header, after)),
        None => Err(TextFault::BadHeader),
    }
}
