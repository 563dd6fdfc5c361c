//! Writing the text of a history.

ghost use Rattle.std.specs.Prelude.{◌≡◌, ◌≤◌, ◌++◌, All, IfOk, IfErr, OnErr, OnOk, length, reverse, take};
ghost use Rattle.std.specs.Option.{option_copied};
ghost use Rattle.history_text.specs.Below.{OutOfMemory, IsBasedWell, base_on, or_opening, IsSpelt, IsBaseOf, IsGood, IsInRange, part_of, ended};
ghost use Rattle.history_text.specs.BaseText.{IsHeadPut};
ghost use Rattle.history_text.specs.Pieces.{history_text};

use crate::base_writing::{calls_of, put_base};
use crate::entry_line::{put_counts, put_entry};
use history::base::Base;
use history::entries::History;
use history::fault::Fault;
use history::header::Header;
use history::number::Numbering;
use std::alloc::{AllocError, Global};

/// More than the length of most entries' lines. Memory is reserved for lines of this length.
const LINE_LENGTH: usize = 32;

/// Returns the text of a history under its header, which is its base's header.
///
/// If the history [`fits`](crate::fitting::fits) its header, this is a history text and can be read again. To
/// be written, its base need only be good, and its entries be spelt.
pub fn write_text(alloc: Global, header: &Header, history: &History) -> Result<Vec<u8>, Fault>
    requires range { IsInRange header.now }
    requires base { IsBaseOf header.now (base_on header.now history.now) }
    requires spelt { All IsSpelt (reverse history.now.entries) }
    ensures ok { IfOk result (λ text. text.items
        ≡ history_text (base_on header.now history.now) history.now.entries) }
    ensures err { IfErr result (λ fault. fault ≡ OutOfMemory) }
{
    match written(alloc, header, history) {
        Ok(text) => Ok(text),
        Err(_) => Err(Fault::OutOfMemory),
    }
}

#[tactic(auto, using(crate::proofs::Heads::based_well))]
fn written(alloc: Global, header: &Header, history: &History) -> Result<Vec<u8>, AllocError>
    requires range { IsInRange header.now }
    requires base { IsBaseOf header.now (base_on header.now history.now) }
    requires spelt { All IsSpelt (reverse history.now.entries) }
    ensures { IfOk result (λ text. text.items
        ≡ history_text (base_on header.now history.now) history.now.entries) }
{
    let mut out = Vec::with_capacity(alloc, (history.len() as usize).saturating_mul(LINE_LENGTH))?;
    let (folded, _) = put_head(&mut out, header, history.base())?;
    let mut numbering = Numbering::new();
    let mut number = 0;
    while let Some(entry) = history.get(number) {
        put_entry(&mut out, &mut numbering, folded + number, &entry)?;
        out.push(b'\n')?;
        number += 1;
    }
    put_counts(&mut out, folded + history.len(), history.calls())?;
    out.push(b'\n')?;
    Ok(out)
}

/// Appends the first line and the lines of a base. Returns how many entries were folded, and how many calls
/// they ended. On an error the bytes are as before.
pub fn put_head(
    out: &mut Vec<u8>,
    header: &Header,
    base: Option<&Base>,
) -> Result<(u64, u64), AllocError>
    requires range { IsInRange header.now }
    requires base { IsBasedWell header.now (option_copied base) }
    ensures ok { IfOk result (λ r. IsHeadPut (or_opening header.now (option_copied base.entry)) out.old.items
        out.new.items r.0 r.1) }
    ensures err { OnErr result (out.new.items ≡ out.old.items) }
{
    let before = out.len();
    match put_any_head(out, header, base) {
        Ok(counts) => Ok(counts),
        Err(AllocError) => {
            out.truncate(before);
            Err(AllocError)
        }
    }
}

/// Appends the head of a history on a base or on none. On an error only the first bytes may have been
/// appended.
fn put_any_head(
    out: &mut Vec<u8>,
    header: &Header,
    base: Option<&Base>,
) -> Result<(u64, u64), AllocError>
    requires range { IsInRange header.now }
    requires base { IsBasedWell header.now (option_copied base) }
    ensures ok { IfOk result (λ r. IsHeadPut (or_opening header.now (option_copied base.entry)) out.old.items
        out.new.items r.0 r.1) }
    ensures err { OnErr result (take (length out.old.items) out.new.items ≡ out.old.items) }
{
    if let Some(base) = base {
        if base.entries != 0 {
            return put_base_head(out, header, base);
        }
    }
    put_first_line(out, b"aqs-history 1 ", header)?;
    Ok((0, 0))
}

fn put_base_head(out: &mut Vec<u8>, header: &Header, base: &Base) -> Result<(u64, u64), AllocError>
    requires range { IsInRange header.now }
    requires some { 1 ≤ base.now.entries }
    requires base { (base.now.header ≡ header.now) × IsGood base.now }
    ensures ok { IfOk result (λ r. IsHeadPut base.now out.old.items out.new.items r.0 r.1) }
    ensures err { OnErr result (take (length out.old.items) out.new.items ≡ out.old.items) }
{
    put_first_line(out, b"aqs-history 2 ", header)?;
    put_base(out, base)?;
    Ok((base.entries as u64, calls_of(&base.seats)))
}

/// Appends the name of a format, the object part and the line break. On an error only the first bytes may have
/// been appended.
fn put_first_line(out: &mut Vec<u8>, name: &[u8], header: &Header) -> Result<(), AllocError>
    requires { IsInRange header.now }
    ensures ok { OnOk result (out.new.items ≡ out.old.items ++ ended (name.now ++ part_of header.now)) }
    ensures err { OnErr result (take (length out.old.items) out.new.items ≡ out.old.items) }
{
    out.extend_from_slice(name)?;
    header.write_part(out).map_err(|_| AllocError)?;
    out.push(b'\n')?;
    Ok(())
}
