//! The numbers of seats and conditions, with the names that were given to them. No other module writes a
//! name.

ghost use Rattle.std.specs.Prelude.{◌≡◌, ◌++◌, ◌∷◌, [], OnOk};
ghost use Rattle.picture.specs.declared.naming.whom.Whom.TheVariants.{Condition, Seat};
ghost use Rattle.picture.specs.Escaping.{escaped, escaped_byte, told, told_of};

use crate::naming::{Names, Whom};
use history::number::put_number;
use std::alloc::AllocError;

/// Appends a byte of a name. One that could begin a tag or an entity is written by its entity.
fn put_byte(out: &mut Vec<u8>, byte: u8) -> Result<(), AllocError>
    ensures { OnOk result (out.new.items ≡ out.old.items ++ escaped_byte byte) }
{
    if byte == b'&' {
        out.extend_from_slice(b"&amp;")
    } else if byte == b'<' {
        out.extend_from_slice(b"&lt;")
    } else if byte == b'>' {
        out.extend_from_slice(b"&gt;")
    } else {
        out.push(byte)?;
        Ok(())
    }
}

/// Appends a name, escaped.
pub(crate) fn put_escaped(out: &mut Vec<u8>, name: &[u8]) -> Result<(), AllocError>
    ensures { OnOk result (out.new.items ≡ out.old.items ++ escaped name.now) }
{
    for byte in name {
        put_byte(out, *byte)?;
    }
    Ok(())
}

/// Appends a number behind some words, with its name if it has one.
fn put_told(out: &mut Vec<u8>, words: &[u8], number: u64, name: &[u8]) -> Result<(), AllocError>
    ensures { OnOk result (out.new.items ≡ out.old.items ++ told words.now number name.now) }
{
    out.extend_from_slice(words)?;
    put_number(out, number)?;
    if name.len() == 0 {
        return Ok(());
    }
    out.extend_from_slice(b" (")?;
    put_escaped(out, name)?;
    out.extend_from_slice(b")")
}

/// Appends the number of a seat, with its name.
pub(crate) fn put_seat(
    out: &mut Vec<u8>,
    names: &Names,
    words: &[u8],
    seat: u16,
) -> Result<(), AllocError>
    ensures { OnOk result (out.new.items ≡ out.old.items ++ told_of names.now words.now seat (Seat seat)) }
{
    put_told(out, words, u64::from(seat), names.of(Whom::Seat(seat)))
}

/// Appends the number of a condition, with its name.
pub(crate) fn put_condition(
    out: &mut Vec<u8>,
    names: &Names,
    words: &[u8],
    condition: u8,
) -> Result<(), AllocError>
    ensures { OnOk result (out.new.items
        ≡ out.old.items ++ told_of names.now words.now condition (Condition condition)) }
{
    put_told(
        out,
        words,
        u64::from(condition),
        names.of(Whom::Condition(condition)),
    )
}
