//! JSON that stands in a page.

ghost use Rattle.std.specs.Prelude.{◌≡◌, ◌++◌, ◌∷◌, [], OnOk};
ghost use Rattle.web_page.specs.Escape.{escaped, escaped_byte};

use std::alloc::AllocError;

/// Appends a byte of JSON. One that could begin a tag or an entity, or end an attribute, is written by its
/// code: in JSON it stands in strings alone.
fn put_byte(out: &mut Vec<u8>, byte: u8) -> Result<(), AllocError>
    ensures { OnOk result (out.new.items ≡ out.old.items ++ escaped_byte byte) }
{
    match byte {
        b'&' => out.extend_from_slice(b"\\u0026"),
        b'\'' => out.extend_from_slice(b"\\u0027"),
        b'<' => out.extend_from_slice(b"\\u003c"),
        b'>' => out.extend_from_slice(b"\\u003e"),
        _ => Ok(out.push(byte)?),
    }
}

/// Appends JSON, escaped.
pub(crate) fn put_escaped(out: &mut Vec<u8>, json: &[u8]) -> Result<(), AllocError>
    ensures { OnOk result (out.new.items ≡ out.old.items ++ escaped json.now) }
{
    for byte in json {
        put_byte(out, *byte)?;
    }
    Ok(())
}
