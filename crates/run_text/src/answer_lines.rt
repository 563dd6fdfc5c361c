//! The lines of answers that no history records.

ghost use Rattle.std.specs.Prelude.{◌≡◌, ◌++◌, OnOk};
ghost use Rattle.run_text.specs.Unrecorded.{answer_line, answer_lines};
ghost use Rattle.script.specs.Script.{named};

use crate::call_text::put_call;
use history::header::Header;
use history::number::put_number;
use indexmap::IndexMap;
use std::alloc::AllocError;
use workers::Unrecorded;

/// Appends the line of an answer. On an error only its first bytes may have been appended, here and below.
fn put_answer(
    out: &mut Vec<u8>,
    objects: &IndexMap<String, Header>,
    answer: &Unrecorded,
) -> Result<(), AllocError>
    ensures { OnOk result (out.new.items
        ≡ out.old.items ++ answer_line (named objects.now.entries) answer.now) }
{
    out.extend_from_slice(b"thread ")?;
    put_number(out, u64::from(answer.thread))?;
    out.extend_from_slice(b" call ")?;
    put_number(out, answer.number)?;
    out.extend_from_slice(b" ")?;
    out.extend_from_slice(answer.fault.name().as_bytes())?;
    out.extend_from_slice(b" ")?;
    put_call(out, objects, answer.call)?;
    out.extend_from_slice(b"\n")
}

/// Appends the lines of answers, in order.
pub(crate) fn put_answers(
    out: &mut Vec<u8>,
    objects: &IndexMap<String, Header>,
    answers: &[Unrecorded],
) -> Result<(), AllocError>
    ensures { OnOk result (out.new.items
        ≡ out.old.items ++ answer_lines (named objects.now.entries) answers.now) }
{
    for answer in answers {
        put_answer(out, objects, answer)?;
    }
    Ok(())
}
