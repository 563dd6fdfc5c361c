//! The text of an audit.

ghost use Rattle.std.specs.Prelude.{List, IfOk};
ghost use Rattle.audit.specs.Verdict.{verdict_of};
ghost use Rattle.history.specs.declared.entry.Entry.{Entry};
ghost use Rattle.driver.specs.Telling.{Tells};
ghost use Rattle.driver.specs.inner.Judged.{IsJudged, IsJudgedFor};
ghost use Rattle.driver.specs.declared.telling.Telling.TheVariants.{Audit};

use crate::audit_json::audit_json;
use crate::audit_text::audit_text;
use crate::judged::Judged;
use crate::notation::Notation;
use std::alloc::{AllocError, Global};

/// Returns the audit of a history in a notation.
pub(crate) fn audited_text(
    alloc: Global,
    notation: Notation,
    judged: &Judged,
) -> Result<Vec<u8>, AllocError>
    requires { IsJudgedFor (Audit notation) judged.now }
    ensures { IfOk result (λ text. (h : List Entry) → IsJudged (Audit notation) h judged.now →
        Tells (Audit notation) judged.now.base h (verdict_of judged.now.judgement) text.items) }
{
    let header = judged.header();
    let folded = judged.folded();
    let entries = folded + judged.count;
    let judgement = &judged.judgement;
    match notation {
        Notation::Lines => audit_text(
            alloc,
            header.object,
            folded,
            entries,
            judged.calls,
            judgement,
        ),
        Notation::Json => audit_json(
            alloc,
            header.object,
            folded,
            entries,
            judged.calls,
            judgement,
        ),
    }
}
