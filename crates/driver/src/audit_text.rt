//! The audit text.

ghost use Rattle.std.specs.Prelude.{◌≡◌, ◌+◌, ◌<◌, ◌^◌, ◌++◌, List, IfOk, OnOk, length};
ghost use Rattle.std.specs.Fmt.{signed_decimal};
ghost use Rattle.driver.specs.Below.{IsJudgement, verdict_of, Entry, Base, based, ended};
ghost use Rattle.history.specs.Legal.{calls as history_calls};
ghost use Rattle.driver.specs.AuditText.{audit_text, base_line, before_wrong, legal_text, number_line, totals_line};
ghost use Rattle.driver.specs.AuditText.{holds_line, permits_line, count_line};

use audit::sums::Totals;
use audit::verdict::Judgement;
use history::header::Object;
use history::number::put_number;
use itoa::Buffer;
use std::alloc::{AllocError, Global};

/// Returns the audit text for this judgement. `folded` counts the entries that were folded, `entries` all
/// entries with these, and `calls` the entries that end a call.
pub fn audit_text(
    alloc: Global,
    object: Object,
    folded: u64,
    entries: u64,
    calls: u64,
    judgement: &Judgement,
) -> Result<Vec<u8>, AllocError>
    requires { folded + before_wrong (verdict_of judgement.now) < 2 ^ 64 }
    ensures { (b : Base) (h : List Entry) → b.header.object ≡ object → folded ≡ b.entries →
        entries ≡ b.entries + length h → calls ≡ history_calls (based b) h →
        IsJudgement (based b) h judgement.now →
        IfOk result (λ text. text.items ≡ audit_text b h (verdict_of judgement.now)) }
{
    match judgement {
        Judgement::Legal(totals) => legal_text(alloc, object, folded, entries, calls, totals),
        Judgement::NotLegal(number) => {
            let mut out = Vec::new(alloc);
            put_line(&mut out, b"not legal at ", folded + *number)?;
            Ok(out)
        }
    }
}

/// Returns the audit text of a legal history with these totals.
fn legal_text(
    alloc: Global,
    object: Object,
    folded: u64,
    entries: u64,
    calls: u64,
    totals: &Totals,
) -> Result<Vec<u8>, AllocError>
    ensures { IfOk result (λ text. text.items ≡ legal_text object folded entries calls totals.now) }
{
    let mut out = Vec::from_slice(alloc, b"legal\n")?;
    put_base(&mut out, folded)?;
    put_line(&mut out, b"entries ", entries)?;
    put_line(&mut out, b"calls ", calls)?;
    put_totals(&mut out, object, totals)?;
    out.push(b'\n')?;
    Ok(out)
}

/// Appends the line of a base, if entries were folded. On an error only its first bytes may have been
/// appended.
fn put_base(out: &mut Vec<u8>, folded: u64) -> Result<(), AllocError>
    ensures { OnOk result (out.new.items ≡ out.old.items ++ base_line folded) }
{
    if folded > 0 {
        put_line(out, b"base ", folded)?;
    }
    Ok(())
}

/// Appends a line of a name and a number. On an error only its first bytes may have been appended.
pub fn put_line(out: &mut Vec<u8>, name: &[u8], number: u64) -> Result<(), AllocError>
    ensures { OnOk result (out.new.items ≡ out.old.items ++ ended (number_line name.now number)) }
{
    out.extend_from_slice(name)?;
    put_number(out, number)?;
    out.push(b'\n')?;
    Ok(())
}

/// Appends the totals of the object's kind. On an error only their first bytes may have been appended.
fn put_totals(out: &mut Vec<u8>, object: Object, totals: &Totals) -> Result<(), AllocError>
    ensures { OnOk result (out.new.items ≡ out.old.items ++ totals_line object totals.now) }
{
    match object {
        Object::Lock(_) => put_holds(out, totals),
        Object::ReadWrite(_) => put_holds(out, totals),
        Object::Semaphore(_, _) => put_permits(out, totals),
        Object::Latch(_) => put_count(out, totals),
    }
}

fn put_holds(out: &mut Vec<u8>, totals: &Totals) -> Result<(), AllocError>
    ensures { OnOk result (out.new.items ≡ out.old.items ++ holds_line totals.now) }
{
    put_total(out, b"holds x ", &totals.x)?;
    put_total(out, b" s ", &totals.s)?;
    put_total(out, b" line ", &totals.line)?;
    put_total(out, b" sleepers ", &totals.sleepers)?;
    Ok(())
}

fn put_permits(out: &mut Vec<u8>, totals: &Totals) -> Result<(), AllocError>
    ensures { OnOk result (out.new.items ≡ out.old.items ++ permits_line totals.now) }
{
    put_total(out, b"held ", &totals.held)?;
    put_total(out, b" free ", &totals.free)?;
    put_total(out, b" created ", &totals.created)?;
    put_total(out, b" unheld ", &totals.unheld)?;
    put_total(out, b" line ", &totals.line)?;
    Ok(())
}

fn put_count(out: &mut Vec<u8>, totals: &Totals) -> Result<(), AllocError>
    ensures { OnOk result (out.new.items ≡ out.old.items ++ count_line totals.now) }
{
    put_total(out, b"count ", &totals.count)?;
    put_total(out, b" line ", &totals.line)?;
    Ok(())
}

/// Appends a name and a number, with a minus sign if it is negative. On an error only the first bytes may
/// have been appended.
pub(crate) fn put_total(out: &mut Vec<u8>, name: &[u8], total: &i128) -> Result<(), AllocError>
    ensures { OnOk result (out.new.items ≡ out.old.items ++ name.now ++ signed_decimal total.now) }
{
    let mut buffer = Buffer::new();
    out.extend_from_slice(name)?;
    out.extend_from_slice(buffer.format(*total).as_bytes())
}
