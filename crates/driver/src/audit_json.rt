//! The audit as one JSON object.

ghost use Rattle.std.specs.Prelude.{◌+◌, ◌<◌, ◌^◌};
ghost use Rattle.audit.specs.Verdict.{verdict_of};
ghost use Rattle.driver.specs.AuditText.{before_wrong};

use audit::sums::Totals;
use audit::verdict::Judgement;
use explaining::json::object_of;
use history::header::Object;
use serde::Serialize;
use std::alloc::{AllocError, Global};

/// The totals of an object's kind.
#[derive(Drop, Serialize)]
#[serde(untagged)]
enum Numbers {
    Holds {
        x: i128,
        s: i128,
        line: i128,
        sleepers: i128,
    },
    Permits {
        held: i128,
        free: i128,
        created: i128,
        unheld: i128,
        line: i128,
    },
    Count {
        count: i128,
        line: i128,
    },
}

/// An audit.
#[derive(Drop, Serialize)]
#[serde(tag = "verdict")]
enum Audit {
    #[serde(rename = "legal")]
    Legal {
        base: u64,
        entries: u64,
        calls: u64,
        totals: Numbers,
    },
    #[serde(rename = "not legal")]
    NotLegal {
        entry: u64,
    },
}

/// Returns the totals of an object's kind.
fn numbers_of(object: Object, totals: &Totals) -> Numbers {
    let Totals {
        x,
        s,
        line,
        sleepers,
        held,
        free,
        created,
        unheld,
        count,
    } = *totals;
    match object {
        Object::Lock(_) | Object::ReadWrite(_) => Numbers::Holds {
            x,
            s,
            line,
            sleepers,
        },
        Object::Semaphore(_, _) => Numbers::Permits {
            held,
            free,
            created,
            unheld,
            line,
        },
        Object::Latch(_) => Numbers::Count { count, line },
    }
}

/// As [`audit_text`](crate::audit_text::audit_text), as one JSON object. A base of no entries is told too.
pub fn audit_json(
    alloc: Global,
    object: Object,
    folded: u64,
    entries: u64,
    calls: u64,
    judgement: &Judgement,
) -> Result<Vec<u8>, AllocError>
    requires { folded + before_wrong (verdict_of judgement.now) < 2 ^ 64 }
{
    let audit = match judgement {
        Judgement::Legal(totals) => Audit::Legal {
            base: folded,
            entries,
            calls,
            totals: numbers_of(object, totals),
        },
        Judgement::NotLegal(number) => Audit::NotLegal {
            entry: folded + *number,
        },
    };
    object_of(alloc, &audit)
}
