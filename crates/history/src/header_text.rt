//! The object part of a header line.

ghost use Rattle.std.specs.Prelude.{◌≡◌, ◌≢◌, [], ◌∷◌, ◌++◌, codes, decimal, take, length, IfSome, IfNone, OnOk, OnErr, if◌then◌else◌};
ghost use Rattle.std.specs.Fmt.{signed_decimal};
ghost use Rattle.history.specs.Text.{line_of};
ghost use Rattle.history.specs.Header.{IsInRange};
ghost use Rattle.history.specs.Spelling.{policy_word, part_words};
ghost use Rattle.history.specs.inner.HeaderReading.{lock_at, semaphore_at, latch_at, header_at};
ghost use Rattle.history.specs.Reading.{with_rest};
ghost use Rattle.history.specs.declared.header.Header.{Header};
ghost use Rattle.history.specs.declared.header.Object.TheVariants.{Lock, ReadWrite};

use crate::fault::Fault;
use crate::header::{Header, Object, Policy};
use crate::limits::{LEAST_CAP, MOST_AMOUNT, MOST_CONDITIONS, MOST_SEATS};
use crate::number::{put_number, put_permits};
use crate::words::Words;
use std::alloc::AllocError;

const LARGEST_CAP: u64 = 4_294_967_295;

/// Reads the rest of a lock's or read-write lock's header.
#[tactic(auto, unfolding(crate::specs::inner::HeaderReading::lock_at))]
fn lock(words: &mut Words<'_>, read_write: bool) -> Option<Header>
    ensures is { with_rest result words.new ≡ lock_at (if read_write then ReadWrite else Lock) words.old }
    ensures found { IfSome result (λ h. IsInRange h
        × ((if read_write then codes "rw" else codes "lock") ∷ words.old ≡ part_words h ++ words.new)) }
{
    let policy = words.policy()?;
    let seats = words.named(b"seats", 1, MOST_SEATS as u64)?;
    let conditions = words.named(b"conditions", 0, MOST_CONDITIONS as u64)?;
    let cap = words.named(b"cap", LEAST_CAP as u64, LARGEST_CAP)?;
    let object = if read_write {
        Object::ReadWrite(policy)
    } else {
        Object::Lock(policy)
    };
    Some(Header {
        object,
        seats: seats as u16,
        conditions: conditions as u8,
        cap: cap as u32,
    })
}

#[tactic(auto, unfolding(crate::specs::inner::HeaderReading::semaphore_at))]
fn semaphore(words: &mut Words<'_>) -> Option<Header>
    ensures is { with_rest result words.new ≡ semaphore_at words.old }
    ensures found { IfSome result (λ h. IsInRange h
        × (codes "semaphore" ∷ words.old ≡ part_words h ++ words.new)) }
{
    let policy = words.policy()?;
    let seats = words.named(b"seats", 1, MOST_SEATS as u64)?;
    words.expect(b"permits")?;
    let permits = words.permits()?;
    let cap = words.named(b"cap", LEAST_CAP as u64, LARGEST_CAP)?;
    Some(Header {
        object: Object::Semaphore(policy, permits),
        seats: seats as u16,
        conditions: 0,
        cap: cap as u32,
    })
}

#[tactic(auto, unfolding(crate::specs::inner::HeaderReading::latch_at))]
fn latch(words: &mut Words<'_>) -> Option<Header>
    ensures is { with_rest result words.new ≡ latch_at words.old }
    ensures found { IfSome result (λ h. IsInRange h ×
        (codes "latch" ∷ words.old ≡ part_words h ++ words.new)) }
{
    let seats = words.named(b"seats", 1, MOST_SEATS as u64)?;
    let count = words.named(b"count", 0, MOST_AMOUNT as u64)?;
    let cap = words.named(b"cap", LEAST_CAP as u64, LARGEST_CAP)?;
    Some(Header {
        object: Object::Latch(count as u32),
        seats: seats as u16,
        conditions: 0,
        cap: cap as u32,
    })
}

#[tactic(auto, unfolding(crate::specs::inner::HeaderReading::header_at))]
fn header(words: &mut Words<'_>) -> Option<Header>
    ensures is { with_rest result words.new ≡ header_at words.old }
    ensures found { IfSome result (λ h. IsInRange h × (words.old ≡ part_words h ++ words.new)) }
{
    let kind = words.next()?;
    if kind == b"lock".as_slice() {
        lock(words, false)
    } else if kind == b"rw".as_slice() {
        lock(words, true)
    } else if kind == b"semaphore".as_slice() {
        semaphore(words)
    } else if kind == b"latch".as_slice() {
        latch(words)
    } else {
        None
    }
}

impl Header {
    ghost use Rattle.std.specs.Prelude.{◌≡◌, ◌≢◌, ◌++◌, IfSome, IfNone, OnOk, OnErr, IsOkUnless, take, length};
    ghost use Rattle.history.specs.Header.{IsInRange};
    ghost use Rattle.history.specs.Spelling.{part_of};
    ghost use Rattle.history.specs.declared.header.Header.{Header};

    /// Returns the header whose object part the bytes are.
    pub fn read_part(part: &[u8]) -> Option<Header>
        ensures found { IfSome result (λ h. IsInRange h × (part.now ≡ part_of h)) }
        ensures none { IfNone result ((h : Header) → IsInRange h → part.now ≢ part_of h) }
    {
        let mut words = Words::of(part);
        let header = header(&mut words)?;
        match words.next() {
            None => Some(header),
            Some(_) => None,
        }
    }

    /// Appends the object part. On an error, which is `OutOfMemory`, the bytes are as before.
    pub fn write_part(&self, out: &mut Vec<u8>) -> Result<(), Fault>
        requires { IsInRange self.now }
        ensures ok { OnOk result (out.new.items ≡ out.old.items ++ part_of self.now) }
        ensures err { OnErr result (out.new.items ≡ out.old.items) }
        ensures unless { IsOkUnless result Fault.OutOfMemory }
    {
        let before = out.len();
        match self.put_part(out) {
            Ok(()) => Ok(()),
            Err(_) => {
                out.truncate(before);
                Err(Fault::OutOfMemory)
            }
        }
    }

    /// Appends the object part. On an error only its first bytes may have been appended.
    fn put_part(&self, out: &mut Vec<u8>) -> Result<(), AllocError>
        ensures ok { OnOk result (out.new.items ≡ out.old.items ++ part_of self.now) }
        ensures err { OnErr result (take (length out.old.items) out.new.items ≡ out.old.items) }
    {
        let Header {
            object,
            seats,
            conditions,
            cap,
        } = *self;
        match object {
            Object::Lock(policy) => {
                put_kind(out, b"lock ", policy, seats)?;
                put_conditions(out, conditions, cap)
            }
            Object::ReadWrite(policy) => {
                put_kind(out, b"rw ", policy, seats)?;
                put_conditions(out, conditions, cap)
            }
            Object::Semaphore(policy, permits) => {
                put_kind(out, b"semaphore ", policy, seats)?;
                put_opening_permits(out, permits, cap)
            }
            Object::Latch(count) => {
                put_named(out, b"latch seats ", u64::from(seats))?;
                put_count(out, count, cap)
            }
        }
    }
}

/// Appends a name with its spaces and a number. On an error only the first bytes may have been appended.
#[inline(always)]
fn put_named(out: &mut Vec<u8>, name: &[u8], number: u64) -> Result<(), AllocError>
    ensures ok { OnOk result (out.new.items ≡ out.old.items ++ name.now ++ decimal number) }
    ensures err { OnErr result (take (length out.old.items) out.new.items ≡ out.old.items) }
{
    out.extend_from_slice(name)?;
    put_number(out, number)
}

/// Appends the conditions and the cap. On an error only the first bytes may have been appended.
fn put_conditions(out: &mut Vec<u8>, conditions: u8, cap: u32) -> Result<(), AllocError>
    ensures ok { OnOk result (out.new.items ≡ out.old.items ++ 32
        ∷ line_of (codes "conditions" ∷ decimal conditions ∷ codes "cap" ∷ decimal cap ∷ [])) }
    ensures err { OnErr result (take (length out.old.items) out.new.items ≡ out.old.items) }
{
    put_named(out, b" conditions ", u64::from(conditions))?;
    put_named(out, b" cap ", u64::from(cap))
}

/// Appends a semaphore's permits and the cap. On an error only the first bytes may have been appended.
fn put_opening_permits(out: &mut Vec<u8>, permits: i32, cap: u32) -> Result<(), AllocError>
    ensures ok { OnOk result (out.new.items ≡ out.old.items ++ 32
        ∷ line_of (codes "permits" ∷ signed_decimal permits ∷ codes "cap" ∷ decimal cap ∷ [])) }
    ensures err { OnErr result (take (length out.old.items) out.new.items ≡ out.old.items) }
{
    out.extend_from_slice(b" permits ")?;
    put_permits(out, permits)?;
    put_named(out, b" cap ", u64::from(cap))
}

/// Appends a latch's count and the cap. On an error only the first bytes may have been appended.
fn put_count(out: &mut Vec<u8>, count: u32, cap: u32) -> Result<(), AllocError>
    ensures ok { OnOk result (out.new.items ≡ out.old.items ++ 32
        ∷ line_of (codes "count" ∷ decimal count ∷ codes "cap" ∷ decimal cap ∷ [])) }
    ensures err { OnErr result (take (length out.old.items) out.new.items ≡ out.old.items) }
{
    put_named(out, b" count ", u64::from(count))?;
    put_named(out, b" cap ", u64::from(cap))
}

/// Appends an object's name with its space, a policy and the seats. On an error only the first bytes may have
/// been appended.
#[inline(always)]
fn put_kind(out: &mut Vec<u8>, name: &[u8], policy: Policy, seats: u16) -> Result<(), AllocError>
    ensures ok { OnOk result (out.new.items ≡ out.old.items ++ name.now
        ++ line_of (policy_word policy ∷ codes "seats" ∷ decimal seats ∷ [])) }
    ensures err { OnErr result (take (length out.old.items) out.new.items ≡ out.old.items) }
{
    out.extend_from_slice(name)?;
    out.extend_from_slice(policy.word())?;
    put_named(out, b" seats ", u64::from(seats))
}

impl Policy {
    ghost use Rattle.std.specs.Prelude.{◌≡◌};
    ghost use Rattle.history.specs.Spelling.{policy_word};

    /// Returns its word in a text.
    #[inline(always)]
    pub(crate) fn word(self) -> &'static [u8]
        ensures { result.now ≡ policy_word self }
    {
        match self {
            Policy::Fair => b"fair",
            Policy::NonFair => b"nonfair",
            Policy::Strict => b"strict",
        }
    }
}
