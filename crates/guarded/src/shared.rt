//! A value that one writer has, or that many readers look at.
ghost use Rattle.std.specs.Prelude.{◌≡◌, IfErr, IfOk};
ghost use Rattle.std.specs.Borrow.{sem};

use crate::keeps::Keeps;
use std::alloc::Global;
use std::marker::{Model, PhantomData};
use std::ops::Deref;
use std::sync::{Arc, Wait};

/// The value of a read-write lock. A contract sees the value alone.
///
/// It lies in one place, with a count of those who share it: the lock or its writer, and each reader. A reader takes a
/// share under its read hold, and drops it before it gives the hold back.
///
/// The loops below last only while the count is otherwise than the holds let it be. No contract ties it to them, but
/// these do:
///
/// - `value_mut` is called by a writer. While it has the write hold, no thread reads. Each reader dropped its share
///   before it gave its hold back. So this share is the only one.
/// - `into_value` is called with the share of `new`, of a refused opening or of a closed lock. A reader's share is part
///   of a guard, which borrows the lock. So this share is the only one.
/// - `another` is called with a read hold. All passes together have 65535 at most, so the count isn't full.
///
/// So the order matters in which a reader's guard ends: the share first, the hold after it.
#[derive(Drop)]
pub struct Shared<T> {
    value: Arc<T, Global>,
}

impl<T> Model for Shared<T> {
    ghost use Rattle.std.specs.Arc.{arc_value};

    ghost Value = { T };

    ghost view = { λ s. arc_value s.value };
}

impl<T> Shared<T> {
    ghost use Rattle.guarded.specs.inner.Lending.{LendsShared};

    /// The first share. If memory for its place is refused, it returns the value.
    pub fn new(alloc: Global, value: T) -> Result<Shared<T>, T>
        ensures ok { IfOk result (λ shared. shared ≡ value) }
        ensures back { IfErr result (λ back. back ≡ value) }
    {
        match Arc::new(alloc, value) {
            Ok(value) => Ok(Shared { value }),
            Err(failed) => Err(failed.value),
        }
    }

    // Another share.
    pub(crate) fn another<R: Wait>(&self, rt: &R) -> Shared<T>
        ensures { result ≡ self.now }
    {
        for _ in rt.forever() {
            if let Ok(value) = Arc::try_clone(&self.value) {
                return Shared { value };
            }
        }
        unreachable!()
    }

    /// Returns the value.
    pub fn value(&self) -> &T
        ensures { result.now ≡ self.now }
    {
        &*self.value
    }

    // Returns the value, to change it, once this is the only share.
    pub(crate) fn value_mut<R: Wait>(&mut self, rt: &R) -> &mut T
        ensures* lends { sem 𝓛 (LendsShared T.row self.entry result) }
        ensures value { result.now ≡ self.old }
    {
        self.wait_for_the_others(rt);
        let found = Arc::get_mut(&mut self.value);
        if found.is_none() {
            never(rt);
        }
        found.unwrap()
    }

    fn wait_for_the_others<R: Wait>(&self, rt: &R) {
        for _ in rt.forever() {
            if Arc::strong_count(&self.value) == 1 {
                return;
            }
        }
        unreachable!()
    }

    /// Returns the value, once this is the only share.
    pub fn into_value<R: Wait>(self, rt: &R) -> T
        ensures { result ≡ self }
    {
        let Shared { value } = self;
        let mut left = value;
        for _ in rt.forever() {
            match Arc::try_unwrap(left) {
                Ok(value) => return value,
                Err(shared) => left = shared,
            }
        }
        unreachable!()
    }
}

impl<T> Deref for Shared<T> {
    type Target = T;

    ghost deref_gives = { λ shared value. value ≡ shared };

    fn deref(&self) -> &T {
        self.value()
    }
}

// The value of a share, if there is one.
pub(crate) fn unshared<T, R: Wait>(rt: &R, share: Option<Shared<T>>) -> Option<T>
    ensures { result ≡ share }
{
    match share {
        Some(shared) => Some(shared.into_value(rt)),
        None => None,
    }
}

// Where the count is otherwise than the holds let it be.
pub(crate) fn never<R: Wait>(rt: &R)
    ensures { ⊥ }
{
    for _ in rt.forever() {}
    unreachable!()
}

/// The invariant `I`, of a value that readers share.
pub struct Sharing<I> {
    of: PhantomData<I>,
}

impl<T, I: Keeps<T>> Keeps<Shared<T>> for Sharing<I> {
    ghost invariant = { I.invariant };
}
