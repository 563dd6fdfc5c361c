//! Tokens, with which the lock is taken.
ghost use Rattle.std.specs.Prelude.{◌≡◌, true, false, []};
ghost use Rattle.word_lock.specs.Ticket.{ticket};
ghost use Rattle.word_lock.specs.inner.Ticket.{IsIdle, IsSeatOf};

use crate::view::View;
use atomic_table::{Badge, Seat};
use std::marker::Model;
use std::mem;

/// The right of one seat to take the lock, or of several seats after `WordLock::join`. It may be dropped.
///
/// Contracts see it as a `Ticket`: which lock it belongs to, whether it is free, the entries that each of its
/// seats has added, and what it has seen of the value.
#[derive(Drop)]
pub struct Token {
    badge: Badge<View>,
    free: bool,
}

impl Model for Token {
    ghost use Rattle.word_lock.specs.Ticket.{Ticket, ticket, view_of_badge, IsTokenInside};

    ghost Value = { Ticket };

    ghost view = { λ t. ticket t.badge.table_id t.free (view_of_badge t.badge.views) };

    ghost invariant = { λ t. IsTokenInside t.badge.views t.free };
}

impl Token {
    /// Returns whether it doesn't have the value taken.
    pub fn is_free(&self) -> bool
        ensures { result ≡ self.now.free }
    {
        self.free
    }

    #[inline(always)]
    pub(crate) fn of<T>(seat: Seat<Option<T>, View>) -> Token
        requires { (seat.me.1 ≡ []) × IsIdle seat.me.0 }
        ensures { result ≡ ticket seat.table_id true seat.me.0 }
    {
        Token {
            badge: seat.into_badge(),
            free: true,
        }
    }

    // Leaves the token without a view, until `of` gives it one.
    #[inline(always)]
    pub(crate) fn take<T>(&mut self) -> Seat<Option<T>, View>
        requires { self.old.free ≡ true }
        ensures left { self.new.free ≡ false }
        ensures idle { (result.me.1 ≡ []) × IsIdle result.me.0 }
        ensures same { IsSeatOf result.table_id result.me.0 self.old }
    {
        self.free = false;
        mem::replace(&mut self.badge, Badge::blank()).into_seat()
    }

    pub(crate) fn into_seat<T>(self) -> Seat<Option<T>, View>
        requires { self.free ≡ true }
        ensures idle { (result.me.1 ≡ []) × IsIdle result.me.0 }
        ensures same { IsSeatOf result.table_id result.me.0 self }
    {
        let Token { badge, free: _ } = self;
        badge.into_seat()
    }
}
