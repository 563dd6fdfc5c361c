//! The lock. The head of the crate says what its rule is and why each step keeps it.
ghost use Rattle.std.specs.Prelude.{◌≡◌, ℕ, true, false, List, [], ◌∷◌, ◌++◌, ◌<◌, length, Some, None, IfSome, IfNone, IfOk, IfErr};
ghost use Rattle.word_lock.specs.Point.{header_of, Agrees, Before, Follows};
ghost use Rattle.word_lock.specs.Rule.{view_after_take, view_after_give, AllAgree, AreDistinct, IsFound};
ghost use Rattle.word_lock.specs.Ticket.{opening_tickets, after_lock, after_unlock, after_meet, first_seat};
ghost use Rattle.word_lock.specs.inner.Ticket.{IsIdle};
ghost use Rattle.word_lock.specs.Held.{held_ticket};
ghost use Rattle.word_lock.specs.Woken.{WasWoken};

use crate::chronicle::Chronicle;
use crate::dealing::{LockTable, make_table, split_token};
use crate::held::Held;
use crate::sleepers::{Enlisted, Sleepers, pause};
use crate::steps::{Give, JoinTokens, Look, Take};
use crate::token::Token;
use crate::view::View;
use atomic_table::Seat;
use history::fault::Fault;
use std::alloc::Global;
use std::marker::Model;
use std::sync::Wait;

// How often a thread reads the word before it sleeps.
const LOOKS: u32 = 50;

// How long it pauses before the first read. Each later pause is twice as long, up to the longest.
const FIRST_PAUSE: u32 = 32;

const LONGEST_PAUSE: u32 = 512;

/// A value that only one token at a time may have. Contracts see which lock it is, and the header of the
/// value that it was opened with.
#[derive(Drop)]
pub struct WordLock<T: Chronicle> {
    table: LockTable<T>,
    sleepers: Sleepers,
}

impl<T: Chronicle> Model for WordLock<T> {
    ghost use Rattle.std.specs.Prelude.{◌≡◌};
    ghost use Rattle.word_lock.specs.Ticket.{LockId, lock_id};

    ghost Value = { LockId };

    ghost view = { λ l. lock_id l.table.shared.table_id (T.point l.table.shared.key.value.value) };

    ghost invariant = { λ l. (l.table.shared.table_id.words ≡ 1) × (l.table.shared.table_id.slots ≡ 1) };
}

impl<T: Chronicle> WordLock<T> {
    /// Returns the lock, and a token for each seat below `seats`, in order. No seat may have an entry, a call
    /// that was folded, a hold or a wait in the value yet. If an allocation fails, the value is returned.
    pub fn open(
        alloc: Global,
        value: T,
        seats: u16,
    ) -> Result<(WordLock<T>, Vec<Token>), (T, Fault)>
        requires fact { T.fact value }
        requires empty { (seat : ℕ) → Agrees (T.point value) seat [] }
        requires some_seat { 0 < seats }
        ensures header { IfOk result (λ r. r.0.header ≡ header_of (T.point value)) }
        ensures tokens { IfOk result (λ r. r.1.items ≡ opening_tickets r.0 (T.point value) 0 seats) }
        ensures refused { IfErr result (λ e. (e.0 ≡ value) × (e.1 ≡ Fault.OutOfMemory)) }
    {
        match make_table(alloc, value, seats) {
            Ok((table, tokens)) => {
                let sleepers = Sleepers::new();
                Ok((WordLock { table, sleepers }, tokens))
            }
            Err(value) => Err((value, Fault::OutOfMemory)),
        }
    }

    /// Takes the value, and waits until it is there. The token must have one seat: a token that another was
    /// joined to can only be given to [`close`](WordLock::close).
    #[inline]
    pub fn lock<R: Wait>(&self, rt: &R, token: &mut Token) -> Held<T>
        requires own { token.old.lock ≡ self.now }
        requires free { token.old.free ≡ true }
        requires one { length token.old.logs ≡ 1 }
        ensures taken { (token.new.free ≡ false)
            × (held_ticket result ≡ after_lock token.old (T.point result.value)) }
        ensures fact { T.fact result.value }
        ensures header { header_of (T.point result.value) ≡ self.now.header }
        ensures begins { Before token.old.seen (T.point result.value) }
        ensures entries { AllAgree (T.point result.value) token.old.logs }
        ensures distinct { AreDistinct token.old.logs }
    {
        self.wait_for_value(rt, token)
    }

    /// Takes the value if it is there: one exchange, which waits for nobody. `None` changes nothing. The
    /// token must have one seat, as for `lock`.
    #[inline(always)]
    pub fn lock_now(&self, token: &mut Token) -> Option<Held<T>>
        requires own { token.old.lock ≡ self.now }
        requires free { token.old.free ≡ true }
        requires one { length token.old.logs ≡ 1 }
        ensures none { IfNone result (token.new ≡ token.old) }
        ensures taken { IfSome result (λ h. (token.new.free ≡ false)
            × (held_ticket h ≡ after_lock token.old (T.point h.value))) }
        ensures fact { IfSome result (λ h. T.fact h.value) }
        ensures header { IfSome result (λ h. header_of (T.point h.value) ≡ self.now.header) }
        ensures begins { IfSome result (λ h. Before token.old.seen (T.point h.value)) }
        ensures entries { IfSome result (λ h. AllAgree (T.point h.value) token.old.logs) }
        ensures distinct { IfSome result (λ _. AreDistinct token.old.logs) }
    {
        self.take_now(token)
    }

    /// Puts the value back. What was added since it was taken must be of the token's own seat. It wakes one
    /// sleeping thread, if there is one, allocates nothing and waits for nobody.
    #[inline(always)]
    pub fn unlock(&self, token: &mut Token, held: Held<T>)
        requires own { (held_ticket held).lock ≡ self.now }
        requires holds { token.old.free ≡ false }
        requires one { length (held_ticket held).logs ≡ 1 }
        requires fact { T.fact held.value }
        requires follows { Follows (first_seat (held_ticket held).logs) (held_ticket held).seen
            (T.point held.value) }
        ensures token { token.new ≡ after_unlock (held_ticket held) (T.point held.value) }
        ensures woken { WasWoken token.new.lock token.new.seen }
    {
        self.unlock_quietly(token, held);
        self.wake(token);
    }

    /// As `unlock`, but it wakes nobody. It is for a static library, which may not wake: there nobody may
    /// wait for the value. Elsewhere call [`wake`](WordLock::wake) soon after it, or a sleeping thread may
    /// sleep on.
    #[inline(always)]
    pub fn unlock_quietly(&self, token: &mut Token, held: Held<T>)
        requires own { (held_ticket held).lock ≡ self.now }
        requires holds { token.old.free ≡ false }
        requires one { length (held_ticket held).logs ≡ 1 }
        requires fact { T.fact held.value }
        requires follows { Follows (first_seat (held_ticket held).logs) (held_ticket held).seen
            (T.point held.value) }
        ensures { token.new ≡ after_unlock (held_ticket held) (T.point held.value) }
    {
        let Held { value, mut seat } = held;
        self.put_value(&mut seat, value);
        *token = Token::of(seat);
    }

    /// Lets two tokens see the same history. It allocates nothing and waits for nobody.
    pub fn meet(&self, one: Token, two: Token) -> (Token, Token)
        requires own { (one.lock ≡ self.now) × (two.lock ≡ self.now) }
        requires free { (one.free ≡ true) × (two.free ≡ true) }
        ensures one { result.0 ≡ after_meet one result.0.seen }
        ensures two { result.1 ≡ after_meet two result.0.seen }
        ensures begins { Before one.seen result.0.seen × Before two.seen result.0.seen }
        ensures sound { T.sound result.0.seen }
        ensures entries { AllAgree result.0.seen one.logs × AllAgree result.0.seen two.logs }
    {
        let mut second = self.tie(one.into_seat(), two.into_seat());
        let first = split_token(&self.table.shared, &mut second);
        (Token::of(first), Token::of(second))
    }

    /// Returns one token with the seats of both. Only `join` and `close` accept it. It allocates nothing and
    /// waits for nobody.
    pub fn join(&self, one: Token, two: Token) -> Token
        requires own { (one.lock ≡ self.now) × (two.lock ≡ self.now) }
        requires free { (one.free ≡ true) × (two.free ≡ true) }
        ensures token { (result.lock ≡ self.now) × (result.free ≡ true) ×
            (result.logs ≡ one.logs ++ two.logs) }
        ensures begins { Before one.seen result.seen × Before two.seen result.seen }
        ensures sound { T.sound result.seen }
        ensures entries { AllAgree result.seen result.logs }
    {
        Token::of(self.tie(one.into_seat(), two.into_seat()))
    }

    /// Takes the value for good, and waits until it is there.
    pub fn close<R: Wait>(self, rt: &R, mut token: Token) -> T
        requires own { token.lock ≡ self }
        requires free { token.free ≡ true }
        ensures fact { T.fact result }
        ensures header { header_of (T.point result) ≡ self.header }
        ensures begins { Before token.seen (T.point result) }
        ensures entries { AllAgree (T.point result) token.logs }
        ensures distinct { AreDistinct token.logs }
    {
        let Held { value, seat: _ } = self.wait_for_value(rt, &mut token);
        value
    }

    // Takes the value with any token, and waits until it is there.
    #[inline]
    fn wait_for_value<R: Wait>(&self, rt: &R, token: &mut Token) -> Held<T>
        requires own { token.old.lock ≡ self.now }
        requires free { token.old.free ≡ true }
        ensures taken { (token.new.free ≡ false)
            × (held_ticket result ≡ after_lock token.old (T.point result.value)) }
        ensures fact { T.fact result.value }
        ensures header { header_of (T.point result.value) ≡ self.now.header }
        ensures begins { Before token.old.seen (T.point result.value) }
        ensures entries { AllAgree (T.point result.value) token.old.logs }
        ensures distinct { AreDistinct token.old.logs }
    {
        let mut enlisted = None;
        for _ in rt.forever() {
            if let Some(held) = self.take_now(token) {
                if let Some(enlisted) = enlisted {
                    self.sleepers.arrive(enlisted);
                }
                return held;
            }
            if self.stays_taken() {
                enlisted = Some(self.sleep(rt, enlisted));
            }
        }
        unreachable!()
    }

    // Takes the value with any token, if it is there.
    #[inline(always)]
    fn take_now(&self, token: &mut Token) -> Option<Held<T>>
        requires own { token.old.lock ≡ self.now }
        requires free { token.old.free ≡ true }
        ensures none { IfNone result (token.new ≡ token.old) }
        ensures taken { IfSome result (λ h. (token.new.free ≡ false)
            × (held_ticket h ≡ after_lock token.old (T.point h.value))) }
        ensures fact { IfSome result (λ h. T.fact h.value) }
        ensures header { IfSome result (λ h. header_of (T.point h.value) ≡ self.now.header) }
        ensures begins { IfSome result (λ h. Before token.old.seen (T.point h.value)) }
        ensures entries { IfSome result (λ h. AllAgree (T.point h.value) token.old.logs) }
        ensures distinct { IfSome result (λ _. AreDistinct token.old.logs) }
    {
        let mut seat = token.take();
        match self.take_value(&mut seat) {
            Some(value) => Some(Held { value, seat }),
            None => {
                *token = Token::of(seat);
                None
            }
        }
    }

    // Exchanges 0 for 1, and takes the value out of the slot if that succeeds.
    #[inline(always)]
    fn take_value(&self, seat: &mut Seat<Option<T>, View>) -> Option<T>
        requires own { seat.old.table_id ≡ self.now.table }
        requires idle { (seat.old.me.1 ≡ []) × IsIdle seat.old.me.0 }
        ensures own { seat.new.table_id ≡ self.now.table }
        ensures none { IfNone result (seat.new.me ≡ seat.old.me) }
        ensures some { IfSome result (λ x.
            seat.new.me ≡ (view_after_take seat.old.me.0 (T.point x), (0, None) ∷ [])) }
        ensures found { IfSome result (λ x. IsFound T.point T.fact seat.old.me.0 x) }
    {
        let found = self.table.shared.compare_exchange::<Take>(seat, 0, 0, 1);
        let is_taken = found != 0;
        if is_taken {
            return None;
        }
        match self.table.shared.exchange(seat, 0, None) {
            Some(value) => Some(value),
            None => unreachable!(),
        }
    }

    // Puts the value into the slot, and stores 0.
    #[inline(always)]
    fn put_value(&self, seat: &mut Seat<Option<T>, View>, value: T)
        requires own { seat.old.table_id ≡ self.now.table }
        requires holds { (seat.old.me.1 ≡ (0, None) ∷ []) × (seat.old.me.0.holds ≡ true)
            × (seat.old.me.0.live ≡ true) }
        requires one { length seat.old.me.0.logs ≡ 1 }
        requires fact { T.fact value }
        requires follows { Follows (first_seat seat.old.me.0.logs) seat.old.me.0.seen (T.point value) }
        ensures own { seat.new.table_id ≡ self.now.table }
        ensures given { seat.new.me ≡ (view_after_give seat.old.me.0 (T.point value), []) }
        ensures header { header_of (T.point value) ≡ header_of seat.old.me.0.seen }
    {
        match self.table.shared.exchange(seat, 0, Some(value)) {
            None => {}
            Some(_other) => unreachable!(),
        }
        self.table.shared.store::<Give>(seat, 0, 0);
    }

    // Joins two views into one, which then looks at the history.
    fn tie(&self, one: Seat<Option<T>, View>, two: Seat<Option<T>, View>) -> Seat<Option<T>, View>
        requires own { (one.table_id ≡ self.now.table) × (two.table_id ≡ self.now.table) }
        requires idle { (one.me.1 ≡ []) × (two.me.1 ≡ []) × IsIdle one.me.0 × IsIdle two.me.0 }
        ensures own { result.table_id ≡ self.now.table }
        ensures idle { (result.me.1 ≡ []) × IsIdle result.me.0 }
        ensures both { (result.me.0.logs ≡ one.me.0.logs ++ two.me.0.logs)
            × (result.me.0.split_at ≡ length one.me.0.logs) }
        ensures begins { Before one.me.0.seen result.me.0.seen × Before two.me.0.seen result.me.0.seen }
        ensures header { (header_of result.me.0.seen ≡ header_of one.me.0.seen)
            × (header_of result.me.0.seen ≡ header_of two.me.0.seen) }
        ensures sound { T.sound result.me.0.seen }
        ensures entries { AllAgree result.me.0.seen (one.me.0.logs ++ two.me.0.logs) }
        ensures each { AllAgree result.me.0.seen one.me.0.logs × AllAgree result.me.0.seen two.me.0.logs }
    {
        let mut seat = one;
        self.table.shared.join_seat::<JoinTokens>(&mut seat, two);
        self.table.shared.load::<Look>(&mut seat, 0);
        seat
    }

    // Returns whether the word is 1 at many reads. Most critical sections are shorter than a system call. The
    // pauses between reads grow, since each read takes the word's cache line from its holder. If a thread
    // sleeps already, this one soon sleeps too.
    fn stays_taken(&self) -> bool {
        let mut pauses = FIRST_PAUSE;
        for _ in 0..LOOKS {
            pause(pauses);
            if self.table.shared.peek(0) == 0 {
                return false;
            }
            if self.sleepers.are_some() {
                return true;
            }
            if pauses < LONGEST_PAUSE {
                pauses *= 2;
            }
        }
        true
    }

    // Sleeps, unless the word is 0 after the thread is enlisted.
    #[cold]
    fn sleep<R: Wait>(&self, rt: &R, before: Option<Enlisted>) -> Enlisted {
        let enlisted = self.sleepers.enlist(before);
        if self.table.shared.peek(0) != 0 {
            self.sleepers.sleep(rt, &enlisted);
        }
        enlisted
    }

    /// Wakes one sleeping thread, if the value is there. It costs one load if nobody sleeps. If the value was
    /// taken again nobody is woken, since the holder wakes one as it unlocks. `by` is the token that put the value
    /// back. Only the contract needs it: it is neither kept nor read.
    #[inline(always)]
    #[tactic(auto, using(crate::specs::Woken::woken))]
    pub fn wake(&self, by: &Token)
        requires own { by.now.lock ≡ self.now }
        requires free { by.now.free ≡ true }
        ensures { WasWoken by.now.lock by.now.seen }
    {
        if self.sleepers.are_some() && self.table.shared.peek(0) == 0 {
            self.sleepers.wake_one();
        }
    }
}

#[cfg(test)]
mod tests;
