//! The table of a lock, and how its tokens are made.
ghost use Rattle.std.specs.Prelude.{◌≡◌, ℕ, ◌<◌, ◌≤◌, [], false, IfOk, IfErr, vec_len, vec_capacity};
ghost use Rattle.word_lock.specs.Point.{Agrees};
ghost use Rattle.word_lock.specs.Rule.{dealing_view, rest_of_view, front_of_view};
ghost use Rattle.word_lock.specs.Ticket.{lock_id, opening_tickets};

use crate::chronicle::Chronicle;
use crate::steps::{LockRule, Opening, SplitToken};
use crate::token::Token;
use crate::view::View;
use atomic_table::{Refused, Seat, Shared, Table};
use std::alloc::Global;
use std::snapshot::Snapshot;

pub(crate) type LockTable<T> = Table<Option<T>, View, Opening<T>, LockRule, Global>;

pub(crate) type LockShared<T> = Shared<Option<T>, View, Opening<T>, LockRule>;

// Returns a table with the value in its slot, and a token for each seat, in order. All memory of a lock is
// allocated here.
pub(crate) fn make_table<T: Chronicle>(
    alloc: Global,
    value: T,
    seats: u16,
) -> Result<(LockTable<T>, Vec<Token>), T>
    requires fact { T.fact value }
    requires empty { (seat : ℕ) → Agrees (T.point value) seat [] }
    requires some_seat { 0 < seats }
    ensures counts { IfOk result (λ r. (r.0.shared.table_id.words ≡ 1) × (r.0.shared.table_id.slots ≡ 1)) }
    ensures opened { IfOk result (λ r. r.0.shared.key.value.value ≡ value) }
    ensures tokens { IfOk result (λ r. r.1.items ≡
        opening_tickets (lock_id r.0.shared.table_id (T.point value)) (T.point value) 0 seats) }
    ensures back { IfErr result (λ v. v ≡ value) }
{
    let Ok(mut tokens) = Vec::with_capacity(alloc, seats as usize) else {
        return Err(value);
    };
    let Ok(mut slots) = Vec::with_capacity(alloc, 1) else {
        return Err(value);
    };
    let opening = Opening {
        value: Snapshot::of(&value),
        seats,
    };
    slots.push_reserved(Some(value));
    match Table::new(alloc, &[0], slots, &opening) {
        Ok((table, seat)) => {
            deal(&table.shared, seat, &mut tokens, seats);
            Ok((table, tokens))
        }
        Err(Refused { mut slots }) => match slots.pop() {
            Some(Some(value)) => Err(value),
            _ => unreachable!(),
        },
    }
}

// Makes a token for each seat.
fn deal<T: Chronicle>(
    shared: &LockShared<T>,
    first: Seat<Option<T>, View>,
    tokens: &mut Vec<Token>,
    seats: u16,
)
    requires own { (first.table_id ≡ shared.now.table_id) × (shared.now.table_id.words ≡ 1) }
    requires some_seat { 0 < seats }
    requires room { (tokens.old.items ≡ []) × (vec_len tokens.old ≡ 0) × (seats ≤ vec_capacity tokens.old) }
    requires first { first.me ≡ (dealing_view 0 seats first.me.0.seen, []) }
    ensures { tokens.new.items ≡ opening_tickets (lock_id shared.now.table_id first.me.0.seen)
        first.me.0.seen 0 seats }
{
    let mut last = first;
    for _number in 1..seats {
        let seat = split_token(shared, &mut last);
        tokens.push_reserved(Token::of(seat));
    }
    tokens.push_reserved(Token::of(last));
}

// Splits the first logs of a view off into a token of their own.
pub(crate) fn split_token<T: Chronicle>(
    shared: &LockShared<T>,
    seat: &mut Seat<Option<T>, View>,
) -> Seat<Option<T>, View>
    requires own { (seat.old.table_id ≡ shared.now.table_id) × (shared.now.table_id.words ≡ 1) }
    requires free { seat.old.me.0.holds ≡ false }
    ensures kept { (seat.new.table_id ≡ shared.now.table_id)
        × (seat.new.me ≡ (rest_of_view seat.old.me.0, seat.old.me.1)) }
    ensures given { (result.table_id ≡ shared.now.table_id) ×
        (result.me ≡ (front_of_view seat.old.me.0, [])) }
{
    shared.split_seat::<SplitToken>(seat)
}
