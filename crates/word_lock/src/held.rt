//! A value while it is taken.
ghost use Rattle.std.specs.Prelude.{◌≡◌, true, [], ◌∷◌, None};

use crate::view::View;
use atomic_table::Seat;

/// The value of a lock, taken by a token. Return it with `unlock`.
pub struct Held<T> {
    pub value: T,
    pub(crate) seat: Seat<Option<T>, View>,
    ghost slot_is_empty: { seat.me.1 ≡ (0, None) ∷ [] },
    ghost holds: { seat.me.0.holds ≡ true },
    ghost live: { seat.me.0.live ≡ true },
    ghost none_joined: { seat.me.0.joined ≡ [] },
}
