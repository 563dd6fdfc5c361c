//! What the lock requires of a value.

/// A value that keeps a history. It shows a point: a base, whose header never changes, and a list of entries
/// that only grows or is folded into the base.
///
/// The lock knows only these four members of a value. How points are ordered is defined in
/// `specs/Point.antt`. The proof of the lock doesn't use those definitions either: it uses the laws of
/// points.
pub trait Chronicle: Drop {
    ghost use Rattle.history.specs.declared.point.Point.{Point};

    ghost point: { Self → Point };

    // A fact that holds of the value whenever the lock is free.
    ghost fact: { Self → Type 0 };

    // What that fact implies for base and list. It is all that a token knows of what it has seen.
    ghost sound: { Point → Type 0 };

    ghost is_sound: { (x : Self) → fact x → sound (point x) };
}
