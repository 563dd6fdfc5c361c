//! Which invariant a lock keeps of its value.

/// What is true of a value whenever no thread has it, chosen for each lock or pool: a type of yours stands for it, as in
/// `struct Balanced; impl Keeps<Accounts> for Balanced { .. }` and `Mutex<Accounts, Balanced>`.
///
/// A thread that comes to have the value may rely on the invariant. While it has the value it may break it, and must
/// prove it again before it lets the value go.
pub trait Keeps<T> {
    ghost invariant: { T → Type 0 };
}

/// No invariant: the choice of a lock or pool that names none.
pub struct Any;

impl<T> Keeps<T> for Any {
    ghost invariant = { λ _. Unit {0} };
}
