//! Which call of a device in memory fails.

ghost use Rattle.std.specs.Prelude.{◌≡◌, ◌↔◌, IsTrue, if◌then◌else◌};
ghost use Rattle.streams.specs.Turns.{one_fewer};

/// Counts one call, and returns whether it is the one that fails.
pub fn strikes(fails_at: &mut Option<u64>) -> bool
    ensures now { IsTrue result ↔ (fails_at.old ≡ Some 0) }
    ensures after { fails_at.new ≡ (if result then fails_at.old else one_fewer fails_at.old) }
{
    match *fails_at {
        None => false,
        Some(0) => true,
        Some(n) => {
            *fails_at = Some(n - 1);
            false
        }
    }
}
