//! Whom an entry names, and why.

ghost use Rattle.std.specs.Prelude.{◌≡◌, List};
ghost use Rattle.explaining.specs.Below.{first_of, line, ready, Start, Entry, HasHistory};
ghost use Rattle.explaining.specs.Naming.{naming_by};

use deciding::decide::ready;
use deciding::situation::ObjectState;

/// Whom an entry names, or why it names nobody.
#[derive(Clone, Copy, Debug, PartialEq, Eq)]
pub enum Naming {
    /// Nobody is in the queue.
    NobodyWaits,
    /// The head of the queue, this seat, cannot go.
    CannotGo(u16),
    /// The head of the queue made the entry itself.
    Own(u16),
    /// The head of the queue could go before the entry too.
    CouldBefore(u16),
    /// The head of the queue is named: it could not go before.
    Named(u16),
}

/// Returns whom an entry of a seat names that led to this state. `before` was ready before it.
pub(crate) fn naming_of<T: ObjectState>(state: &T, before: Option<u16>, seat: u16) -> Naming
    requires { HasHistory T.stands state.now }
    ensures { (s : Start) (h : List Entry) → T.stands s h state.now
        → result ≡ naming_by before (first_of (line s h)) (ready s h) seat }
{
    let now = ready(state);
    let Some(first) = state.first() else {
        return Naming::NobodyWaits;
    };
    match now {
        None => Naming::CannotGo(first.seat),
        Some(head) => if head == seat {
            Naming::Own(head)
        } else if before == Some(head) {
            Naming::CouldBefore(head)
        } else {
            Naming::Named(head)
        },
    }
}
