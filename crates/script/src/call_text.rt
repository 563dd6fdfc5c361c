//! The text of a call.

ghost use Rattle.std.specs.Prelude.{◌≡◌, ◌≢◌, ◌≤◌, ◌<◌, ◌^◌, All, decimal, IfSome, IfNone, ℕ};
ghost use Rattle.history.specs.Text.{line_of};
ghost use Rattle.script.specs.CallText.{action_words, HasAmounts, Spells};
ghost use Rattle.script.specs.Name.{IsName};
ghost use Rattle.script.specs.Script.{named};
ghost use Rattle.script.specs.declared.action.Action.{Action};
ghost use Rattle.script.specs.declared.call.Call.{Call};
ghost use Rattle.script.specs.declared.limits.TheConstants.{MOST_THREADS};

use crate::action::Action;
use crate::action_text::action;
use crate::call::Call;
use crate::name::{INTERRUPT, position_of};
use history::header::Header;
use history::number::number_of;
use history::words::Words;
use indexmap::IndexMap;

/// Returns the call of an object that these words spell, which are all words after its name.
fn action_of(text: &[u8]) -> Option<Action>
    ensures found { IfSome result (λ a. HasAmounts a × (text.now ≡ line_of (action_words a))) }
    ensures none { IfNone result ((a : Action) → HasAmounts a → text.now ≢ line_of (action_words a)) }
{
    let mut words = Words::of(text);
    let action = action(&mut words)?;
    match words.next() {
        None => Some(action),
        Some(_) => None,
    }
}

/// Returns the number of a thread, which must be below `threads`.
fn thread_of(text: &[u8], threads: usize) -> Option<u16>
    requires { threads ≤ MOST_THREADS }
    ensures found { IfSome result (λ t. (t < threads) × (text.now ≡ decimal t)) }
    ensures none { IfNone result ((t : ℕ) → t < threads → text.now ≢ decimal t) }
{
    let thread = number_of(text)?;
    if thread < threads as u64 {
        Some(thread as u16)
    } else {
        None
    }
}

/// Returns the call that a text spells: of one of these objects, or the interrupt of one of the threads.
pub(crate) fn call_of(
    text: &str,
    objects: &IndexMap<String, Header>,
    threads: usize,
) -> Option<Call>
    requires threads { threads ≤ MOST_THREADS }
    requires names { All (λ o. IsName o.0) (named objects.now.entries) }
    ensures found { IfSome result (λ c. Spells (named objects.now.entries) threads c text.now) }
    ensures none { IfNone result ((c : Call) → ¬ (Spells (named objects.now.entries) threads c text.now)) }
{
    let (name, rest) = text.split_once(' ')?;
    if name == INTERRUPT {
        return Some(Call::Interrupt(thread_of(rest.as_bytes(), threads)?));
    }
    let place = position_of(name, objects)?;
    Some(Call::On(place, action_of(rest.as_bytes())?))
}
