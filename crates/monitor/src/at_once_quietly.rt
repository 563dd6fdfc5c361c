//! A step that is done at once or not at all, for a monitor in which nobody sleeps.
ghost use Rattle.std.specs.Prelude.{◌≡◌, Ok, IfNone, IfSome};
ghost use Rattle.frame.specs.AtOnce.{entry_at_once};
ghost use Rattle.history.specs.declared.step.Answer.TheVariants.{Recorded};
ghost use Rattle.monitor.specs.Calling.{CalledQuietly};
ghost use Rattle.monitor.specs.Observing.{IsQuietLook};
ghost use Rattle.monitor.specs.Stepping.{IsStep};

use crate::monitor::Monitor;
use crate::pass::{Pass, one_call_more};
use frame::hooks::Hooks;
use history::step::Step;

impl<H: Hooks + Drop> Monitor<H> {
    /// One step of the pass's seat, if it is done at once: an acquire or a try that succeeds, or a release.
    /// Returns the seat that it named.
    ///
    /// `None`: another call had its turn, or the step needs [`step_quietly`](Monitor::step_quietly). Nothing
    /// was recorded.
    #[inline(always)]
    pub fn step_at_once_quietly(&self, pass: &mut Pass, step: Step) -> Option<Option<u16>>
        requires is_of { pass.old.lock ≡ self.now }
        ensures called { CalledQuietly pass.old pass.new }
        ensures stepped { IfSome result (λ named. IsStep pass.old step
            (Ok (Recorded (entry_at_once pass.old.seat step) named)) pass.new) }
        ensures looked { IfNone result (IsQuietLook pass.old pass.new) }
    {
        let Some(mut held) = self.lock.lock_now(&mut pass.token) else {
            return None;
        };
        match held.value.step_at_once(pass.seat, step) {
            Some(named) => {
                self.lock.unlock_quietly(&mut pass.token, held);
                pass.share = one_call_more(pass.share);
                Some(named)
            }
            None => {
                self.lock.unlock_quietly(&mut pass.token, held);
                None
            }
        }
    }
}
