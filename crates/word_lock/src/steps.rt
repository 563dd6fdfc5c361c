//! The rule of the table, and what the token that makes a step learns from it.

use crate::chronicle::Chronicle;
use crate::view::View;
use atomic_table::{Join, Play, Split, TableRule};
use std::snapshot::Snapshot;

/// What the rule knows of the opening: the value and the number of seats.
#[derive(Drop)]
pub(crate) struct Opening<T> {
    pub value: Snapshot<T>,
    pub seats: u16,
}

pub(crate) struct LockRule;

impl<T: Chronicle> TableRule<Option<T>, View, Opening<T>> for LockRule {
    ghost use Rattle.word_lock.specs.Rule.{RuleHolds, first_view};

    ghost holds = { λ opening. RuleHolds T.point T.fact T.sound (T.point opening.value.value) };

    ghost first = { λ opening. first_view (T.point opening.value.value) opening.seats };
}

/// The exchange of 0 to 1, which wins or loses.
pub(crate) struct Take;

impl<T: Chronicle> Play<Option<T>, View> for Take {
    ghost use Rattle.word_lock.specs.Rule.{TellsTake};

    ghost then = { TellsTake T.point T.fact };
}

/// The store of 0.
pub(crate) struct Give;

impl<T: Chronicle> Play<Option<T>, View> for Give {
    ghost use Rattle.word_lock.specs.Rule.{TellsGive};

    ghost then = { TellsGive T.point };
}

/// A load that looks at the current history.
pub(crate) struct Look;

impl<T: Chronicle> Play<Option<T>, View> for Look {
    ghost use Rattle.word_lock.specs.Rule.{TellsLook};

    ghost then = { TellsLook T.sound };
}

/// One token becomes two.
pub(crate) struct SplitToken;

impl Split<View> for SplitToken {
    ghost use Rattle.word_lock.specs.Rule.{rest_of_view, front_of_view};

    ghost left = { rest_of_view };

    ghost right = { front_of_view };
}

/// Two tokens become one.
pub(crate) struct JoinTokens;

impl Join<View> for JoinTokens {
    ghost use Rattle.word_lock.specs.Rule.{joined_view, spent_view};

    ghost both = { joined_view };

    ghost spent = { spent_view };
}
