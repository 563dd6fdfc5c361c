//! Whom a name is given to.

ghost use Rattle.std.specs.Prelude.{◌≡◌};
ghost use Rattle.picture.specs.Names.{is_same, is_seat};

/// Whom a name is given to.
#[derive(Clone, Copy, Debug, PartialEq, Eq)]
pub enum Whom {
    Seat(u16),
    Condition(u8),
}

impl Whom {
    pub(crate) fn is_same(self, other: Whom) -> bool
        ensures { result ≡ is_same self other }
    {
        match self {
            Whom::Seat(seat) => match other {
                Whom::Seat(number) => seat == number,
                Whom::Condition(_) => false,
            },
            Whom::Condition(condition) => match other {
                Whom::Seat(_) => false,
                Whom::Condition(number) => condition == number,
            },
        }
    }

    pub(crate) fn is_seat(self) -> bool
        ensures { result ≡ is_seat self }
    {
        match self {
            Whom::Seat(_) => true,
            Whom::Condition(_) => false,
        }
    }
}
