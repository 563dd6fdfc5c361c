//! Names that were given.

ghost use Rattle.std.specs.Prelude.{◌≡◌, ◌∷◌, ◌++◌, [], map, OnOk};
ghost use Rattle.picture.specs.Names.{name_of, names_a_seat};

use crate::naming::whom::Whom;
use std::alloc::{AllocError, Global};
use std::marker::Model;

/// The names that were given to seats and conditions.
#[derive(Drop)]
pub struct Names {
    given: Vec<(Whom, Vec<u8>)>,
}

impl Model for Names {
    ghost use Rattle.std.specs.Prelude.{map};
    ghost use Rattle.picture.specs.Names.{Given};

    ghost Value = { Given };

    ghost view = { λ n. map (λ x. (x.0, x.1.items)) n.given.items };
}

impl Names {
    /// Returns none.
    pub fn none(alloc: Global) -> Self
        ensures { result ≡ [] }
    {
        Names {
            given: Vec::new(alloc),
        }
    }

    /// Returns the name of a seat or a condition, or no bytes if it was given none.
    pub fn of(&self, whom: Whom) -> &[u8]
        ensures { result.now ≡ name_of self.now whom }
    {
        name_in(&self.given, whom)
    }

    /// Returns whether a seat was given a name.
    pub fn name_a_seat(&self) -> bool
        ensures { result ≡ names_a_seat self.now }
    {
        some_seat(&self.given)
    }

    /// Gives a name, behind those that were given.
    pub(crate) fn give(&mut self, alloc: Global, whom: Whom, name: &[u8]) -> Result<(), AllocError>
        ensures { OnOk result (self.new ≡ self.old ++ (whom, name.now) ∷ []) }
    {
        let mut own = Vec::new(alloc);
        own.extend_from_slice(name)?;
        self.given.push((whom, own))?;
        Ok(())
    }
}

fn name_in(given: &[(Whom, Vec<u8>)], whom: Whom) -> &[u8]
    ensures { result.now ≡ name_of (map (λ x. (x.0, x.1.items)) given.now) whom }
{
    match given {
        [] => b"",
        [first, rest @ ..] => {
            if first.0.is_same(whom) {
                &first.1
            } else {
                name_in(rest, whom)
            }
        }
    }
}

fn some_seat(given: &[(Whom, Vec<u8>)]) -> bool
    ensures { result ≡ names_a_seat (map (λ x. (x.0, x.1.items)) given.now) }
{
    match given {
        [] => false,
        [first, rest @ ..] => first.0.is_seat() || some_seat(rest),
    }
}
