// What the variables of a rule stand for.
ghost use Rattle.std.specs.Prelude.{◌≡◌, ◌<◌, None, Some, length, replicate, slice_set};

use crate::Value;
use std::marker::Model;

/// How many variables an environment has room for.
pub const MOST_VARIABLES: usize = 16;

/// A finite map from variables, by their numbers below sixteen, to values. It is seen as the list of its sixteen
/// places: the variable x has a value where place x does. It holds them in itself, so that no call takes memory.
#[derive(Drop)]
pub struct Env {
    places: [Option<Value>; MOST_VARIABLES],
}

impl Model for Env {
    ghost use Rattle.std.specs.Prelude.{List, Option};
    ghost use Rattle.codeco_terms.specs.declared.values.Value.{Value as OneValue};

    ghost Value = { List (Option OneValue) };

    ghost view = { λ a. a.places };
}

impl Env {
    ghost use Rattle.codeco_terms.specs.Unification.{value_of};

    /// The map in which no variable has a value.
    pub fn new() -> Self
        ensures { result ≡ replicate 16 None }
    {
        Env {
            places: [None; MOST_VARIABLES],
        }
    }

    /// What the variable has.
    pub fn get(&self, variable: u8) -> Option<Value>
        requires { variable < 16 }
        ensures value { result ≡ value_of self.now variable }
        ensures room { length self.now ≡ 16 }
    {
        self.places[variable as usize]
    }

    /// Gives the variable this value.
    pub fn set(&mut self, variable: u8, value: Value)
        requires { variable < 16 }
        ensures { self.new ≡ slice_set self.old variable (Some value) }
    {
        self.places[variable as usize] = Some(value);
    }

    /// An equal map.
    pub fn copy(&self) -> Self
        ensures { result ≡ self.now }
    {
        Env {
            places: self.places,
        }
    }
}
