ghost use Rattle.std.specs.Prelude.{◌≡◌, [], length};
ghost use Rattle.std.specs.List.{zip};
ghost use Rattle.abc_value.specs.Values.{seen};
ghost use Rattle.abc_pred.specs.Meaning.{sat};
ghost use Rattle.abc_pred.specs.Standing.{pred_of};
ghost use Rattle.abc_term.specs.Substitution.{put_pred, outside};
ghost use Rattle.abc_moves.specs.Hears.{inside, IsItsValue};

use crate::scope::Scope;
use abc_pred::{Env, Name, Pred, Seen, Variables, sat};
use abc_value::{Value, View};

/// What an input's variables stand for while a message is tested: its own for the message's values, and
/// all others for what is bound outside. Nothing is copied.
#[derive(Drop)]
pub struct Heard<'a> {
    /// The input's variables.
    pub xs: &'a [Name],
    /// The message's values for them.
    pub values: &'a [Value],
    /// What is bound outside the input.
    pub scope: &'a Scope,
    ghost as_many: { length xs.now ≡ length values.now },
}

/// The value of the first of these variables that has the name; none where there is no such.
fn first<'a>(xs: &[Name], values: &'a [Value], x: Name) -> Option<View<'a>>
    requires { length xs.now ≡ length values.now }
    ensures { IsItsValue xs.now values.now x result }
{
    if let [first_name, xs @ ..] = xs {
        if let [first_value, values @ ..] = values {
            if *first_name == x {
                return Some(first_value.view());
            }
            return first(xs, values, x);
        }
    }
    None
}

impl Variables for Heard<'_> {
    ghost bound = { λ h. inside h.xs.now h.values.now h.scope.now };

    fn value(&self, x: Name) -> View<'_> {
        match first(self.xs, self.values, x) {
            Some(value) => value,
            None => self.scope.get(x),
        }
    }
}

impl Heard<'_> {
    /// Whether the attributes that the message shows satisfy the input's predicate, with the message's
    /// values.
    pub fn is_wanted(&self, p: &Pred, own: &Env, shown: &Env) -> bool
        ensures { result
            ≡ sat (put_pred (zip self.now.xs.now self.now.values.now) (put_pred (outside self.now.xs.now self.now.scope.now) (pred_of p.now)))
            own.now shown.now [] }
    {
        let sender = Seen {
            env: shown,
            shown: None,
        };
        sat(p, own, sender, self)
    }
}
