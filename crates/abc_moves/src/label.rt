ghost use Rattle.abc_pred.specs.Meaning.{IsClosed};
ghost use Rattle.abc_pred.specs.Standing.{pred_of};

use abc_pred::{Env, Pred};
use abc_value::{List, Value};

/// What a multicast carries.
#[derive(Drop)]
pub struct Label {
    /// The sender's attributes that others may see, as they were before the output's updates.
    pub shown: Env,
    /// Whom it is meant for: the output's predicate, closed by the sender.
    pub pred: Pred,
    /// The values of the output's tuple.
    pub values: List<Value>,
    pub ghost closed: { ∥ IsClosed (pred_of pred) ∥₁ },
}
