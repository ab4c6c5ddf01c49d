use abc_pred::{Expr, Name, Pred};
use abc_value::{List, ShortText, Value};

/// An attribute is set to the value of an expression: `[name := value]`.
#[derive(Drop)]
pub struct Update {
    pub name: Name,
    pub value: Expr,
}

/// What follows an action: its updates, made in order in the same step, and the process from then on.
#[cycle(process)]
#[derive(Drop)]
pub struct After {
    pub updates: List<Update>,
    pub then: Box<Process>,
}

/// The processes of AbC.
#[cycle(process)]
#[derive(Drop)]
pub enum Process {
    /// `0`: no move.
    Nil,
    /// `(E, ..) @ (p) . U P`: one multicast of the values of the expressions to those that satisfy p.
    Output(List<Expr>, Pred, After),
    /// `? (p) ($x, ..) . U P`: receives from those that satisfy p and binds the variables.
    Input(Pred, List<Name>, After),
    /// `when (g) P`: moves as P while the component's own attributes satisfy g (AbC's awareness).
    When(Pred, Box<Process>),
    /// `P + Q`: moves as one of the two, and the other is gone.
    Choice(Box<Process>, Box<Process>),
    /// `P | Q`: one of the two moves, and the other stays.
    Par(Box<Process>, Box<Process>),
    /// The process of a definition.
    Call(Name),
}

/// `def name = body;`
#[derive(Drop)]
pub struct Definition {
    pub name: Name,
    pub body: Process,
}

/// `comp name { initial show run }`: attributes with their first values, the interface (the
/// attributes that others may see), and a process.
#[derive(Drop)]
pub struct Component {
    pub name: Name,
    pub initial: List<(Name, Value)>,
    pub show: List<Name>,
    pub run: Process,
}

/// Definitions and components. `names` has the word of each `Name` at that name's number.
#[derive(Drop)]
pub struct Program {
    pub names: List<ShortText>,
    pub components: List<Component>,
    pub definitions: List<Definition>,
}

fn crosses_threads<T: Send + Sync>() {}

/// The threads of a run read one program: it is Send and Sync, and so are its parts.
fn programs_cross_threads() {
    crosses_threads::<Program>();
}
