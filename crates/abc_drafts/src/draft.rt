use crate::mistake::Mistake;
use abc_pred::{Expr, Name, Operand, Pred};
use abc_term::{After, Component, Definition, Process, Program};
use abc_value::{List, Scalar, ShortText, Value};
use std::alloc::Global;

/// A program on its way: its definitions and components so far, and the processes that wait to become
/// part of something greater. The newest of these is taken first.
#[derive(Drop)]
pub struct Draft {
    alloc: Global,
    waiting: List<Process>,
    definitions: List<Definition>,
    components: List<Component>,
}

/// That many empty words: how the names of a program are spelled is nothing to what it does.
fn words_of(alloc: Global, count: u32) -> Result<List<ShortText>, Mistake> {
    let mut words = List::new(alloc);
    for _ in 0..count {
        words.push(ShortText::empty())?;
    }
    Ok(words)
}

impl Draft {
    pub fn new(alloc: Global) -> Draft {
        Draft {
            alloc,
            waiting: List::new(alloc),
            definitions: List::new(alloc),
            components: List::new(alloc),
        }
    }

    fn put(&mut self, process: Process) -> Result<(), Mistake> {
        self.waiting.push(process)?;
        Ok(())
    }

    fn take(&mut self) -> Result<Process, Mistake> {
        match self.waiting.pop() {
            Some(process) => Ok(process),
            None => Err(Mistake::NothingWaits),
        }
    }

    fn take_boxed(&mut self) -> Result<Box<Process>, Mistake> {
        let process = self.take()?;
        let boxed = Box::new(self.alloc, process)?;
        Ok(boxed)
    }

    /// The newest process, behind an action without updates.
    fn after(&mut self) -> Result<After, Mistake> {
        let then = self.take_boxed()?;
        let updates = List::new(self.alloc);
        Ok(After { updates, then })
    }

    /// One more process 0 that waits.
    pub fn nil(&mut self) -> Result<(), Mistake> {
        self.put(Process::Nil)
    }

    /// One more call that waits.
    pub fn call(&mut self, name: Name) -> Result<(), Mistake> {
        self.put(Process::Call(name))
    }

    /// The two newest processes, with `+` between them.
    pub fn choice(&mut self) -> Result<(), Mistake> {
        let right = self.take_boxed()?;
        let left = self.take_boxed()?;
        self.put(Process::Choice(left, right))
    }

    /// The two newest processes, with `|` between them.
    pub fn par(&mut self) -> Result<(), Mistake> {
        let right = self.take_boxed()?;
        let left = self.take_boxed()?;
        self.put(Process::Par(left, right))
    }

    /// The newest process, behind the guard `tt`.
    pub fn guard(&mut self) -> Result<(), Mistake> {
        let then = self.take_boxed()?;
        self.put(Process::When(Pred::True, then))
    }

    /// The newest process, behind an output of these variables to all.
    pub fn output(&mut self, variables: &[Name]) -> Result<(), Mistake> {
        let after = self.after()?;
        let mut exprs = List::new(self.alloc);
        for variable in variables {
            exprs.push(Expr::Plain(Operand::Var(*variable)))?;
        }
        self.put(Process::Output(exprs, Pred::True, after))
    }

    /// The newest process, behind an output of this number to all.
    pub fn say(&mut self, number: i64) -> Result<(), Mistake> {
        let after = self.after()?;
        let value = Value::Scalar(Scalar::Number(number));
        let mut exprs = List::new(self.alloc);
        exprs.push(Expr::Plain(Operand::Literal(value)))?;
        self.put(Process::Output(exprs, Pred::True, after))
    }

    /// The newest process, behind an input of these variables from all.
    pub fn input(&mut self, variables: &[Name]) -> Result<(), Mistake> {
        let after = self.after()?;
        let mut bound = List::new(self.alloc);
        bound.extend_from_slice(variables)?;
        self.put(Process::Input(Pred::True, bound, after))
    }

    /// The newest process is the body of the next definition.
    pub fn define(&mut self, name: Name) -> Result<(), Mistake> {
        let body = self.take()?;
        self.definitions.push(Definition { name, body })?;
        Ok(())
    }

    /// The newest process is that of the next component, which has no attributes.
    pub fn component(&mut self, name: Name) -> Result<(), Mistake> {
        let run = self.take()?;
        self.components.push(Component {
            name,
            initial: List::new(self.alloc),
            show: List::new(self.alloc),
            run,
        })?;
        Ok(())
    }

    /// The program, with a list of that many names.
    pub fn program(self, names: u32) -> Result<Program, Mistake> {
        let Draft {
            alloc,
            waiting,
            definitions,
            components,
        } = self;
        if !waiting.is_empty() {
            return Err(Mistake::SomethingWaits);
        }
        let names = words_of(alloc, names)?;
        Ok(Program {
            names,
            components,
            definitions,
        })
    }
}
