ghost use Rattle.std.specs.Prelude.{◌≡◌, ◌<◌, ◌≤◌, ◌^◌, [], All, IfOk, OnErr, IsTrue, ◌↔◌, length, unwrap_or, Some};
ghost use Rattle.abc_term.specs.Standing.{definitions_of, component_of, set_all};
ghost use Rattle.abc_term.specs.Speaking.{Speaks, outs};
ghost use Rattle.abc_term.specs.Hearing.{Hears, ins};
ghost use Rattle.abc_checks.specs.Facts.{IsChecked};
ghost use Rattle.abc_sound.specs.Sound.{IsSound};
ghost use Rattle.abc_sound.specs.declared.limits.TheConstants.{MOST_MOVES};
ghost use Rattle.abc_moves.specs.Arounds.{definitions_around};
ghost use Rattle.abc_moves.specs.Bodies.{FindsFirst};
ghost use Rattle.abc_moves.specs.Labels.{label_of};
ghost use Rattle.abc_moves.specs.Lives.{component_in, definitions_in, program_in, BeginsAs, StartsAs, StartAs, IsSaid};
ghost use Rattle.abc_moves.specs.Moves.{moved, moved_at, IsMoveOf};
ghost use Rattle.abc_moves.specs.Sites.{tree_around, moved_around};
ghost use Rattle.abc_moves.specs.Sounds.{IsSoundUnder};
ghost use Rattle.abc_moves.specs.States.{component_at, CountsOutputs};
ghost use Rattle.abc_moves.specs.Trees.{parts, process_in, leaves_in};
ghost use Rattle.std.specs.Arc.{arc_value};

use crate::around::Around;
use crate::bodies::{Bodies, bodies_of, places};
use crate::hearing::heard;
use crate::label::Label;
use crate::leaves::{InLeaf, hear_at, inputs_of, outputs_of, put_leaf, speak_at};
use crate::live::{Fixed, Live};
use crate::made::Move;
use crate::scope::Scope;
use crate::speaking::{said, spoken};
use crate::state::State;
use crate::tree::Tree;
use crate::walk::Walk;
use abc_pred::{Env, Interface, Name};
use abc_term::{Component, Program};
use abc_value::{List, NoMemory, Value};
use std::alloc::Global;
use std::collections::HashMap;
use std::sync::Arc;

impl<'p> Live<'p> {
    /// The component of this number as the program begins with it.
    pub fn start(alloc: Global, program: &'p Program, component: u32) -> Result<Live<'p>, NoMemory>
        requires checked { IsChecked program.now }
        requires exists { component < length program.now.components }
        ensures component { IfOk result (λ l. StartsAs program.now component (component_in l)) }
        ensures program { IfOk result (λ l. definitions_in l ≡ definitions_of program.now.definitions) }
        ensures text { IfOk result (λ l. program_in l ≡ program.now.definitions) }
    {
        let first = Arc::new(alloc, places(alloc, program.definitions.as_slice())?)?;
        begun(alloc, first, program, component as usize)
    }

    /// All components as the program begins with them, in its order. They share the
    /// table of definitions.
    pub fn start_all(alloc: Global, program: &'p Program) -> Result<List<Live<'p>>, NoMemory>
        requires { IsChecked program.now }
        ensures count { IfOk result (λ ls. length ls ≡ length program.now.components) }
        ensures components { IfOk result (StartAs program.now) }
        ensures text { IfOk result (All (λ l. program_in l ≡ program.now.definitions)) }
    {
        let first = Arc::new(alloc, places(alloc, program.definitions.as_slice())?)?;
        let mut lives = List::new(alloc);
        for component in 0..program.components.len() {
            let live = begun(alloc, Arc::try_clone(&first)?, program, component)?;
            lives.push(live)?;
        }
        Ok(lives)
    }

    /// The number of enabled outputs.
    pub fn outputs(&self) -> u32
        ensures count { result ≡ outs (definitions_in self.now) (component_in self.now) }
        ensures few { result ≤ MOST_MOVES }
    {
        self.state.outputs
    }

    /// Whether an output is enabled.
    pub fn can_speak(&self) -> bool
        ensures { IsTrue result ↔ (0 < outs (definitions_in self.now) (component_in self.now)) }
    {
        self.outputs() > 0
    }

    /// The number of inputs that take the message.
    pub fn inputs(&self, label: &Label) -> u32
        ensures count { result ≡ ins (definitions_in self.now) (component_in self.now) (label_of label.now) }
        ensures few { result ≤ MOST_MOVES }
    {
        if self.state.tree.is_nil() {
            return 0;
        }
        let bodies = bodies_of(self.definitions, &self.fixed.first);
        let at = Around::new(
            self.fixed.alloc,
            &bodies,
            &self.state.env,
            &self.fixed.interface,
        );
        inputs_of(&at, label, bodies.depth(), &self.state.tree)
    }

    /// The label that the output at a place gives.
    pub fn label(&self, place: u32) -> Result<Label, NoMemory>
        requires { place < outs (definitions_in self.now) (component_in self.now) }
        ensures { IfOk result
            (λ l. IsSaid (definitions_in self.now) (component_in self.now) place (label_of l)) }
    {
        let (label, made) = self.prepare_output(place)?;
        drop(made);
        Ok(label)
    }

    /// Makes the output at a place and gives its label. After `NoMemory` the component is as before.
    pub fn speak(&mut self, place: u32) -> Result<Label, NoMemory>
        requires { place < outs (definitions_in self.old) (component_in self.old) }
        ensures ok { IfOk result (λ l.
            Speaks (definitions_in self.old) (component_in self.old) place (label_of l) (component_in self.new)) }
        ensures err { OnErr result (component_in self.new ≡ component_in self.old) }
        ensures program { definitions_in self.new ≡ definitions_in self.old }
        ensures text { program_in self.new ≡ program_in self.old }
    {
        let (label, made) = self.prepare_output(place)?;
        self.put(made);
        Ok(label)
    }

    /// Takes the message by the input at a place. After `NoMemory` the component is as before.
    pub fn hear(&mut self, label: &Label, place: u32) -> Result<(), NoMemory>
        requires { place < ins (definitions_in self.old) (component_in self.old) (label_of label.now) }
        ensures ok { IfOk result (λ _.
            Hears (definitions_in self.old) (component_in self.old) (label_of label.now) (Some place)
            (component_in self.new)) }
        ensures err { OnErr result (component_in self.new ≡ component_in self.old) }
        ensures program { definitions_in self.new ≡ definitions_in self.old }
        ensures text { program_in self.new ≡ program_in self.old }
    {
        let made = self.prepare_input(label, place)?;
        self.put(made);
        Ok(())
    }

    /// What the output at a place makes: its label, and the move by which the component says it. The
    /// component stays as it is until the move is put.
    pub fn prepare_output(&self, place: u32) -> Result<(Label, Move<'p>), NoMemory>
        requires { place < outs (definitions_in self.now) (component_in self.now) }
        ensures { IfOk result (λ r.
            Speaks (definitions_in self.now) (component_in self.now) place (label_of r.0) (moved self.now r.1)) }
    {
        let bodies = bodies_of(self.definitions, &self.fixed.first);
        let at = Around::new(
            self.fixed.alloc,
            &bodies,
            &self.state.env,
            &self.fixed.interface,
        );
        spoken_at(self.fixed.alloc, &at, &self.state.tree, place)
    }

    /// The move by which the component takes the message at a place. The component stays as it is until
    /// the move is put.
    pub fn prepare_input(&self, label: &Label, place: u32) -> Result<Move<'p>, NoMemory>
        requires { place < ins (definitions_in self.now) (component_in self.now) (label_of label.now) }
        ensures { IfOk result (λ m.
            Hears (definitions_in self.now) (component_in self.now) (label_of label.now) (Some place)
            (moved self.now m)) }
    {
        let bodies = bodies_of(self.definitions, &self.fixed.first);
        let at = Around::new(
            self.fixed.alloc,
            &bodies,
            &self.state.env,
            &self.fixed.interface,
        );
        heard_at(self.fixed.alloc, &at, label, &self.state.tree, place)
    }

    /// Puts a move of the component in place. It takes no memory.
    pub fn put(&mut self, made: Move<'p>)
        requires { IsMoveOf self.old made }
        ensures component { component_in self.new ≡ moved self.old made.entry }
        ensures program { definitions_in self.new ≡ definitions_in self.old }
        ensures text { program_in self.new ≡ program_in self.old }
    {
        let bodies = bodies_of(self.definitions, &self.fixed.first);
        change(
            self.fixed.alloc,
            &bodies,
            &self.fixed.interface,
            &mut self.state,
            made,
        );
    }

    /// An equal component, with memory of its own but for the table of definitions.
    pub fn copy(&self) -> Result<Live<'p>, NoMemory>
        ensures component { IfOk result (λ l. component_in l ≡ component_in self.now) }
        ensures program { IfOk result (λ l. definitions_in l ≡ definitions_in self.now) }
        ensures text { IfOk result (λ l. program_in l ≡ program_in self.now) }
    {
        let first = Arc::try_clone(&self.fixed.first)?;
        let interface = self.fixed.interface.copy(self.fixed.alloc)?;
        let state = self.state.copy(self.fixed.alloc)?;
        Ok(Live {
            definitions: self.definitions,
            state,
            fixed: Fixed {
                first,
                interface,
                alloc: self.fixed.alloc,
            },
        })
    }

    /// The attributes with their values.
    pub fn env(&self) -> &Env
        ensures { result.now ≡ (component_in self.now).env }
    {
        &self.state.env
    }
}

impl<'p> State<'p> {
    /// The same leaves and attributes with memory of their own.
    fn copy(&self, alloc: Global) -> Result<State<'p>, NoMemory>
        ensures env { IfOk result (λ s. s.env ≡ self.now.env) }
        ensures process { IfOk result (λ s. process_in s.tree ≡ process_in self.now.tree) }
        ensures outputs { IfOk result (λ s. s.outputs ≡ self.now.outputs) }
    {
        let env = self.env.copy(alloc)?;
        let tree = self.tree.copy(alloc)?;
        Ok(State {
            tree,
            env,
            outputs: self.outputs,
        })
    }
}

/// The number of enabled outputs of a sound component.
fn counted(
    alloc: Global,
    bodies: &Bodies<'_, '_>,
    env: &Env,
    interface: &Interface,
    tree: &Tree<'_>,
) -> u32
    requires { ∥ IsSoundUnder bodies.now.definitions.now (parts env.now interface.now tree.now) ∥₁ }
    ensures { result ≡ outs (definitions_of bodies.now.definitions.now) (parts env.now interface.now tree.now) }
{
    let at = Around::new(alloc, bodies, env, interface);
    outputs_of(&at, bodies.depth(), tree)
}

/// What the output at a place makes, of a component with these things around its tree.
fn spoken_at<'p>(
    alloc: Global,
    at: &Around<'_, 'p>,
    tree: &Tree<'p>,
    place: u32,
) -> Result<(Label, Move<'p>), NoMemory>
    requires among { place < outs (definitions_around at.now) (tree_around at.now tree.now) }
    requires few { leaves_in tree.now < 2 ^ 32 }
    ensures { IfOk result (λ r.
        Speaks (definitions_around at.now) (tree_around at.now tree.now) place (label_of r.0)
        (moved_around at.now tree.now r.1)) }
{
    match speak_at(alloc, at, at.bodies.depth(), tree, place)? {
        Walk::Found(InLeaf { leaf, site }) => {
            let label = said(alloc, at, &site)?;
            let made = spoken(alloc, at, leaf, &site)?;
            Ok((label, made))
        }
        Walk::Passed(_) => unreachable!(),
    }
}

/// The move by which a component with these things around its tree takes the message at a place.
fn heard_at<'p>(
    alloc: Global,
    at: &Around<'_, 'p>,
    label: &Label,
    tree: &Tree<'p>,
    place: u32,
) -> Result<Move<'p>, NoMemory>
    requires among { place < ins (definitions_around at.now) (tree_around at.now tree.now) (label_of label.now) }
    requires few { leaves_in tree.now < 2 ^ 32 }
    ensures { IfOk result (λ m.
        Hears (definitions_around at.now) (tree_around at.now tree.now) (label_of label.now) (Some place)
        (moved_around at.now tree.now m)) }
{
    match hear_at(alloc, at, label, at.bodies.depth(), tree, place)? {
        Walk::Found(InLeaf { leaf, site }) => heard(alloc, at, label, leaf, &site),
        Walk::Passed(_) => unreachable!(),
    }
}

/// The environment becomes the new one, where there is one.
fn renew(env: &mut Env, new: Option<Env>)
    ensures { env.new ≡ unwrap_or new env.old }
{
    if let Some(new) = new {
        *env = new;
    }
}

/// The state changes by a move, and outputs are counted again.
fn change<'p>(
    alloc: Global,
    bodies: &Bodies<'_, 'p>,
    interface: &Interface,
    state: &mut State<'p>,
    made: Move<'p>,
)
    requires sound { ∥ IsSoundUnder bodies.now.definitions.now (moved_at state.old interface.now made) ∥₁ }
    requires few { leaves_in state.old.tree < 2 ^ 32 }
    ensures component { component_at state.new interface.now ≡ moved_at state.old interface.now made.entry }
    ensures counted { CountsOutputs (definitions_of bodies.now.definitions.now) state.new interface.now }
{
    let Move {
        leaf,
        env: new,
        tree: leaf_tree,
    } = made;
    let State { tree, env, outputs } = state;
    put_leaf(tree, leaf, leaf_tree);
    renew(env, new);
    *outputs = counted(alloc, bodies, env, interface, tree);
}

/// The component of this number as the program begins with it.
fn begun<'p>(
    alloc: Global,
    first: Arc<HashMap<u32, usize>>,
    program: &'p Program,
    component: usize,
) -> Result<Live<'p>, NoMemory>
    requires checked { IsChecked program.now }
    requires exists { component < length program.now.components }
    requires finds { FindsFirst (arc_value first) program.now.definitions }
    ensures component { IfOk result (λ l. StartsAs program.now component (component_in l)) }
    ensures program { IfOk result (λ l. definitions_in l ≡ definitions_of program.now.definitions) }
    ensures text { IfOk result (λ l. program_in l ≡ program.now.definitions) }
{
    let component = &program.components.as_slice()[component];
    started(alloc, first, program, component)
}

/// A component of the program as it begins.
fn started<'p>(
    alloc: Global,
    first: Arc<HashMap<u32, usize>>,
    program: &'p Program,
    component: &'p Component,
) -> Result<Live<'p>, NoMemory>
    requires sound { IsSound program.now (component_of component.now) }
    requires finds { FindsFirst (arc_value first) program.now.definitions }
    ensures component { IfOk result (λ l. BeginsAs (component_of component.now) (component_in l)) }
    ensures program { IfOk result (λ l. definitions_in l ≡ definitions_of program.now.definitions) }
    ensures text { IfOk result (λ l. program_in l ≡ program.now.definitions) }
{
    let env = first_env(alloc, component.initial.as_slice())?;
    let interface = Interface::of(alloc, component.show.as_slice())?;
    let tree = Tree::Leaf(&component.run, Scope::empty(alloc));
    let definitions = program.definitions.as_slice();
    let bodies = bodies_of(definitions, &first);
    let outputs = counted(alloc, &bodies, &env, &interface, &tree);
    Ok(Live {
        definitions,
        state: State { tree, env, outputs },
        fixed: Fixed {
            first,
            interface,
            alloc,
        },
    })
}

/// The environment in which these attributes have been set one after another.
fn first_env(alloc: Global, attributes: &[(Name, Value)]) -> Result<Env, NoMemory>
    ensures { IfOk result (λ e. e ≡ set_all attributes.now []) }
{
    let mut env = Env::empty(alloc);
    for attribute in attributes {
        env.set(attribute.0, attribute.1.view().to_value(alloc)?)?;
    }
    Ok(env)
}
