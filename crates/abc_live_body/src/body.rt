//! A component of a program as a body.
ghost use Rattle.std.specs.Prelude.{◌≡◌, ◌<◌, ◌%◌, IfOk, length};
ghost use Rattle.abc_term.specs.Standing.{definitions_of};
ghost use Rattle.abc_checks.specs.Facts.{IsChecked};
ghost use Rattle.abc_moves.specs.Lives.{StartsAs};
ghost use Rattle.abc_live_body.specs.AbcMeaning.{abc};

use abc_body::Body;
use abc_moves::{Label, Live};
use abc_packet::{NoMemory, Owner};
use abc_pred::Env;
use abc_term::Program;
use std::alloc::Global;
use std::marker::Model;

/// A component of a program as a body: it says labels and hears those of others.
///
/// Contracts see the component of the rules, with the definitions under which it runs.
#[derive(Drop)]
pub struct AbcBody<'p> {
    live: Live<'p>,
}

impl<'p> Model for AbcBody<'p> {
    ghost use Rattle.abc_live_body.specs.Running.{RunningComponent, running_in, running_code};

    ghost Value = { RunningComponent };

    ghost coded = { running_code };

    ghost view = { λ b. running_in b.live };
}

impl<'p> AbcBody<'p> {
    /// The component of this number as the program begins with it.
    pub fn start(
        alloc: Global,
        program: &'p Program,
        component: u32,
    ) -> Result<AbcBody<'p>, NoMemory>
        requires checked { IsChecked program.now }
        requires exists { component < length program.now.components }
        ensures component { IfOk result (λ b. StartsAs program.now component b.component) }
        ensures program { IfOk result (λ b. b.definitions ≡ definitions_of program.now.definitions) }
        ensures sound { IfOk result abc.sound }
    {
        let live = Live::start(alloc, program, component)?;
        Ok(AbcBody { live })
    }

    /// The attributes with their values.
    pub fn env(&self) -> &Env
        ensures { result.now ≡ self.now.component.env }
    {
        self.live.env()
    }
}

/// The place that the turn picks of so many.
fn place_among(turn: u64, count: u32) -> u32
    requires { 0 < count }
    ensures place { result ≡ turn % count }
    ensures among { result < count }
{
    (turn % count as u64) as u32
}

impl<'p> Body for AbcBody<'p> {
    type Label = Label;

    ghost use Rattle.abc_live_body.specs.BodyLaws.{abc_speaks, abc_hears, abc_hears_all};

    ghost meaning = { abc };

    ghost speaks_soundly = { abc_speaks };

    ghost hears_soundly = { abc_hears };

    ghost hears_all = { abc_hears_all };

    #[tactic(auto, using(crate::proofs::Bodies::can_where, crate::proofs::Bodies::some_where))]
    fn can_speak(&self) -> bool {
        self.live.can_speak()
    }

    fn speak(
        &mut self,
        alloc: Global,
        turn: u64,
    ) -> Result<(u32, Owner<Label>, Owner<Label>), NoMemory> {
        let place = place_among(turn, self.live.outputs());
        let (label, made) = self.live.prepare_output(place)?;
        let said = Owner::new(alloc, label)?;
        let logged = said.copy()?;
        self.live.put(made);
        Ok((place, said, logged))
    }

    fn hear(&mut self, _alloc: Global, label: &Label, turn: u64) -> Result<Option<u32>, NoMemory> {
        let inputs = self.live.inputs(label);
        if inputs == 0 {
            return Ok(None);
        }
        let place = place_among(turn, inputs);
        self.live.hear(label, place)?;
        Ok(Some(place))
    }
}
