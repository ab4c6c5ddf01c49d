//! The steps of a system.
ghost use Rattle.std.specs.Prelude.{◌≡◌, ◌<◌, ◌+◌, ◌^◌, length, map, Some, None, IfOk, OnErr, MatchOption, IsTrue, ◌↔◌};
ghost use Rattle.abc_term.specs.Standing.{system_of, definitions_of};
ghost use Rattle.abc_term.specs.Systems.{IsSilent};
ghost use Rattle.abc_checks.specs.Facts.{IsChecked};
ghost use Rattle.abc_steps.specs.Alike.{AreAlike};
ghost use Rattle.abc_system.specs.Members.{live_of, now_in};
ghost use Rattle.abc_system.specs.Running.{system_in, definitions_in, envs_of, IsNoStep, StepsBy, StepsAt, IsSame};

use crate::cast::{cast_at, cast_by};
use crate::member::Member;
use crate::multicast::multicast;
use crate::row::StepRow;
use crate::speakers::speakers;
use crate::system::System;
use crate::turn::Turn;
use abc_moves::Live;
use abc_packet::Choice;
use abc_pred::Env;
use abc_term::Program;
use abc_value::{List, NoMemory};
use std::alloc::Global;

impl<'p> System<'p> {
    /// The system as the program begins with it.
    pub fn start(alloc: Global, program: &'p Program) -> Result<System<'p>, NoMemory>
        requires { IsChecked program.now }
        ensures system { IfOk result (λ s. AreAlike (system_in s) (system_of program.now)) }
        ensures program { IfOk result (λ s. definitions_in s ≡ definitions_of program.now.definitions) }
    {
        let lives = Live::start_all(alloc, program)?;
        let members = members_of(alloc, lives.into_vec())?;
        Ok(System {
            program,
            members,
            alloc,
        })
    }

    /// Whether no component can speak.
    pub fn is_silent(&self) -> bool
        ensures { IsTrue result ↔ IsSilent (definitions_in self.now) (system_in self.now) }
    {
        speakers(self.program.definitions.as_slice(), self.members.as_slice()) == 0
    }

    /// The attributes of all components with their values, in the program's order.
    pub fn envs(&self) -> Result<List<Env>, NoMemory>
        ensures { IfOk result (λ es. es ≡ envs_of (system_in self.now)) }
    {
        envs_now(self.alloc, self.members.as_slice())
    }

    /// Makes the step of a choice. None exactly where the rules have no such step; the system is unchanged then,
    /// and after `NoMemory`.
    pub fn step(&mut self, choice: &Choice) -> Result<Option<StepRow>, NoMemory>
        ensures step { IfOk result (λ o. MatchOption o (IsNoStep self.old choice.now) (λ r. StepsBy self.old choice.now r self.new)) }
        ensures none { IfOk result (λ o. MatchOption o (IsSame self.old self.new) (λ _. definitions_in self.new ≡ definitions_in self.old)) }
        ensures err { OnErr result (IsSame self.old self.new) }
    {
        match choice.place {
            None => Ok(self.empty_step(choice)),
            Some(place) => self.said_step(choice, place),
        }
    }

    /// The empty step, where the choice is one.
    fn empty_step(&self, choice: &Choice) -> Option<StepRow>
        requires { choice.now.place ≡ None }
        ensures { MatchOption result (IsNoStep self.now choice.now) (λ r. StepsBy self.now choice.now r self.now) }
    {
        if (choice.sender as usize) < self.members.len() && choice.heard.is_empty() {
            Some(StepRow {
                sender: choice.sender,
                spoke: None,
                heard: List::new(self.alloc),
            })
        } else {
            None
        }
    }

    /// The multicast of a choice with this place.
    fn said_step(&mut self, choice: &Choice, place: u32) -> Result<Option<StepRow>, NoMemory>
        requires { choice.now.place ≡ Some place }
        ensures step { IfOk result (λ o. MatchOption o (IsNoStep self.old choice.now) (λ r. StepsBy self.old choice.now r self.new)) }
        ensures none { IfOk result (λ o. MatchOption o (IsSame self.old self.new) (λ _. definitions_in self.new ≡ definitions_in self.old)) }
        ensures err { OnErr result (IsSame self.old self.new) }
    {
        let definitions = self.program.definitions.as_slice();
        let Some(cast) = cast_by(
            self.alloc,
            definitions,
            self.members.as_slice(),
            choice,
            place,
        )?
        else {
            return Ok(None);
        };
        let row = multicast(definitions, self.members.as_mut_slice(), cast)?;
        Ok(Some(row))
    }

    /// Makes the step by the rule of places at the turn `pick + made`. None exactly where no component can
    /// speak; the system is unchanged then, and after `NoMemory`.
    pub fn take_turn(&mut self, pick: u64, made: u32) -> Result<Option<StepRow>, NoMemory>
        ensures step { IfOk result (λ o. MatchOption o (IsSilent (definitions_in self.old) (system_in self.old)) (λ r. StepsAt self.old (pick + made) r self.new)) }
        ensures none { IfOk result (λ o. MatchOption o (IsSame self.old self.new) (λ _. definitions_in self.new ≡ definitions_in self.old)) }
        ensures err { OnErr result (IsSame self.old self.new) }
    {
        let definitions = self.program.definitions.as_slice();
        let turn = Turn { pick, made };
        let Some(cast) = cast_at(self.alloc, definitions, self.members.as_slice(), turn)? else {
            return Ok(None);
        };
        let row = multicast(definitions, self.members.as_mut_slice(), cast)?;
        Ok(Some(row))
    }
}

/// The components, none of which has a move ready.
fn members_of<'p>(alloc: Global, lives: Vec<Live<'p>>) -> Result<Vec<Member<'p>>, NoMemory>
    ensures { IfOk result (λ ms. map live_of ms.items ≡ lives.entry.items) }
{
    let mut members = Vec::with_capacity(alloc, lives.len())?;
    for live in lives {
        members.push(Member { live, next: None })?;
    }
    Ok(members)
}

/// The environments of components, in order.
fn envs_now(alloc: Global, members: &[Member<'_>]) -> Result<List<Env>, NoMemory>
    ensures { IfOk result (λ es. es ≡ envs_of (map now_in members.now)) }
{
    let mut envs = List::new(alloc);
    for member in members {
        envs.push(member.live.env().copy(alloc)?)?;
    }
    Ok(envs)
}
