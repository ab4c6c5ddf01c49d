ghost use Rattle.std.specs.Prelude.{◌≡◌, ◌↔◌, ◌<◌, ◌^◌, true, length, IfOk, IsTrue};
ghost use Rattle.abc_term.specs.Standing.{definitions_of};
ghost use Rattle.abc_term.specs.Calls.{called, Reaches};
ghost use Rattle.abc_checks.specs.Sites.{IsFirstSite};
ghost use Rattle.abc_checks.specs.Graphs.{counts_behind, graph_of, NoneRises, IsBadCycle, CyclesAt, CycleSite};

use crate::calls::{Calls, graph, holds_par};
use crate::causes::Site;
use crate::levels::{none_rises, only_falls};
use crate::order::Order;
use crate::places::Places;
use crate::search::reaches_itself;
use abc_term::Definition;
use abc_value::{List, NoMemory};
use std::alloc::Global;

/// The calls that count, as a graph of the definitions, with levels of its nodes.
#[derive(Drop)]
struct Leveled<'p> {
    places: &'p Places<'p>,
    counted: Calls,
    graph: Vec<List<usize>>,
    levels: Vec<usize>,
    none_rises: bool,
    ghost right: { graph.items ≡ graph_of (called (counts_behind counted)) places.now.program.now.definitions },
    ghost falling: { none_rises ≡ true → NoneRises graph.items levels.items },
}

impl<'p> Leveled<'p> {
    fn of(alloc: Global, counted: Calls, places: &'p Places<'p>) -> Result<Leveled<'p>, NoMemory>
        ensures program { IfOk result (λ g. g.places.now.program.now ≡ places.entry.now.program.now) }
        ensures counted { IfOk result (λ g. g.counted ≡ counted) }
    {
        let graph = graph(alloc, counted, places)?;
        let levels = Order::of(alloc, &graph)?.levels;
        let none_rises = none_rises(&graph, &levels);
        Ok(Leveled {
            places,
            counted,
            graph,
            levels,
            none_rises,
        })
    }

    /// Whether the definition reaches itself by the calls that count. It is searched for only where the
    /// levels leave it open, as they do where it does.
    fn cycles(&self, alloc: Global, definition: &Definition) -> Result<bool, NoMemory>
        ensures { IfOk result (λ b. IsTrue b ↔ Reaches (called (counts_behind self.now.counted)) (definitions_of self.now.places.now.program.now.definitions) definition.now.name definition.now.name) }
    {
        let node = self.places.place(definition.name);
        if self.none_rises && only_falls(&self.graph, &self.levels, node) {
            return Ok(false);
        }
        let found = reaches_itself(alloc, &self.graph, node)?;
        Ok(found)
    }

    /// Whether the definition is on a cycle that it may not be on. Only one that holds `|` is looked for
    /// along all calls.
    fn is_bad(&self, alloc: Global, definition: &Definition) -> Result<bool, NoMemory>
        ensures { IfOk result (λ b. IsTrue b ↔ IsBadCycle self.now.counted self.now.places.now.program.now.definitions definition.now) }
    {
        match self.counted {
            Calls::Unguarded => self.cycles(alloc, definition),
            Calls::All => {
                if !holds_par(&definition.body) {
                    return Ok(false);
                }
                self.cycles(alloc, definition)
            }
        }
    }

    /// Whether the definition of the number is on such a cycle.
    fn is_bad_at(&self, alloc: Global, at: usize) -> Result<bool, NoMemory>
        ensures { IfOk result (λ b. IsTrue b ↔ CyclesAt self.now.counted self.now.places.now.program.now.definitions at) }
    {
        match self.places.program.definitions.get(at) {
            None => Ok(false),
            Some(definition) => self.is_bad(alloc, definition),
        }
    }

    /// The first definition that is on such a cycle.
    fn first_bad(&self, alloc: Global) -> Result<Option<Site>, NoMemory>
        requires { length self.now.places.now.program.now.definitions < 2 ^ 32 }
        ensures { IfOk result (IsFirstSite (CycleSite self.now.counted self.now.places.now.program.now)) }
    {
        for at in 0..self.places.program.definitions.len() {
            let bad = self.is_bad_at(alloc, at)?;
            if bad {
                return Ok(Some(Site::Definition(at as u32)));
            }
        }
        Ok(None)
    }
}

/// The first definition that is on a cycle that it may not be on.
pub fn first_bad_cycle(
    alloc: Global,
    counted: Calls,
    places: &Places<'_>,
) -> Result<Option<Site>, NoMemory>
    requires { length places.now.program.now.definitions < 2 ^ 32 }
    ensures { IfOk result (IsFirstSite (CycleSite counted places.now.program.now)) }
{
    let calls = Leveled::of(alloc, counted, &*places)?;
    calls.first_bad(alloc)
}
