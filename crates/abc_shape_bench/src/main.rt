//! The plan of a shape with so many agents and nodes, printed: the words are SHAPE AGENTS NODES.
//!
//! - `link FROM TO`: the ends of each link, by its number.
//! - `home`, `successor`, `parent`: a number for each agent, and for each node; `-` where there is none.
//! - `number ACTOR`: the numbers of the links from this actor to each actor.
//! - `route NODE`: the links from this node towards each agent; in a ring from the agent's home alone.
//!
//! cases/plans compares it with tables that are made another way.
#![tactic(auto)]

ghost use Rattle.std.specs.Prelude.{◌<◌};

use abc_io::{StdSink, write_whole};
use abc_shape::{MOST_AGENTS, MOST_NODES, Plan, Shape};
use abc_value::NoMemory;
use std::alloc::Global;
use std::process::ExitCode;
use std::rt::Env;
use std::{env, io};

fn shape_of(word: &str) -> Option<Shape> {
    match word {
        "cluster" => Some(Shape::Cluster),
        "ring" => Some(Shape::Ring),
        "tree" => Some(Shape::Tree),
        _ => None,
    }
}

/// The plan that three words ask for, where they are within the limits and there is memory.
fn plan_of(alloc: Global, shape: &str, agents: &str, nodes: &str) -> Option<Plan> {
    let shape = shape_of(shape)?;
    let agents = agents.parse::<u32>().ok()?;
    let nodes = nodes.parse::<u32>().ok()?;
    if agents == 0 || agents > MOST_AGENTS || nodes == 0 || nodes > MOST_NODES {
        return None;
    }
    Plan::new(alloc, shape, agents, nodes).ok()
}

fn put(out: &mut String, number: Option<u32>) -> Result<(), NoMemory> {
    match number {
        Some(number) => write!(out, " {number}")?,
        None => write!(out, " -")?,
    }
    Ok(())
}

fn put_links(out: &mut String, plan: &Plan) -> Result<(), NoMemory> {
    for ends in plan.links() {
        write!(out, "link {} {}\n", ends.from, ends.to)?;
    }
    Ok(())
}

fn put_homes(out: &mut String, plan: &Plan) -> Result<(), NoMemory> {
    write!(out, "home")?;
    for agent in 0..plan.agents() {
        put(out, Some(plan.home(agent)))?;
    }
    Ok(())
}

fn put_successors(out: &mut String, plan: &Plan) -> Result<(), NoMemory> {
    write!(out, "\nsuccessor")?;
    for node in 0..plan.nodes() {
        put(out, Some(plan.successor(node)))?;
    }
    Ok(())
}

fn put_parents(out: &mut String, plan: &Plan) -> Result<(), NoMemory> {
    write!(out, "\nparent")?;
    for node in 0..plan.nodes() {
        put(out, plan.parent(node))?;
    }
    Ok(())
}

fn put_numbers_from(out: &mut String, plan: &Plan, from: u32, actors: u32) -> Result<(), NoMemory> {
    write!(out, "\nnumber {from}")?;
    for to in 0..actors {
        put(out, plan.link(from, to))?;
    }
    Ok(())
}

fn put_numbers(out: &mut String, plan: &Plan) -> Result<(), NoMemory> {
    let actors = plan.agents() + plan.nodes();
    for from in 0..actors {
        put_numbers_from(out, plan, from, actors)?;
    }
    Ok(())
}

/// The link towards an agent. None in a ring from another node than the agent's home.
fn route_of(plan: &Plan, node: u32, agent: u32) -> Option<u32>
    requires node { node < plan.now.nodes }
    requires agent { agent < plan.now.agents }
{
    match plan.shape() {
        Shape::Ring => {
            if node == plan.home(agent) {
                Some(plan.route(node, agent))
            } else {
                None
            }
        }
        Shape::Cluster | Shape::Tree => Some(plan.route(node, agent)),
    }
}

fn put_routes_from(out: &mut String, plan: &Plan, node: u32) -> Result<(), NoMemory>
    requires { node < plan.now.nodes }
{
    write!(out, "\nroute {node}")?;
    for agent in 0..plan.agents() {
        put(out, route_of(plan, node, agent))?;
    }
    Ok(())
}

fn put_routes(out: &mut String, plan: &Plan) -> Result<(), NoMemory> {
    for node in 0..plan.nodes() {
        put_routes_from(out, plan, node)?;
    }
    Ok(())
}

/// All that is printed of a plan.
fn page_of(alloc: Global, plan: &Plan) -> Result<String, NoMemory> {
    let mut out = String::new(alloc);
    put_links(&mut out, plan)?;
    put_homes(&mut out, plan)?;
    put_successors(&mut out, plan)?;
    put_parents(&mut out, plan)?;
    put_numbers(&mut out, plan)?;
    put_routes(&mut out, plan)?;
    write!(out, "\n")?;
    Ok(out)
}

/// The page that the words ask for, where they ask for one and there is memory.
fn answer(alloc: Global, words: &[String]) -> Option<String> {
    match words {
        [shape, agents, nodes] => {
            let plan = plan_of(alloc, shape.as_str(), agents.as_str(), nodes.as_str())?;
            page_of(alloc, &plan).ok()
        }
        _ => None,
    }
}

/// The program's arguments after its own name.
fn words<R: Env + AllocGlobal>(rt: &R) -> io::Result<Vec<String>> {
    let args = env::args(rt)?;
    Ok(args.skip(1).collect(rt.alloc())?)
}

fn main(rt: HostRuntime) -> ExitCode {
    let Ok(words) = words(&rt) else {
        return ExitCode::FAILURE;
    };
    let Some(page) = answer(rt.alloc(), words.as_slice()) else {
        return ExitCode::FAILURE;
    };
    let mut sink = StdSink::new(rt.stdout());
    match write_whole(&mut sink, page.as_bytes()) {
        Ok(()) => ExitCode::SUCCESS,
        Err(_) => ExitCode::FAILURE,
    }
}
