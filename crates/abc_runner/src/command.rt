ghost use Rattle.std.specs.Prelude.{◌≡◌, ◌<◌, ◌≤◌, ◌^◌, true, IfSome, SomeIff};
ghost use Rattle.std.specs.List.{list_all};
ghost use Rattle.std.specs.Char.{is_ascii_digit};
ghost use Rattle.std.specs.Str.Parse.{digits_value};
ghost use Rattle.abc_runner.specs.Commands.{command_in, is_name, is_plain, leads_with_zero, number_of, is_number, is_shape, shape_of, other_where, print_row, run_row, solo_row, IsWithin};

use crate::limits::{LEAST_SIZE, MOST_NUMBER, MOST_SIZE, MOST_WORKERS};
use abc_shape::Shape;
use abc_trace::{MOST_LIMIT, MOST_NODES, MOST_PICK};

/// What the words after the program's name ask for.
#[derive(Clone, Copy, Debug, PartialEq, Eq)]
pub enum Command {
    /// The run by the calculus alone, of at most `limit` numbers; `pick` chooses among the moves.
    Solo {
        limit: u32,
        pick: u64,
    },
    /// The run as a network of this shape with `nodes` nodes, of at most `limit` numbers. It is made
    /// on one thread, whatever the number of workers.
    Net {
        shape: Shape,
        limit: u32,
        nodes: u32,
        workers: u32,
        pick: u64,
    },
    /// The canonical text.
    Print,
    /// Another row of the table of commands.
    Other,
}

impl Command {
    /// The command of a list of words, by the table of commands; `None` exactly for all other lists.
    pub fn read(words: &[String]) -> Option<Command>
        ensures value { result ≡ command_in words.now }
        ensures within { IfSome result IsWithin }
    {
        match words {
            [name] => print(name.as_str()),
            [name, limit, pick] => solo(name.as_str(), limit.as_str(), pick.as_str()),
            [name, number, size, shape] => other(
                is_name(name.as_str(), "gen")
                    && is_number(number.as_str(), 0, MOST_NUMBER)
                    && is_number(size.as_str(), LEAST_SIZE, MOST_SIZE)
                    && is_shape(shape.as_str()),
            ),
            [name, shape, limit, nodes, workers, pick] => network(
                name.as_str(),
                shape.as_str(),
                limit.as_str(),
                nodes.as_str(),
                workers.as_str(),
                pick.as_str(),
            ),
            _ => None,
        }
    }
}

fn print(name: &str) -> Option<Command>
    ensures value { result ≡ print_row name.now }
    ensures within { IfSome result IsWithin }
{
    if is_name(name, "print") {
        Some(Command::Print)
    } else {
        None
    }
}

fn other(holds: bool) -> Option<Command>
    ensures value { result ≡ other_where holds }
    ensures within { IfSome result IsWithin }
{
    if holds { Some(Command::Other) } else { None }
}

fn solo(name: &str, limit: &str, pick: &str) -> Option<Command>
    ensures value { result ≡ solo_row name.now limit.now pick.now }
    ensures within { IfSome result IsWithin }
{
    if !is_name(name, "solo") {
        return None;
    }
    match (number(limit, 1, MOST_LIMIT), number(pick, 0, MOST_PICK)) {
        (Some(limit), Some(pick)) => Some(Command::Solo {
            limit: limit as u32,
            pick,
        }),
        _ => None,
    }
}

fn network(
    name: &str,
    shape: &str,
    limit: &str,
    nodes: &str,
    workers: &str,
    pick: &str,
) -> Option<Command>
    ensures value { result
        ≡ run_row name.now shape.now limit.now nodes.now workers.now pick.now }
    ensures within { IfSome result IsWithin }
{
    if !is_name(name, "run") {
        return None;
    }
    let shape = shape_in(shape)?;
    let limit = number(limit, 1, MOST_LIMIT)?;
    let nodes = number(nodes, 1, MOST_NODES)?;
    let workers = number(workers, 1, MOST_WORKERS)?;
    let pick = number(pick, 0, MOST_PICK)?;
    Some(Command::Net {
        shape,
        limit: limit as u32,
        nodes: nodes as u32,
        workers: workers as u32,
        pick,
    })
}

fn is_name(word: &str, name: &str) -> bool
    ensures { result ≡ is_name name.now word.now }
{
    word == name
}

/// The shape that a word names.
fn shape_in(word: &str) -> Option<Shape>
    ensures { result ≡ shape_of word.now }
{
    if is_name(word, "cluster") {
        Some(Shape::Cluster)
    } else if is_name(word, "ring") {
        Some(Shape::Ring)
    } else if is_name(word, "tree") {
        Some(Shape::Tree)
    } else {
        None
    }
}

fn is_shape(word: &str) -> bool
    ensures { result ≡ is_shape word.now }
{
    shape_in(word).is_some()
}

fn is_number(word: &str, low: u64, high: u64) -> bool
    ensures { result ≡ is_number low high word.now }
{
    number(word, low, high).is_some()
}

/// The number that a word writes, where it is one from `low` to `high`.
fn number(word: &str, low: u64, high: u64) -> Option<u64>
    ensures value { result ≡ number_of low high word.now }
    ensures within { IfSome result (λ n. (low ≤ n) × (n ≤ high)) }
{
    if !is_plain(word.as_bytes()) {
        return None;
    }
    let n = value(word)?;
    if low <= n && n <= high { Some(n) } else { None }
}

/// The number that digits write, where it fits 64 bits.
fn value(digits: &str) -> Option<u64>
    requires { is_plain digits.now ≡ true }
    ensures { SomeIff result (digits_value 10 digits.now < 2 ^ 64) (digits_value 10 digits.now) }
{
    digits.parse::<u64>().ok()
}

fn is_plain(word: &[u8]) -> bool
    ensures { result ≡ is_plain word.now }
{
    !word.is_empty() && is_digits(word) && !leads_with_zero(word)
}

fn leads_with_zero(word: &[u8]) -> bool
    ensures { result ≡ leads_with_zero word.now }
{
    word.len() > 1 && word[0] == b'0'
}

fn is_digits(word: &[u8]) -> bool
    ensures { result ≡ list_all is_ascii_digit word.now }
{
    word.iter().all(|byte| byte.is_ascii_digit())
}
