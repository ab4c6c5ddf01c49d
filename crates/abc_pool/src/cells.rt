//! Cells of one table, and the chains that go through them.
ghost use Rattle.std.specs.Prelude.{◌≡◌, ◌+◌, ◌^◌, ◌<◌, [], ◌∷◌, ◌++◌, vec_len, vec_capacity};
ghost use Rattle.abc_pool.specs.Tables.{no_cell, item_of, rest_of, filled, linked, lengthened, moved};

use std::mem::replace;

/// A cell with an item or none. `next` is the cell after it where it stands in a chain and isn't the
/// last one there, and has no meaning elsewhere.
#[derive(Debug, Drop)]
pub(crate) struct Cell<T> {
    pub(crate) item: Option<T>,
    pub(crate) next: usize,
}

/// `count` cells, one after the other from the first to the last. An empty chain has no first or last
/// cell, and its fields mean nothing.
#[derive(Clone, Copy, Debug)]
pub(crate) struct Chain {
    pub(crate) first: usize,
    pub(crate) last: usize,
    pub(crate) count: usize,
}

impl Chain {
    /// The chain without cells.
    pub(crate) const EMPTY: Chain = Chain {
        first: 0,
        last: 0,
        count: 0,
    };
}

/// Takes the first cell out of a chain, and answers its index.
fn take_first<T>(cells: &Vec<Cell<T>>, chain: &mut Chain) -> usize
    requires some { 0 < chain.old.count }
    requires first_in { chain.old.first < vec_len cells.now }
    ensures first { result ≡ chain.old.first }
    ensures rest { chain.new ≡ rest_of cells.now.items chain.old }
{
    let cell = chain.first;
    chain.first = cells[cell].next;
    chain.count -= 1;
    cell
}

/// Puts an item, or none, into a cell, and answers what was there.
fn swap_item<T>(cells: &mut Vec<Cell<T>>, cell: usize, item: Option<T>) -> Option<T>
    requires { cell < vec_len cells.old }
    ensures item { result ≡ item_of cells.old.items cell }
    ensures cells { cells.new.items ≡ filled cells.old.items cell item }
    ensures size { vec_len cells.new ≡ vec_len cells.old }
{
    replace(&mut cells[cell].item, item)
}

/// Puts a cell behind the last one of a chain.
fn append<T>(cells: &mut Vec<Cell<T>>, chain: &mut Chain, cell: usize)
    requires room { chain.old.count + 1 < 2 ^ 64 }
    requires last_in { 0 < chain.old.count → chain.old.last < vec_len cells.old }
    ensures cells { cells.new.items ≡ linked cells.old.items chain.old cell }
    ensures size { vec_len cells.new ≡ vec_len cells.old }
    ensures space { vec_capacity cells.new ≡ vec_capacity cells.old }
    ensures chain { chain.new ≡ lengthened chain.old cell }
{
    if chain.count == 0 {
        chain.first = cell;
    } else {
        cells[chain.last].next = cell;
    }
    chain.last = cell;
    chain.count += 1;
}

/// Moves the first cell of a chain behind the last one of another. The cell has this item, or none, from
/// then on; what it had before is answered.
pub(crate) fn move_first<T>(
    cells: &mut Vec<Cell<T>>,
    from: &mut Chain,
    to: &mut Chain,
    item: Option<T>,
) -> Option<T>
    requires some { 0 < from.old.count }
    requires first_in { from.old.first < vec_len cells.old }
    requires room { to.old.count + 1 < 2 ^ 64 }
    requires last_in { 0 < to.old.count → to.old.last < vec_len cells.old }
    ensures item { result ≡ item_of cells.old.items from.old.first }
    ensures cells { cells.new.items ≡ moved cells.old.items from.old to.old item }
    ensures from { from.new ≡ rest_of cells.old.items from.old }
    ensures to { to.new ≡ lengthened to.old from.old.first }
{
    let cell = take_first(cells, from);
    let item_before = swap_item(cells, cell, item);
    append(cells, to, cell);
    item_before
}

/// Puts a new cell into the table and behind the last one of a chain.
pub(crate) fn add_cell<T>(cells: &mut Vec<Cell<T>>, chain: &mut Chain)
    requires space { vec_len cells.old < vec_capacity cells.old }
    requires room { chain.old.count + 1 < 2 ^ 64 }
    requires last_in { 0 < chain.old.count → chain.old.last < vec_len cells.old }
    ensures cells { cells.new.items
        ≡ linked (cells.old.items ++ no_cell ∷ []) chain.old (vec_len cells.old) }
    ensures chain { chain.new ≡ lengthened chain.old (vec_len cells.old) }
    ensures space { vec_capacity cells.new ≡ vec_capacity cells.old }
    ensures grown { vec_len cells.new ≡ vec_len cells.old + 1 }
{
    let cell = cells.len();
    cells.push_reserved(Cell {
        item: None,
        next: 0,
    });
    append(cells, chain, cell);
}
