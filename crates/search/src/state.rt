// The search state: handed in and back by each step.
ghost use Rattle.std.specs.Prelude.{◌≡◌, ◌-◌, ◌≤◌, ◌<◌, cond, eqb, set};
ghost use Rattle.std.specs.List.{list_all};
ghost use Rattle.sets.specs.Sets.{set_of};
ghost use Rattle.search.specs.Search.{rows_below, free};
ghost use Rattle.search.specs.State.{fresh_state, placed_at, distinct, left_of};

use sets::Set;

// Entries n - placed to n - 1 of the order are the rows placed, the highest level first; all others are 255. This form is
// document 01's.
#[derive(Clone, Copy, Debug, PartialEq, Eq)]
pub struct State {
    pub order: [u8; 96],
    pub placed: usize,
    pub cursor: usize,
}

// A function by this name, as document 01 speaks of a fresh state.
pub fn fresh() -> State
    ensures { result ≡ fresh_state }
{
    State {
        order: [255; 96],
        placed: 0,
        cursor: 0,
    }
}

// Whether the entries are all 255. That n is at most 96 is asked where it is needed: a type for so small a count would be no plainer.
fn is_blank(entries: &[u8]) -> bool
    ensures { result ≡ list_all (λ x. eqb x 255) entries.now }
{
    entries.iter().all(|&entry| entry == 255)
}

// Takes the rows placed, the lowest level first, out of the rows below n: each must be one that is still there.
fn unplaced(n: usize, placed: &[u8]) -> Option<Set>
    requires { n ≤ 96 }
    ensures { result ≡ cond (distinct n placed.now) (Some (set_of (free (rows_below n) placed.now))) None }
{
    let mut rows = Set::below(n);
    for &row in placed.iter().rev() {
        if !rows.has(row as usize) {
            return None;
        }
        rows = rows.without(row as usize);
    }
    Some(rows)
}

// Row k at the lowest free level of n, where so many are placed.
pub(crate) fn put(order: &mut [u8; 96], n: usize, placed: usize, k: usize)
    requires { (n ≤ 96) × (placed < n) × (k < n) }
    ensures { order.new ≡ set order.old (n - 1 - placed) k }
{
    order[n - 1 - placed] = k as u8;
}

impl State {
    // Row k at the lowest free level of n.
    pub(crate) fn place(&mut self, n: usize, k: usize)
        requires { (n ≤ 96) × (self.old.placed < n) × (k < n) }
        ensures { self.new ≡ placed_at n self.old k }
    {
        put(&mut self.order, n, self.placed, k);
        self.placed += 1;
        self.cursor = 0;
    }

    // The rows that the state leaves unplaced of n: none where the state is not sound against n.
    pub(crate) fn left(&self, n: usize) -> Option<Set>
        requires { n ≤ 96 }
        ensures { result ≡ left_of n self.now }
    {
        if n < self.placed || n < self.cursor {
            return None;
        }
        let from = n - self.placed;
        if !is_blank(&self.order[..from]) || !is_blank(&self.order[n..]) {
            return None;
        }
        unplaced(n, &self.order[from..n])
    }
}
