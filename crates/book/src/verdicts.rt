// A verdict and its form.
ghost use Rattle.std.specs.Prelude.{◌≡◌, not, ◌&&◌, ◌≤◌, ltb};
ghost use Rattle.sets.specs.Sets.{has};
ghost use Rattle.book.specs.Form.{order_fits, group_fits, formed as formed_of};

use crate::bytes;
use sets::Set;

// Kind 0 none, 1 order, 2 blocked; the order and the group as they stand in block 0.
// Of any form: `write` takes malformed ones too, and refuses them with 13.
#[derive(Clone, Copy, Debug, PartialEq, Eq)]
pub struct Verdict {
    pub kind: u32,
    pub order: [u8; 96],
    pub group: Set,
}

// A row below p that was not seen before.
fn row_fits(seen: Set, row: usize, p: usize) -> bool
    ensures { result ≡ ltb row p && not (has seen row) }
{
    row < p && !seen.has(row)
}

// A permutation of the p rows in the first p entries, all else 255.
fn order_fits(order: &[u8; 96], p: usize) -> bool
    requires { p ≤ 96 }
    ensures { result ≡ order_fits p order.now }
{
    let mut seen = Set::NONE;
    for row in &order[..p] {
        let row = usize::from(*row);
        if !row_fits(seen, row, p) {
            return false;
        }
        seen = seen.with(row);
    }
    bytes::all_are(&order[p..], 255)
}

// Nonempty and below row n for verdict 2, else empty.
#[tactic(auto, using(crate::specs::FormLaws::group_empty), unfolding(crate::specs::Form::group_fits))]
fn group_fits(kind: u32, group: Set, n: usize) -> bool
    ensures { result ≡ group_fits kind group n }
{
    if kind == 2 {
        group != Set::NONE && group.within(n)
    } else {
        group == Set::NONE
    }
}

impl Verdict {
    // Whether a verdict of n rows has a legal form.
    #[tactic(auto, using(std::proofs::lemmas::Bool::Decides::nat_tests), unfolding(crate::specs::Form::formed))]
    pub(crate) fn formed(&self, n: usize) -> bool
        requires { n ≤ 96 }
        ensures { result ≡ formed_of n self.now }
    {
        let p = if self.kind == 1 { n } else { 0 };
        self.kind <= 2 && order_fits(&self.order, p) && group_fits(self.kind, self.group, n)
    }
}
