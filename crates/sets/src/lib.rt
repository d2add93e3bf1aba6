// A set of rows is a mask of two words, row 0 the lowest bit of the first.
#![tactic(auto)]

ghost use Rattle.std.specs.Prelude.{ℕ, ◌≡◌, ◌-◌, ◌≤◌, List};
ghost use Rattle.std.specs.Iterator.{YieldsFirst, item_count};
ghost use Rattle.sets.specs.Sums.{first};
ghost use Rattle.sets.specs.Rows.{rows_between};
ghost use Rattle.sets.specs.Sets.{word, has, with_row, without_row, size, within, below};

use std::marker::Model;

#[repr(C)]
#[derive(Clone, Copy, Debug, Default, PartialEq, Eq)]
pub struct Set {
    pub low: u64,
    pub high: u64,
}

// The two words as one of 128 bits.
impl From<Set> for u128 {
    ghost from_gives = { λ s w. w ≡ word s };

    fn from(set: Set) -> Self {
        u128::from(set.high) << 64 | u128::from(set.low)
    }
}

impl From<u128> for Set {
    ghost from_gives = { λ w s. word s ≡ w };

    fn from(word: u128) -> Self {
        Self {
            low: (word % 0x1_0000_0000_0000_0000) as u64,
            high: (word >> 64) as u64,
        }
    }
}

impl Set {
    // No rows.
    pub const NONE: Self = Self { low: 0, high: 0 };

    // The rows 0 to n - 1.
    pub fn below(n: usize) -> Self
        ensures { result ≡ below n }
    {
        if n < 128 {
            Self::from((1u128 << n) - 1)
        } else {
            Self::from(u128::MAX)
        }
    }

    // A row is a bit of the one word or of the other.
    pub fn has(self, row: usize) -> bool
        ensures { result ≡ has self row }
    {
        let word = if row < 64 { self.low } else { self.high };
        row < 128 && (word >> (row % 64)) % 2 == 1
    }

    pub fn with(self, row: usize) -> Self
        ensures { result ≡ with_row self row }
    {
        if row < 128 {
            let word = u128::from(self) | (1u128 << row);
            Self::from(word)
        } else {
            self
        }
    }

    pub fn without(self, row: usize) -> Self
        ensures { result ≡ without_row self row }
    {
        if self.has(row) {
            let word = u128::from(self) - (1u128 << row);
            Self::from(word)
        } else {
            self
        }
    }

    // How many rows: the number of ones.
    pub fn size(self) -> u32
        ensures { result ≡ size self }
    {
        u128::from(self).count_ones()
    }

    // The first row of the set from `from` on; where there is none, 128, or `from` where that is more.
    // That it is a number stays, as its clause has it; a walk is `rows`. It looks at one word of 64 bits after the other: with one of 128 a walk takes half as long again.
    pub fn next(self, mut from: usize) -> usize
        ensures { result ≡ first (has self) (128 - from) from }
    {
        if from < 64 {
            let row = from + (self.low >> from).trailing_zeros() as usize;
            if row < 64 {
                return row;
            }
            from = 64;
        }
        if 128 <= from {
            return from;
        }
        let row = from + (self.high >> (from - 64)).trailing_zeros() as usize;
        row.min(128)
    }

    // Whether every row of the set is below n.
    pub fn within(self, n: usize) -> bool
        ensures { result ≡ within self n }
    {
        128 <= n || u128::from(self) < 1u128 << n
    }

    // The rows of the set below n, rising. There are none from 128 on.
    #[tactic(auto, using(crate::specs::RowsLaws::rows_most))]
    pub fn rows(self, n: usize) -> Rows
        ensures { result ≡ rows_between (has self) 0 n }
    {
        Rows {
            set: self,
            from: 0,
            end: n.min(128),
        }
    }
}

// The rows of a set that a walk over them has still to come to, seen as their list.
#[derive(Drop)]
pub struct Rows {
    set: Set,
    from: usize,
    end: usize,
}

impl Model for Rows {
    ghost Value = { List ℕ };

    ghost view = { λ r. rows_between (has r.set) r.from r.end };

    ghost invariant = { λ r. r.end ≤ 128 };
}

impl Iterator for Rows {
    type Item = usize;

    ghost next_gives = { YieldsFirst (λ rest. rest) };

    ghost remaining = { item_count (λ rest. rest) };

    #[tactic(auto, using(crate::specs::RowsLaws::rows_first, crate::specs::RowsLaws::rows_last))]
    fn next(&mut self) -> Option<usize> {
        let row = self.set.next(self.from);
        if row < self.end {
            self.from = row + 1;
            Some(row)
        } else {
            None
        }
    }
}
