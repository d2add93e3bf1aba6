// How much a row works in a length, and what it takes from a row below it.
#![tactic(auto)]

ghost use Rattle.std.specs.Prelude.{◌≡◌, ◌-◌, min};
ghost use Rattle.workload.specs.Workload.{work as workload_work, cap as workload_cap, plain as workload_plain, carry as workload_carry, extra as workload_extra};

use rows::Row;

// D - C of a row, 0 where C exceeds D.
fn slack(row: Row) -> u64
    ensures { result ≡ row.d - row.c }
{
    row.d.saturating_sub(row.c) as u64
}

// The work of a row in a length. In less than a period there is nothing to divide.
#[tactic(auto, using(crate::proofs::WorkloadLaws::work_divided))]
pub fn work(row: Row, length: u32) -> u64
    ensures { result ≡ workload_work row length }
{
    let c = row.c as u64;
    if row.t == 0 || length < row.t {
        return c.min(length as u64);
    }
    (length / row.t) as u64 * c + c.min((length % row.t) as u64)
}

// The work of a row in a length, at most `most`. What does not fit 64 bits is more than that.
#[tactic(auto, unfolding(crate::specs::Workload::work))]
fn work_up_to(row: Row, length: u64, most: u64) -> u64
    ensures { result ≡ min (workload_work row length) most }
{
    let (c, t) = (row.c as u64, row.t as u64);
    let whole = length.checked_div(t).unwrap_or(0);
    let last = c.min(length - whole * t);
    whole.saturating_mul(c).saturating_add(last).min(most)
}

// The most that one row above takes from row k.
#[tactic(auto, unfolding(crate::specs::Workload::cap))]
pub fn cap(k: Row) -> u64
    ensures { result ≡ workload_cap k }
{
    slack(k) + 1
}

// Plain interference of row i on row k.
#[tactic(auto, unfolding(crate::specs::Workload::plain))]
pub fn plain(k: Row, i: Row) -> u64
    ensures { result ≡ workload_plain k i }
{
    work(i, k.d).min(cap(k))
}

// Carry-in interference of row i on row k. Of rows in range the length fits 32 bits: by 64 bits for all, a search takes 6 to 9 in a hundred instructions more.
#[tactic(auto, unfolding(crate::specs::Workload::carry))]
pub fn carry(k: Row, i: Row) -> u64
    ensures { result ≡ workload_carry k i }
{
    let length = k.d as u64 + slack(i);
    if let Ok(short) = u32::try_from(length) {
        return work(i, short).min(cap(k));
    }
    work_up_to(i, length, cap(k))
}

// The difference that the carry-in of row i adds on row k.
#[tactic(auto, using(crate::proofs::WorkloadLaws::plain_carry), unfolding(crate::specs::Workload::extra))]
pub fn extra(k: Row, i: Row) -> u64
    ensures { result ≡ workload_extra k i }
{
    carry(k, i) - plain(k, i)
}
