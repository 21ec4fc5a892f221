//! What is at hand of the columns of several leaves.

ghost use Rattle.std.specs.Prelude.{◌≡◌, ◌<◌, ◌≤◌, ◌⊎◌, [], ℕ, length, map, drop, get_or, true, false, None, Some, IfOk};
ghost use Rattle.dr_meaning.specs.OneColumn.{starts};
ghost use Rattle.dr_levels.specs.Views.{triplets_view};
ghost use Rattle.dr_agreement.specs.AtHand.{here_of, ends_of, whole_at, form_of, AreFronts, CanPass};

use crate::at_hand::AtHand;
use dr_levels::Triplets;
use dr_memory::NoMemory;
use std::alloc::Global;

/// The first leaf that has no whole record, and behind whose triplets more may come.
pub fn wanting(leaves: &[AtHand]) -> Option<usize>
    ensures some { (i : ℕ) → result ≡ Some i → (i < length leaves.now) × (ends_of leaves.now i ≡ false) }
    ensures none { result ≡ None → (i : ℕ) → i < length leaves.now → whole_at leaves.now i ≡ 0
        → ends_of leaves.now i ≡ true }
{
    'leaves: for at in 0..leaves.len() {
        if leaves[at].wants_more() {
            return Some(at);
        }
    }
    None
}

/// So many records, or as many as each leaf has whole ones.
pub fn least_whole(leaves: &[AtHand], most: usize) -> usize
    ensures within { result ≤ most }
    ensures each { (i : ℕ) → i < length leaves.now → result ≤ whole_at leaves.now i }
    ensures reached { (result ≡ most) ⊎ ((i : ℕ) × (i < length leaves.now) × (whole_at leaves.now i ≡ result)) }
{
    let mut least = most;
    'leaves: for at in 0..leaves.len() {
        least = least.min(leaves[at].whole());
    }
    least
}

/// Whether nothing is left of any leaf.
pub fn all_passed(leaves: &[AtHand]) -> bool
    ensures all { result ≡ true → (i : ℕ) → i < length leaves.now → here_of leaves.now i ≡ [] }
    ensures some { result ≡ false → (i : ℕ) × (i < length leaves.now) × (0 < length (here_of leaves.now i)) }
{
    'leaves: for at in 0..leaves.len() {
        if !leaves[at].is_empty() {
            return false;
        }
    }
    true
}

/// The triplets of the next so many records of each leaf.
///
/// Errors: want of memory alone.
pub fn fronts_of<'c>(
    alloc: Global,
    leaves: &'c [AtHand],
    records: usize,
) -> Result<Vec<Triplets<'c>>, NoMemory>
    requires { (i : ℕ) → i < length leaves.now → records ≤ whole_at leaves.now i }
    ensures { IfOk result (λ v. AreFronts records leaves.now (map triplets_view v.items)) }
{
    let mut fronts = Vec::with_capacity(alloc, leaves.len())?;
    'leaves: for at in 0..leaves.len() {
        fronts.push(leaves[at].front(records))?;
    }
    Ok(fronts)
}

/// How many triplets each of some columns has.
///
/// Errors: want of memory alone.
pub fn lengths_of(alloc: Global, columns: &[Triplets<'_>]) -> Result<Vec<usize>, NoMemory>
    ensures { IfOk result (λ v. v.items ≡ map (λ c. length (triplets_view c)) columns.now) }
{
    let mut lengths = Vec::with_capacity(alloc, columns.len())?;
    'columns: for column in columns {
        lengths.push(column.len())?;
    }
    Ok(lengths)
}

/// Passes so many triplets of each leaf, in which so many records begin.
pub fn pass_each(leaves: &mut [AtHand], counts: &[usize], records: usize)
    requires count { length counts.now ≡ length leaves.old }
    requires each { (i : ℕ) → i < length leaves.old → CanPass (here_of leaves.old i) (get_or counts.now i 0) records }
    ensures here { (i : ℕ) → here_of leaves.new i ≡ drop (get_or counts.now i 0) (here_of leaves.old i) }
    ensures ends { (i : ℕ) → ends_of leaves.new i ≡ ends_of leaves.old i }
    ensures forms { map form_of leaves.new ≡ map form_of leaves.old }
{
    'leaves: for (at, leaf) in leaves.iter_mut().enumerate() {
        leaf.pass(counts[at], records);
    }
}
