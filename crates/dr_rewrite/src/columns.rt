//! What servers call keys and aggregates.

ghost use Rattle.std.specs.Prelude.{◌≡◌, ◌++◌, ℕ, map, string_bytes, IfOk, OnOk};
ghost use Rattle.dr_rewrite.specs.Items as written;

use crate::literals::push_count;
use dr_memory::NoMemory;
use std::alloc::{AllocError, Global};

/// Appends what servers call a key: k0, k1, ..
pub(crate) fn push_key_name(number: usize, out: &mut String) -> Result<(), AllocError>
    ensures { OnOk result (string_bytes out.new ≡ string_bytes out.old ++ written.key_name number) }
{
    out.push_str("k")?;
    push_count(number, out)
}

/// Appends what servers call an aggregate: a0, a1, ..
pub(crate) fn push_aggregate_name(number: usize, out: &mut String) -> Result<(), AllocError>
    ensures { OnOk result (string_bytes out.new ≡ string_bytes out.old ++ written.aggregate_name number) }
{
    out.push_str("a")?;
    push_count(number, out)
}

/// What servers call a key.
pub(crate) fn key_name(alloc: Global, number: usize) -> Result<String, NoMemory>
    ensures { IfOk result (λ s. string_bytes s ≡ written.key_name number) }
{
    let mut text = String::new(alloc);
    push_key_name(number, &mut text)?;
    Ok(text)
}

/// What servers call an aggregate.
pub(crate) fn aggregate_name(alloc: Global, number: usize) -> Result<String, NoMemory>
    ensures { IfOk result (λ s. string_bytes s ≡ written.aggregate_name number) }
{
    let mut text = String::new(alloc);
    push_aggregate_name(number, &mut text)?;
    Ok(text)
}

/// What servers call the keys.
pub(crate) fn key_names(alloc: Global, keys: &[u32]) -> Result<Vec<String>, NoMemory>
    ensures { IfOk result (λ v. map string_bytes v.items
        ≡ written.indexed (λ (i k : ℕ). written.key_name i) 0 keys.now) }
{
    let mut texts = Vec::with_capacity(alloc, keys.len())?;
    'keys: for (place, _) in keys.iter().enumerate() {
        texts.push(key_name(alloc, place)?)?;
    }
    Ok(texts)
}
