//! The record of a number.

ghost use Rattle.std.specs.Prelude.{◌≡◌, ◌≤◌, ◌<◌, ◌^◌, ◌+◌, ◌%◌, ◌==◌, not, IfOk};
ghost use Rattle.dr_meaning.specs.Record.{no_slots, slot, single, inner};
ghost use Rattle.dr_nested.specs.Views.{instance_view, instances_view, node_view};
ghost use Rattle.dr_gen.specs.Generator as meant;

use dr_memory::NoMemory;
use dr_nested::{Instance, Node, Slot, Value};
use itoa::Buffer;
use std::alloc::Global;

/// A number.
fn number(value: u64) -> Instance
    requires { value < 2 ^ 63 }
    ensures { instance_view result ≡ meant.number value }
{
    Instance::Atom(Value::Int(value as i64))
}

/// A text that ends in a number.
fn numbered(alloc: Global, text: &str, number: u64) -> Result<Instance, NoMemory>
    ensures { IfOk result (λ i. instance_view i ≡ meant.numbered text.now number) }
{
    let mut digits = Buffer::new();
    let mut value = String::from_str(alloc, text)?;
    value.push_str(digits.format(number))?;
    Ok(Instance::Atom(Value::Text(value)))
}

/// One instance.
fn one(alloc: Global, instance: Instance) -> Result<Vec<Instance>, NoMemory>
    ensures { IfOk result (λ v. instances_view v.items ≡ single (instance_view instance)) }
{
    let mut instances = Vec::with_capacity(alloc, 1)?;
    instances.push(instance)?;
    Ok(instances)
}

/// A text that ends in a number, where it is there.
fn given(alloc: Global, there: bool, text: &str, number: u64) -> Result<Vec<Instance>, NoMemory>
    ensures { IfOk result (λ v. instances_view v.items ≡ meant.given there (meant.numbered text.now number)) }
{
    if there {
        one(alloc, numbered(alloc, text, number)?)
    } else {
        Ok(Vec::new(alloc))
    }
}

/// A group of two fields.
fn group(alloc: Global, first: Vec<Instance>, second: Vec<Instance>) -> Result<Instance, NoMemory>
    ensures { IfOk result (λ i. instance_view i
        ≡ inner (slot (instances_view first.items) (slot (instances_view second.items) no_slots))) }
{
    let mut slots = Vec::with_capacity(alloc, 2)?;
    slots.push(Slot::Held(first))?;
    slots.push(Slot::Held(second))?;
    Ok(Instance::Group(Node { slots }))
}

/// So many numbers, the first of which is this one.
fn numbers(alloc: Global, first: u64, count: u64) -> Result<Vec<Instance>, NoMemory>
    requires small { first < 2 ^ 40 }
    requires few { count ≤ 4 }
    ensures { IfOk result (λ v. instances_view v.items ≡ meant.several count (λ j. meant.number (first + j))) }
{
    let mut instances = Vec::with_capacity(alloc, count as usize)?;
    'numbers: for place in 0..count {
        instances.push(number(first + place))?;
    }
    Ok(instances)
}

/// Language k of name j of the record of x.
fn language(alloc: Global, x: u64, j: u64, k: u64) -> Result<Instance, NoMemory>
    requires small { x < 2 ^ 32 }
    requires name { j < 4 }
    requires language { k < 3 }
    ensures { IfOk result (λ i. instance_view i ≡ meant.language x j k) }
{
    let code = one(alloc, numbered(alloc, "c", (x + j + k) % 100)?)?;
    let country = given(alloc, (x + j + k) % 2 == 0, "n", (x + k) % 10)?;
    group(alloc, code, country)
}

/// So many languages of name j of the record of x.
fn languages(alloc: Global, x: u64, j: u64, count: u64) -> Result<Vec<Instance>, NoMemory>
    requires small { x < 2 ^ 32 }
    requires name { j < 4 }
    requires few { count ≤ 3 }
    ensures { IfOk result (λ v. instances_view v.items ≡ meant.several count (meant.language x j)) }
{
    let mut instances = Vec::with_capacity(alloc, count as usize)?;
    'languages: for k in 0..count {
        instances.push(language(alloc, x, j, k)?)?;
    }
    Ok(instances)
}

/// Name j of the record of x.
fn name(alloc: Global, x: u64, j: u64) -> Result<Instance, NoMemory>
    requires small { x < 2 ^ 32 }
    requires name { j < 4 }
    ensures { IfOk result (λ i. instance_view i ≡ meant.name x j) }
{
    let languages = languages(alloc, x, j, (x + j) % 3)?;
    let url = given(alloc, (x + j) % 2 != 0, "http://u/", x + j)?;
    group(alloc, languages, url)
}

/// So many names of the record of x.
fn names(alloc: Global, x: u64, count: u64) -> Result<Vec<Instance>, NoMemory>
    requires small { x < 2 ^ 32 }
    requires few { count ≤ 3 }
    ensures { IfOk result (λ v. instances_view v.items ≡ meant.several count (meant.name x)) }
{
    let mut instances = Vec::with_capacity(alloc, count as usize)?;
    'names: for j in 0..count {
        instances.push(name(alloc, x, j)?)?;
    }
    Ok(instances)
}

/// The links of the record of x.
fn links(alloc: Global, x: u64) -> Result<Instance, NoMemory>
    requires { x < 2 ^ 32 }
    ensures { IfOk result (λ i. instance_view i ≡ meant.links x) }
{
    let backward = numbers(alloc, x + 1, x % 4)?;
    let forward = numbers(alloc, 10 * x, x % 5)?;
    group(alloc, backward, forward)
}

/// The links of the record of x, where 3 doesn't divide it.
fn given_links(alloc: Global, x: u64) -> Result<Vec<Instance>, NoMemory>
    requires { x < 2 ^ 32 }
    ensures { IfOk result (λ v. instances_view v.items ≡ meant.given (not (x % 3 == 0)) (meant.links x)) }
{
    if x % 3 != 0 {
        one(alloc, links(alloc, x)?)
    } else {
        Ok(Vec::new(alloc))
    }
}

/// A record of three fields.
fn record(
    alloc: Global,
    first: Vec<Instance>,
    second: Vec<Instance>,
    third: Vec<Instance>,
) -> Result<Node, NoMemory>
    ensures { IfOk result (λ n. node_view n ≡ slot (instances_view first.items)
        (slot (instances_view second.items) (slot (instances_view third.items) no_slots))) }
{
    let mut slots = Vec::with_capacity(alloc, 3)?;
    slots.push(Slot::Held(first))?;
    slots.push(Slot::Held(second))?;
    slots.push(Slot::Held(third))?;
    Ok(Node { slots })
}

/// The record that is made from a number below 2^32, of the schema of made records.
///
/// Errors: want of memory alone.
pub fn node_of(alloc: Global, x: u64) -> Result<Node, NoMemory>
    requires { x < 2 ^ 32 }
    ensures { IfOk result (λ n. node_view n ≡ meant.record_of x) }
{
    let id = one(alloc, number(x))?;
    let links = given_links(alloc, x)?;
    let names = names(alloc, x, x % 4)?;
    record(alloc, id, links, names)
}
