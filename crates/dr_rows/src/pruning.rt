//! What a condition leaves of a record.

ghost use Rattle.std.specs.Prelude.{◌≡◌, Bool, map, option_map};
ghost use Rattle.dr_meaning.specs.Kept.{kept_along};
ghost use Rattle.dr_meaning.specs.Record as record_tree;
ghost use Rattle.dr_meaning.specs.Record.{instances_at, put_at};
ghost use Rattle.dr_nested.specs.Views.{instance_view, instances_view, slot_view, node_view};
ghost use Rattle.dr_nested.specs.PathView.{step_view};
ghost use Rattle.dr_rows.specs.Pruning.{kept_if, pruned_along, pruned_each, pruned_instance, slot_instances, slot_with, field_pruned, AreAnswersOf};

use crate::answers::Answers;
use crate::settling::settle;
use dr_nested::{Instance, Node, Slot, Step};

/// Whether a node is kept along a chain.
#[cycle(pruning)]
fn prune_node(node: &mut Node, chain: &[Step], answers: &mut Answers<'_>) -> bool
    ensures kept { kept_if result (node_view node.new)
        ≡ (pruned_along (map step_view chain.now) (node_view node.old) (answers.old).rest.now).kept }
    ensures left { (answers.new).rest.now ≡ (pruned_along (map step_view chain.now) (node_view node.old)
        (answers.old).rest.now).left }
{
    match chain {
        [] => answers.next(),
        [step, rest @ ..] => prune_field(node, step.place, rest, answers),
    }
}

/// Whether a node is kept along a chain below the field at a place.
#[cycle(pruning)]
fn prune_field(node: &mut Node, place: usize, chain: &[Step], answers: &mut Answers<'_>) -> bool
    ensures kept { kept_if result (node_view node.new) ≡ option_map (λ xs. put_at place xs (node_view node.old))
        (field_pruned chain.now (instances_at place (node_view node.old)) (answers.old).rest.now).kept }
    ensures left { (answers.new).rest.now
        ≡ (field_pruned chain.now (instances_at place (node_view node.old)) (answers.old).rest.now).left }
{
    match node.slots.get_mut(place) {
        Some(slot) => prune_slot(slot, chain, answers),
        None => answers.next(),
    }
}

#[cycle(pruning)]
fn prune_slot(slot: &mut Slot, chain: &[Step], answers: &mut Answers<'_>) -> bool
    ensures kept { kept_if result (slot_view slot.new) ≡ option_map (slot_with (slot_view slot.old))
        (field_pruned chain.now (slot_instances (slot_view slot.old)) (answers.old).rest.now).kept }
    ensures left { (answers.new).rest.now
        ≡ (field_pruned chain.now (slot_instances (slot_view slot.old)) (answers.old).rest.now).left }
{
    match slot {
        Slot::Gap => answers.next(),
        Slot::Held(instances) => prune_held(instances, chain, answers),
    }
}

/// Whether any of a field's instances is kept; where there is none, whether the field is.
#[cycle(pruning)]
fn prune_held(instances: &mut Vec<Instance>, chain: &[Step], answers: &mut Answers<'_>) -> bool
    ensures kept { kept_if result (instances_view (instances.new).items)
        ≡ (field_pruned chain.now (instances_view (instances.old).items) (answers.old).rest.now).kept }
    ensures left { (answers.new).rest.now
        ≡ (field_pruned chain.now (instances_view (instances.old).items) (answers.old).rest.now).left }
{
    if instances.is_empty() {
        return answers.next();
    }
    prune_instances(instances, chain, answers);
    !instances.is_empty()
}

/// Leaves only the instances that are kept.
#[cycle(pruning)]
fn prune_instances(instances: &mut Vec<Instance>, chain: &[Step], answers: &mut Answers<'_>)
    ensures kept { instances_view (instances.new).items
        ≡ (pruned_each (pruned_instance (pruned_along (map step_view chain.now))) (instances_view (instances.old).items)
        (answers.old).rest.now).kept }
    ensures left { (answers.new).rest.now ≡ (pruned_each (pruned_instance (pruned_along (map step_view chain.now)))
        (instances_view (instances.old).items) (answers.old).rest.now).left }
{
    let mut kept = 0;
    'instances: for number in 0..instances.len() {
        let passes = prune_instance(&mut instances[number], chain, answers);
        kept = settle(instances, kept, number, passes);
    }
    instances.truncate(kept);
}

#[cycle(pruning)]
fn prune_instance(instance: &mut Instance, chain: &[Step], answers: &mut Answers<'_>) -> bool
    ensures kept { kept_if result (instance_view instance.new)
        ≡ (pruned_instance (pruned_along (map step_view chain.now)) (instance_view instance.old)
        (answers.old).rest.now).kept }
    ensures left { (answers.new).rest.now ≡ (pruned_instance (pruned_along (map step_view chain.now))
        (instance_view instance.old) (answers.old).rest.now).left }
{
    match instance {
        Instance::Atom(_) => answers.next(),
        Instance::Group(node) => prune_node(node, chain, answers),
    }
}

/// What a test of a chain's rows leaves of a record: the branches with a row that passes. The answers are the test's of
/// the record's rows, in order. Tells whether anything is left; where nothing is, the record isn't used any more.
pub fn prune(whole: &mut Node, chain: &[Step], answers: &[bool]) -> bool
    ensures { (test : record_tree.Node → Bool) → AreAnswersOf test chain.now whole.old answers.now
        → kept_if result (node_view whole.new) ≡ kept_along (map step_view chain.now) test (node_view whole.old) }
{
    let mut answers = Answers { rest: answers };
    prune_node(whole, chain, &mut answers)
}
