//! The leaves of a schema.

ghost use Rattle.std.specs.Prelude.{◌≡◌, ◌≤◌, ◌<◌, ◌+◌, ◌++◌, IfOk, OnOk, map};
ghost use Rattle.dr_meaning.specs.Schema.{depth, shape_depth};
ghost use Rattle.dr_meaning.specs.Schema as tree;
ghost use Rattle.dr_meaning.specs.Path as path_meaning;
ghost use Rattle.dr_nested.specs.Views.{rep_view, shape_view, fields_view};
ghost use Rattle.dr_nested.specs.SchemaView.{schema_view};
ghost use Rattle.dr_write.specs.Chunks.{written_leaf};
ghost use Rattle.dr_write.specs.Leaves.{leaves_view, way_view, passed_below, at_root, fields_leaves, shape_leaves};

use crate::leaf::Leaf;
use dr_memory::NoMemory;
use dr_nested::{Field, Rep, Schema, Shape};
use std::alloc::Global;

/// The way from the root to a field: the names on it, how many of its fields are repeated, and how many need not be
/// there.
#[derive(Drop)]
struct Way<'a> {
    names: Vec<&'a [u8]>,
    repetition: u8,
    definition: u8,
}

impl<'a> Way<'a> {
    /// The way to the root.
    fn root(alloc: Global) -> Way<'a>
        ensures { way_view result ≡ at_root }
    {
        Way {
            names: Vec::new(alloc),
            repetition: 0,
            definition: 0,
        }
    }

    /// One field further.
    fn below(&self, alloc: Global, name: &'a str, rep: Rep) -> Result<Way<'a>, NoMemory>
        requires repetition { (self.now).repetition < 32 }
        requires definition { (self.now).definition < 32 }
        ensures { IfOk result (λ w. way_view w ≡ passed_below (way_view self.now) name.now (rep_view rep)) }
    {
        let mut names = Vec::with_capacity(alloc, self.names.len() + 1)?;
        names.extend_from_slice(&self.names)?;
        names.push(name.as_bytes())?;
        Ok(Way {
            names,
            repetition: self.repetition + repetition_count(rep),
            definition: self.definition + definition_count(rep),
        })
    }
}

/// What a field adds to the repetition level.
fn repetition_count(rep: Rep) -> u8
    ensures { result ≡ tree.repetition_count (rep_view rep) }
{
    match rep {
        Rep::Required | Rep::Optional => 0,
        Rep::Repeated => 1,
    }
}

/// What a field adds to the definition level.
fn definition_count(rep: Rep) -> u8
    ensures { result ≡ tree.definition_count (rep_view rep) }
{
    match rep {
        Rep::Required => 0,
        Rep::Optional | Rep::Repeated => 1,
    }
}

/// The leaves of a schema, in its order.
///
/// Errors: want of memory alone.
pub(crate) fn schema_leaves<'a>(
    alloc: Global,
    schema: &'a Schema,
) -> Result<Vec<Leaf<'a>>, NoMemory>
    ensures { IfOk result (λ v. leaves_view v.items
        ≡ map written_leaf (path_meaning.leaves (schema_view schema.now).fields)) }
{
    let mut leaves = Vec::new(alloc);
    push_fields(alloc, &Way::root(alloc), &schema.fields, &mut leaves)?;
    Ok(leaves)
}

/// Appends the leaves of a group.
#[cycle(leaves)]
fn push_fields<'a>(
    alloc: Global,
    way: &Way<'a>,
    fields: &'a Vec<Field>,
    leaves: &mut Vec<Leaf<'a>>,
) -> Result<(), NoMemory>
    requires repetition { (way.now).repetition + depth (fields_view (fields.now).items) ≤ 32 }
    requires definition { (way.now).definition + depth (fields_view (fields.now).items) ≤ 32 }
    ensures { OnOk result (leaves_view (leaves.new).items
        ≡ leaves_view (leaves.old).items ++ fields_leaves (way_view way.now) (fields_view (fields.now).items)) }
{
    'fields: for field in fields {
        let below = way.below(alloc, field.name.as_str(), field.rep)?;
        push_shape(alloc, below, &field.shape, leaves)?;
    }
    Ok(())
}

/// Appends the leaves of a field to which this is the way.
#[cycle(leaves)]
fn push_shape<'a>(
    alloc: Global,
    way: Way<'a>,
    shape: &'a Shape,
    leaves: &mut Vec<Leaf<'a>>,
) -> Result<(), NoMemory>
    requires repetition { way.repetition + shape_depth (shape_view shape.now) ≤ 32 }
    requires definition { way.definition + shape_depth (shape_view shape.now) ≤ 32 }
    ensures { OnOk result (leaves_view (leaves.new).items
        ≡ leaves_view (leaves.old).items ++ shape_leaves (way_view way.entry) (shape_view shape.now)) }
{
    match shape {
        Shape::Leaf(kind) => {
            leaves.push(Leaf {
                names: way.names,
                kind: *kind,
                max_repetition: way.repetition,
                max_definition: way.definition,
            })?;
            Ok(())
        }
        Shape::Group(fields) => push_fields(alloc, &way, fields, leaves),
    }
}
