//! What is selected of a record: a tree of the fields on the way to some leaves.

ghost use Rattle.std.specs.Prelude.{◌≡◌, ◌<◌, ◌+◌, ◌∷◌, List, length, map, get_or, slice_set as set, option_map, IfOk, OnOk};
ghost use Rattle.dr_meaning.specs.Path as leads;
ghost use Rattle.dr_nested.specs.PathView.{step_view, path_view};
ghost use Rattle.dr_nested.specs.Selected.{Selects, SelectsFirst, none_selected, selected_at};
ghost use Rattle.dr_nested.specs.SelectionView.{choice_view, selection_view, lent_selection, padded};

use crate::path::{Path, Step};
use std::alloc::{AllocError, Global};
use std::mem;

/// Whether a field is selected, and what is selected below it.
#[cycle(selection)]
#[derive(Drop)]
pub enum Choice {
    Skipped,
    Chosen(Selection),
}

/// The fields of a group on the way to some leaves, by their places. No field is behind the last.
#[cycle(selection)]
#[derive(Drop)]
pub struct Selection {
    pub fields: Vec<Choice>,
}

/// Makes room for the field at a place.
fn reach(fields: &mut Vec<Choice>, place: usize) -> Result<(), AllocError>
    ensures { OnOk result (fields.new.items ≡ padded (place + 1) fields.old.items) }
{
    while fields.len() <= place {
        fields.push(Choice::Skipped)?;
    }
    Ok(())
}

/// Takes out what is selected in the field at a place.
fn take_below(alloc: Global, fields: &mut Vec<Choice>, place: usize) -> Selection
    requires { place < length fields.old.items }
    ensures below { (F : List (List leads.Step))
        → SelectsFirst (choice_view (get_or fields.old.items place Choice.Skipped)) F
        → Selects (selection_view result) F }
    ensures others { fields.new.items ≡ set fields.old.items place Choice.Skipped }
{
    match mem::replace(&mut fields[place], Choice::Skipped) {
        Choice::Chosen(below) => below,
        Choice::Skipped => Selection::none(alloc),
    }
}

impl Selection {
    /// Nothing is selected.
    fn none(alloc: Global) -> Selection
        ensures { selection_view result ≡ none_selected }
    {
        Selection {
            fields: Vec::new(alloc),
        }
    }

    /// With one more leaf, by its path.
    fn with_path(self, alloc: Global, path: &[Step]) -> Result<Selection, AllocError>
        ensures { IfOk result (λ s. (F : List (List leads.Step)) → Selects (selection_view self) F
            → Selects (selection_view s) (map step_view path.now ∷ F)) }
    {
        let [first, rest @ ..] = path else {
            return Ok(self);
        };
        let Selection { mut fields } = self;
        reach(&mut fields, first.place)?;
        let below = take_below(alloc, &mut fields, first.place);
        let below = below.with_path(alloc, rest)?;
        fields[first.place] = Choice::Chosen(below);
        Ok(Selection { fields })
    }

    /// What is selected in the field at a place, if anything.
    pub fn at(&self, place: usize) -> Option<&Selection>
        ensures { option_map lent_selection result ≡ selected_at place (selection_view self.now) }
    {
        match self.fields.get(place) {
            Some(Choice::Chosen(below)) => Some(below),
            Some(Choice::Skipped) => None,
            None => None,
        }
    }
}

/// What is selected on the way to these leaves.
pub fn select(alloc: Global, fields: &[Path]) -> Result<Selection, AllocError>
    ensures { IfOk result (λ s. Selects (selection_view s) (map (λ (p : Path). (path_view p).path) fields.now)) }
{
    let mut selection = Selection::none(alloc);
    'fields: for done in 0..fields.len() {
        let field = &fields[fields.len() - 1 - done];
        selection = selection.with_path(alloc, &field.steps)?;
    }
    Ok(selection)
}
