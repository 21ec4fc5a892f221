//! The way from the root of a schema to a field.

ghost use Rattle.std.specs.Prelude.{◌≡◌, ◌<◌, IfOk};
ghost use Rattle.dr_nested.specs.PathView.{step_view};
ghost use Rattle.dr_paths.specs.Ways.{way_view, way_below, root_way};

use dr_memory::NoMemory;
use dr_nested::{Field, Kind, Path, Step};
use std::alloc::Global;

/// The way from the root to a field: the names on it, and its steps.
#[derive(Drop)]
pub(crate) struct Way {
    pub(crate) names: Vec<String>,
    pub(crate) steps: Vec<Step>,
}

impl Way {
    /// The way to the root.
    pub(crate) fn root(alloc: Global) -> Way
        ensures { way_view result ≡ root_way }
    {
        Way {
            names: Vec::new(alloc),
            steps: Vec::new(alloc),
        }
    }

    /// One field further: to a field of this name, by this step.
    pub(crate) fn below(&self, alloc: Global, name: &str, step: Step) -> Result<Way, NoMemory>
        ensures { IfOk result (λ w. way_view w ≡ way_below (way_view self.now) name.now (step_view step)) }
    {
        let mut names = Vec::with_capacity(alloc, self.names.len() + 1)?;
        'names: for above in &self.names {
            names.push(String::from_str(alloc, above.as_str())?)?;
        }
        names.push(String::from_str(alloc, name)?)?;
        let mut steps = Vec::with_capacity(alloc, self.steps.len() + 1)?;
        steps.extend_from_slice(&self.steps)?;
        steps.push(step)?;
        Ok(Way { names, steps })
    }
}
