use dr_group::Partial;

/// What was found of a tablet: a plan's partial of its records.
#[derive(Drop)]
pub struct Found {
    pub tablet: u32,
    pub partial: Partial,
}
