use std::marker::Brand;

/// Names one desk, so that its passes are told from another's by their type. Whoever makes a desk picks it.
pub trait Room {
    ghost use Rattle.atomic_table.specs.Seated.{TableId};

    ghost table: { TableId };
}

impl Room for Brand {
    ghost use Rattle.dr_desk.specs.Rule.{no_table};

    ghost table = { no_table };
}
