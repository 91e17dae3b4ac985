ghost use Rattle.task.specs.Theorems.{HoldsJustThese, TakesJustLawfulEntries, WithdrawnMayReturn};

/// What holds of tables in general: its contract has the theorems.
pub fn table_theorems()
    ensures holds { HoldsJustThese }
    ensures takes { TakesJustLawfulEntries }
    ensures returns { WithdrawnMayReturn }
{}
