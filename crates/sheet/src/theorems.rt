ghost use Rattle.sheet.specs.Theorems.{OneAnswer, DecodesExactly, PrefixSuffices, SavedLoadsBack};

/// What holds of sheets in general: its contract has the theorems.
pub fn sheet_theorems()
    ensures one_answer { OneAnswer }
    ensures decodes_exactly { DecodesExactly }
    ensures prefix_suffices { PrefixSuffices }
    ensures saved_loads_back { SavedLoadsBack }
{}
