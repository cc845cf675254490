//! Laws of made operations. The function does nothing; its contract is the law.
ghost use Rattle.attr_run.specs.Laws.{MadeOpsFit};

/// Made operations fit the attributes, for every seed.
pub fn made_law()
    ensures { MadeOpsFit }
{}
