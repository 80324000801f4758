ghost use Rattle.feature_runs.specs.Added.{RunsBehindChangeNothing};
ghost use Rattle.feature_runs.specs.Apart.{ItemsStandApart};

/// No item's text begins another's. So an item that is written is read again, whatever stands behind it.
pub fn items_stand_apart()
    ensures { ItemsStandApart }
{}

/// What was added to a buffer stands in its runs also after other runs were ended behind them.
pub fn runs_behind_change_nothing()
    ensures { RunsBehindChangeNothing }
{}
