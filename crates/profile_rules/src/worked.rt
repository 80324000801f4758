ghost use Rattle.profile_rules.specs.Worked.{Worked};

/// The worked profiles, conditions and values that the definitions were checked on.
pub fn worked_profiles()
    ensures { Worked }
{}
