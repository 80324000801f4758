use tb_types::Text;

/// Where a build has its profile from.
#[derive(Debug, Drop)]
pub enum ProfileFrom {
    /// The text of a profile, from its source.
    Read,
    /// One rule: the nodes that have this key, with its value as their one attribute, at zoom 0. The key isn't empty.
    OneRule(Text),
    /// The profile of trials, whose text is `trial_text`.
    Trial,
}
