ghost use Rattle.std.specs.Prelude.{◌≡◌, ◌≤◌};
ghost use Rattle.gen_world.specs.Elements.{counts_of};

/// How many nodes, ways and relations an extract has.
#[derive(Clone, Copy)]
pub struct Counts {
    pub nodes: u64,
    pub ways: u64,
    pub relations: u64,
}

/// A hundredth of all elements are relations, a tenth are ways, and the rest are nodes.
#[tactic(auto, unfolding(crate::specs::Elements::counts_of))]
pub fn counts_of(count: u64) -> Counts
    ensures { result ≡ counts_of count }
{
    let relations = count / 100;
    let ways = count / 10;
    Counts {
        nodes: count - relations - ways,
        ways,
        relations,
    }
}
