//! Who does the steps of a pass.
ghost use Rattle.std.specs.Prelude.{◌≡◌, OnOk};
ghost use Rattle.pass_order.specs.Driven.{Meaning, IsLoaded, StaysReady};

/// The steps of a pass. Each works on one unit, whose body is what its load gave.
pub trait Steps {
    /// A loaded unit.
    type Body: Drop;

    /// Why a step fails.
    type Fault;

    // What each step needs and does, from what the steps stood on before it to what they stand on after it.
    ghost meaning: { Meaning Self Self.Body Self.Fault };

    /// Loads the unit.
    fn load(&mut self, unit: u32) -> Result<Self::Body, Self::Fault>
        requires ready { meaning.ready self.old unit }
        ensures loads { meaning.loads self.old unit result self.new }
        ensures stays { OnOk result (StaysReady meaning self.old self.new) };

    /// Puts what the unit gives into the stores.
    fn put(&mut self, unit: u32, body: &Self::Body) -> Result<(), Self::Fault>
        requires ready { meaning.ready self.old unit }
        requires loaded { IsLoaded meaning unit body.now }
        ensures puts { meaning.puts self.old unit body.now result self.new }
        ensures stays { OnOk result (StaysReady meaning self.old self.new) };

    /// Emits what the unit gives, and lets it go.
    fn emit(&mut self, unit: u32, body: Self::Body) -> Result<(), Self::Fault>
        requires ready { meaning.ready self.old unit }
        requires loaded { IsLoaded meaning unit body }
        ensures emits { meaning.emits self.old unit body result self.new }
        ensures stays { OnOk result (StaysReady meaning self.old self.new) };
}
