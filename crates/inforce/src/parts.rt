// The settings in force, and the memory that keeps them.
ghost use Rattle.std.specs.Prelude.{◌≡◌};

use settings::Settings;

#[derive(Drop)]
pub struct InForce<M> {
    pub(crate) memory: M,
    pub(crate) settings: Settings,
}

impl<M> InForce<M> {
    pub fn settings(&self) -> &Settings
        ensures { result.now ≡ self.now.settings }
    {
        &self.settings
    }

    pub fn memory(&self) -> &M
        ensures { result.now ≡ self.now.memory }
    {
        &self.memory
    }
}

// What is done to the string of a section.
// An enum and no closure: the rule names the event by it, and a closure's clause would have to say the event again.
#[derive(Clone, Copy, PartialEq, Eq, Debug)]
pub enum Writing {
    Keep,
    Erase,
}
