// The typed tree of a program that breaks no rule.
ghost use Rattle.vale_core.specs.View.{view_core};
ghost use Rattle.vale_rules_spec.specs.WellFormed.{IsSound};

use crate::tree::Core;

/// The typed tree of a well-formed program: what is lowered (docs/LANGUAGE.md).
#[derive(Drop)]
pub struct Sound {
    pub core: Core,
    pub ghost is_sound: { ∥ IsSound (view_core core) ∥₁ },
}
