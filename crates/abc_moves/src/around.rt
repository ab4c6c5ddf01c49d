ghost use Rattle.std.specs.Prelude.{◌≡◌, []};

use crate::bodies::Bodies;
use crate::scope::Scope;
use abc_pred::{Env, Interface};
use std::alloc::Global;

/// What a walk over a component's processes reads beside them.
#[derive(Drop)]
pub struct Around<'a, 'p> {
    pub bodies: Bodies<'a, 'p>,
    pub env: &'a Env,
    pub interface: &'a Interface,
    /// The scope without bindings, in which the bodies of definitions stand.
    pub unbound: Scope,
    /// The environment without attributes.
    pub nobody: Env,
    ghost binds_nothing: { unbound ≡ [] },
    ghost has_nothing: { nobody ≡ [] },
}

impl<'a, 'p> Around<'a, 'p> {
    /// What stands beside a component with this environment and interface. It takes no memory.
    pub fn new(
        alloc: Global,
        bodies: &Bodies<'a, 'p>,
        env: &'a Env,
        interface: &'a Interface,
    ) -> Around<'a, 'p>
        ensures definitions { result.bodies.definitions.now ≡ bodies.now.definitions.now }
        ensures env { result.env.now ≡ env.now }
        ensures interface { result.interface.now ≡ interface.now }
    {
        Around {
            bodies: *bodies,
            env,
            interface,
            unbound: Scope::empty(alloc),
            nobody: Env::empty(alloc),
        }
    }
}
