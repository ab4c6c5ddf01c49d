//! The components of a program as the bodies of a network.
ghost use Rattle.std.specs.Prelude.{◌≡◌, ◌<◌, length, IfOk};
ghost use Rattle.abc_checks.specs.Facts.{IsChecked};
ghost use Rattle.abc_live_body.specs.AbcMeaning.{abc};
ghost use Rattle.abc_live_body.specs.AbcLaws.{AreStarted};
ghost use Rattle.abc_network_laws.specs.Kept.{Each};

use abc_live_body::AbcBody;
use abc_term::Program;
use abc_value::NoMemory;
use std::alloc::Global;

/// All components of a program, in its order, as it begins with them.
pub(crate) fn bodies_of<'p>(
    alloc: Global,
    program: &'p Program,
) -> Result<Vec<AbcBody<'p>>, NoMemory>
    requires { IsChecked program.now }
    ensures started { IfOk result (λ bodies. AreStarted program.now bodies.items) }
    ensures sound { IfOk result (λ bodies. Each abc.sound bodies.items) }
{
    let components = program.components.as_slice();
    let mut bodies = Vec::with_capacity(alloc, components.len())?;
    'starting: for component in 0..components.len() {
        bodies.push(AbcBody::start(alloc, program, component as u32)?)?;
    }
    Ok(bodies)
}
