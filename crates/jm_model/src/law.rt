ghost use Rattle.jm_plans.specs.Provider.{state_of};
ghost use Rattle.jm_machine.specs.Isolation.{IsolationFrom};

use jm_core::{Core, law_core_reached};
use jm_law::law_isolation;

/// The law of isolation on a core that a caller holds, proved; the function itself does nothing.
///
/// The state of every core is reached. So for whatever list of calls is run on it next, and for every
/// key that is unshared in it, the law holds without a further premise: also of a second list.
pub fn law_core_isolation(core: &Core)
    ensures { IsolationFrom (state_of core.now) }
{
    law_isolation();
    law_core_reached(core);
}
