// Units: one more is made, if the budget has it.
#![tactic(auto)]

ghost use Rattle.events.specs.Asked.{UnitMade};

use events::{Ask, Counters, Halt};

// One unit, if the budget has it.
pub fn unit(ask: &Ask, counters: &mut Counters) -> Result<(), Halt>
    ensures { UnitMade ask.now counters.old result counters.new }
{
    if u64::from(ask.budget) <= counters.made {
        return Err(Halt::BudgetUsed);
    }
    counters.made += 1;
    Ok(())
}
