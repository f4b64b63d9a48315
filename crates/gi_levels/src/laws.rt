// Laws of levels and cycles.
ghost use Rattle.gi_levels.specs.Cycles.{CycleIsOne, CyclesStay};
ghost use Rattle.gi_levels.specs.Order.{CycleIsFound, LevelsAreOne, LevelsAreThere, OrderIsWhole, OrderRises, OrderStands};

/// At most one gate closes the first cycle, and whatever gates follow it, there is a cycle.
pub fn cycle_is_one()
    ensures one { CycleIsOne }
    ensures stay { CyclesStay }
{}

/// Levels by a bound on steps: they are the only levels, they are levels wherever there are some,
/// and the first cycle is found exactly where there are none.
pub fn levels_are_told()
    ensures one { LevelsAreOne }
    ensures there { LevelsAreThere }
    ensures found { CycleIsFound }
{}

/// The order by level has each gate once where there are no cycles, levels don't fall along it, and
/// gates that stand so already stay where they are.
pub fn order_is_whole()
    ensures whole { OrderIsWhole }
    ensures rises { OrderRises }
    ensures stands { OrderStands }
{}
