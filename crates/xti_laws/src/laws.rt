ghost use Rattle.std.specs.Prelude.{Bool};
ghost use Rattle.xti_model.specs.declared.call.Call.{Call};
ghost use Rattle.xti_model.specs.declared.entry.Go.{Go};
ghost use Rattle.xti_model.specs.declared.profile.Providers.{Providers};
ghost use Rattle.xti_model.specs.World.{World, Cell};
ghost use Rattle.xti_model.specs.Step.{plan};
ghost use Rattle.xti_model.specs.Touched.{touched};
ghost use Rattle.xti_laws.specs.Updates.{PlanKinds};
ghost use Rattle.xti_laws.specs.States.{TakesByTheTable, PassesByTheTable, KeepsEveryState, KeepsOtherStates, AllInitialised};
ghost use Rattle.xti_laws.specs.Counts.{CountsByTheTable, KeepsEveryCount, KeepsOtherCounts};
ghost use Rattle.xti_laws.specs.Waiting.{BlockedAsWanted, BlockedHasGoodArguments};
ghost use Rattle.xti_laws.specs.Laws.{OfAnyStep, AfterAnyEntries, OnNamedCells, OnEnoughCells, NamesSame, TouchesSame, SameIfTold, SameSteps, LeavesOthers, KeptAfterAny, KnowsNoMore};

/// A step is settled by the cells that its call names, and leaves all others as they are.
///
/// `reads`: on some cells of a world a step answers what it answers on all of them, and leaves these cells as
/// it leaves them there, if the cells that the call names are among them, and that of the endpoint whose state
/// is told. `changes`: cells that the call doesn't name stay. Both hold of any list of cells.
pub fn steps_are_local()
    ensures reads { OnNamedCells SameIfTold }
    ensures changes { OnNamedCells LeavesOthers }
{}

/// A step is settled by the touched cells of its call, and changes no others.
///
/// `reads`: the step on the touched cells alone is the step on all, where the switch knows no more places than there
/// are, and an open that no place can take tells the state of no open endpoint. `changes`: all other cells stay.
/// `again`: on its touched cells alone a call touches just these. `known`: the switch knows no more places than there
/// are after any entries, legal or not.
pub fn touched_cells_settle_a_step()
    ensures reads { (p : Providers) (w : World) (c : Call) → SameSteps p (touched p w c) w c }
    ensures changes { (p : Providers) (w : World) (c : Call) → LeavesOthers p (touched p w c) w c }
    ensures known { AfterAnyEntries KnowsNoMore }
    ensures again { (p : Providers) (w : World) (c : Call) → TouchesSame p (touched p w c) w c }
{}

/// Some cells of a world are enough for a call, where all that it touches on them alone is among them.
///
/// `names`, `touches`: the call then names and touches just what it does in the whole world. `reads`: a step on them is
/// the step of that world, as on the touched cells. `changes`: all other cells stay. Of every call, and of any cells.
pub fn some_cells_are_enough()
    ensures names { OnEnoughCells NamesSame }
    ensures touches { OnEnoughCells TouchesSame }
    ensures reads { OnEnoughCells SameSteps }
    ensures changes { OnEnoughCells LeavesOthers }
{}

/// Each change that a call may make is one of the named kinds.
///
/// `kinds`: of every call, in every world. `kept`: so what each kind keeps of a single cell holds of every
/// cell after any entries, legal or not.
pub fn changes_are_named()
    ensures kinds { (p : Providers) (w : World) (c : Call) (g : Go) → PlanKinds (plan p w c g) }
    ensures kept { (p : Providers) (test : Cell → Bool) → KeptAfterAny p test }
{}

/// What a wait depends on settles whether a step is blocked.
///
/// `as_wanted`: where the rows that look at the arguments alone pass, and a send that goes on has bytes left, a
/// step is blocked exactly where its want is; a step that has no want never is. `good`: a blocked step's call
/// passes those rows, which no later world changes.
pub fn steps_wait_for_their_wants()
    ensures as_wanted { OfAnyStep BlockedAsWanted }
    ensures good { OfAnyStep BlockedHasGoodArguments }
{}

/// The states before and after a step are a row of the state table.
///
/// `taken`: whatever the world, a step that has an effect, with TBUFOVFLW too, takes the call's endpoint by a row
/// of the table. Where a place opens, the switch is to agree with its cell; and an open endpoint is to be in
/// another state than T_UNINIT, which `begun` says of every world after any entries. `passed`: of the responding
/// endpoint of an accept, where it isn't the listener itself. `refused`: a step without an effect leaves every
/// state. `others`: every step leaves the states of all other endpoints.
pub fn states_follow_the_table()
    ensures taken { OfAnyStep TakesByTheTable }
    ensures passed { OfAnyStep PassesByTheTable }
    ensures refused { OfAnyStep KeepsEveryState }
    ensures others { OfAnyStep KeepsOtherStates }
    ensures begun { AfterAnyEntries AllInitialised }
{}

/// How many indications are outstanding after a step is settled by the state table too.
///
/// `counted`: a step that has an effect changes the count of the call's endpoint as `count_after` says: a listen by one
/// more, an accept by one less, and in T_INCON a snddis or a rcvdis by one less. The disconnect that a listener takes is
/// to be of an outstanding indication, as it is after any entries. `refused`: a step without an effect leaves every
/// count. `others`: every step leaves the counts of all other endpoints.
pub fn counts_follow_the_table()
    ensures counted { OfAnyStep CountsByTheTable }
    ensures refused { OfAnyStep KeepsEveryCount }
    ensures others { OfAnyStep KeepsOtherCounts }
{}
