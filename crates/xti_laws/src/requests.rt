//! Requests to connect: who asks and who is asked name each other, after any calls.

ghost use Rattle.xti_model.specs.declared.profile.Providers.{Providers};
ghost use Rattle.xti_model.specs.World.{opening};
ghost use Rattle.xti_laws.specs.Counts.{AlwaysTakesOutstanding};
ghost use Rattle.xti_laws.specs.Laws.{OfAnyStep, AfterAnyEntries};
ghost use Rattle.xti_laws.specs.Requests.{LinkedAndBound, StaysLinked};

/// Who asks for a connection and who is asked name each other, and each address is bound by an open endpoint.
///
/// `start`: in the world in which nothing was called. `step`: a step of any call, whatever it was told of its progress
/// and whatever its arguments, leads from such a world to such a one. `history`: so does every list of entries, legal
/// or not. `taken`: after any entries the disconnect that a listener would take is of an outstanding indication.
pub fn requests_stay_linked()
    ensures start { (p : Providers) → LinkedAndBound p (opening p) }
    ensures step { OfAnyStep StaysLinked }
    ensures history { AfterAnyEntries LinkedAndBound }
    ensures taken { AfterAnyEntries AlwaysTakesOutstanding }
{}
