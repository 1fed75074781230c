//! What is true of the wants of blocked calls.

ghost use Rattle.xti_model.specs.declared.call.Call.{Call};
ghost use Rattle.xti_model.specs.declared.entry.Go.{Go};
ghost use Rattle.xti_model.specs.declared.profile.Providers.{Providers};
ghost use Rattle.xti_model.specs.World.{World};
ghost use Rattle.xti_wants.specs.Wanted.{BlockedIsWanted, BlockedHasWant};

use xti_laws::steps_wait_for_their_wants;

/// Where a step is blocked, with valid providers, its call has a want, and what `want_of` gives for it is blocked.
pub fn blocked_calls_have_wants()
    ensures has { (p : Providers) (w : World) (c : Call) (g : Go) → BlockedHasWant p w c g }
    ensures blocked { (p : Providers) (w : World) (c : Call) (g : Go) → BlockedIsWanted p w c g }
{
    steps_wait_for_their_wants();
}
