//! Sound worlds: what holds of every world, whatever was called.

ghost use Rattle.std.specs.Prelude.{◌≤◌, Bool, List, All};
ghost use Rattle.xti_base.specs.declared.kinds.Prov.{Prov};
ghost use Rattle.xti_model.specs.declared.call.Call.{Call};
ghost use Rattle.xti_model.specs.declared.entry.Entry.{Entry};
ghost use Rattle.xti_model.specs.declared.profile.Providers.{Providers};
ghost use Rattle.xti_model.specs.Provider.{is_provider};
ghost use Rattle.xti_model.specs.World.{World, opening};
ghost use Rattle.xti_model.specs.Symbols.{bytes_waiting};
ghost use Rattle.xti_laws.specs.Laws.{OfAnyStep, AfterAnyEntries, OfLegalHistories};
ghost use Rattle.xti_laws.specs.Invariant.{SoundWorld};
ghost use Rattle.xti_laws.specs.Connections.{Matched, PeersThere};
ghost use Rattle.xti_laws.specs.Endpoints.{Buffers, ShortDatagram, two_buffers};
ghost use Rattle.xti_laws.specs.NeverAnswered.{HasAnswer};
ghost use Rattle.xti_laws.specs.Symbols.{SoundSymbols};
ghost use Rattle.xti_laws.specs.SoundLaws.{OfAllProviders, OpenProvidersPass};
ghost use Rattle.xti_laws.specs.Given.{InSoundWorlds, OfOpenInSoundWorlds, OfEndpointsInSoundWorlds, OfSoundSwitches};
ghost use Rattle.xti_laws.specs.Given.{StaysSoundIfValid, SoundIfValid, PlacesSoundWhenLent, CellSoundWhenLent, DescriptorFits};
ghost use Rattle.xti_laws.specs.Given.{AloneIfDatagrams, FewDisconnects, NumbersFit, UnbrokenWithPeer, OneOpenEach, NamesFew};
ghost use Rattle.xti_laws.specs.Given.{PeersApart, CallersApart, TargetsApart, ListenersApart};
ghost use Rattle.xti_laws.specs.Given.{LinkedWhereItSends, LinkedWhereConfirmed, HasSwitch, BindsFew, BoundAreOpen, ListenersAreOpen};
ghost use Rattle.xti_laws.specs.Given.{ChoiceIsFree, ChoiceIsShort, FewEndsStay, FewEndsAfter, AlwaysFewEnds, ProvidersStayPassing};
ghost use Rattle.xti_laws.specs.Given.{TellsProgress, TellsAnswer, RepliesShortly};

/// Every world that calls lead to is sound.
///
/// `start`: the world in which nothing was called. `step`: where the values of the providers are valid, a step of any
/// call, whatever it was told of its progress and whatever its arguments, leads from a sound world to a sound one.
/// `history`: so does every list of entries, legal or not.
pub fn worlds_stay_sound()
    ensures start { (p : Providers) → SoundWorld p (opening p) }
    ensures step { OfAnyStep StaysSoundIfValid }
    ensures history { AfterAnyEntries SoundIfValid }
{}

/// A cell of a sound world is sound by itself, and the switch agrees with it.
///
/// `cell`: that of any place. `opened`: that of an open endpoint, by its descriptor. `fits`: an open
/// descriptor has 32 bits, and is never that of a failed open. `disconnects`: at most 8 disconnects wait.
pub fn sound_when_lent()
    ensures cell { InSoundWorlds PlacesSoundWhenLent }
    ensures opened { OfOpenInSoundWorlds CellSoundWhenLent }
    ensures fits { OfOpenInSoundWorlds DescriptorFits }
    ensures disconnects { OfEndpointsInSoundWorlds FewDisconnects }
{}

/// A sound world gives of its endpoints what a step takes for granted.
///
/// `datagrams`: an endpoint of datagrams has nothing of a connection. `numbers`: the numbers of requests have 32 bits.
/// `places`: two open descriptors of one place are the same. `peers`, `callers`, `targets`: two that name each other, a
/// listener and the caller of a request that stands, and a caller and its listener, are in different places.
/// `listeners`: so are an endpoint and the listener that a request of its own would find. `named`: a call names at most
/// ten cells. `unbroken`: an endpoint that has a peer asks for no connection, and no disconnect waits at it.
pub fn sound_endpoints_fit()
    ensures datagrams { OfEndpointsInSoundWorlds AloneIfDatagrams }
    ensures numbers { OfEndpointsInSoundWorlds NumbersFit }
    ensures places { InSoundWorlds OneOpenEach }
    ensures peers { InSoundWorlds PeersApart }
    ensures callers { InSoundWorlds CallersApart }
    ensures targets { InSoundWorlds TargetsApart }
    ensures listeners { InSoundWorlds ListenersApart }
    ensures named { (p : Providers) (w : World) (c : Call) → NamesFew p w c }
    ensures unbroken { OfEndpointsInSoundWorlds UnbrokenWithPeer }
{}

/// A connection in a sound world has two ends, and their states go together.
///
/// `linked`: the states of two that name each other as their peers tell where a release waits, and a confirmation.
/// `there`: an endpoint's peer names it back, but where both releases were sent. `connected`: so an endpoint that can send
/// and has no disconnect is linked. `confirmed`: so is one whose confirmation waits.
pub fn connections_have_two_ends()
    ensures linked { InSoundWorlds Matched }
    ensures there { InSoundWorlds PeersThere }
    ensures connected { OfOpenInSoundWorlds LinkedWhereItSends }
    ensures confirmed { OfOpenInSoundWorlds LinkedWhereConfirmed }
{}

/// The switch of a sound world binds few addresses, each to an open endpoint, and finds a free one.
///
/// `there`: its cell comes after those of the places. `few`: it binds at most as many addresses as there are
/// places. `bound`: the endpoint that is bound to an address is open, of that provider, and has the address.
/// `listens`: one that listens at it has a queue too. `free`: the provider's choice is bound to nobody. `short`: it
/// has at most three bytes.
pub fn sound_switch_has_addresses()
    ensures there { InSoundWorlds HasSwitch }
    ensures few { InSoundWorlds BindsFew }
    ensures bound { InSoundWorlds BoundAreOpen }
    ensures listens { InSoundWorlds ListenersAreOpen }
    ensures free { OfSoundSwitches ChoiceIsFree }
    ensures short { OfSoundSwitches ChoiceIsShort }
{}

/// Where sends are of bytes, few ends of messages wait.
///
/// At most 256 among normal data and 16 among expedited, of every open endpoint, what waits are bytes and ends, and in a stream
/// no end waits.
/// `start`: in the world in which nothing was called. `step`: after a step of any call that sends bytes. `history`:
/// after any entries whose calls send bytes, legal or not.
pub fn few_ends_wait()
    ensures start { (p : Providers) → SoundSymbols p (opening p) }
    ensures step { OfAnyStep FewEndsStay }
    ensures history { (p : Providers) (entries : List Entry) → FewEndsAfter p entries }
{}

/// The providers of open endpoints are those that opens named.
///
/// `start`: in the world in which nothing was called none is open. `step`: where each open endpoint's provider passes a
/// test, and what the call opens does, it is so after the step. `known`: none but the three providers is ever open.
pub fn providers_stay()
    ensures start { (test : Prov → Bool) (p : Providers) → OpenProvidersPass test p (opening p) }
    ensures step { (test : Prov → Bool) → OfAnyStep (ProvidersStayPassing test) }
    ensures known { AfterAnyEntries (OpenProvidersPass is_provider) }
{}

/// A step tells how far its call has come.
///
/// `progress`: where a send took at most all its bytes before, a part of it tells more than those and fewer than all, and its
/// end tells at least those and at most all. A request to connect that waits is a part of no bytes. No other step is a
/// part, and no other call tells a number of bytes.
pub fn steps_tell_progress()
    ensures progress { OfAnyStep TellsProgress }
{}

/// The fields of a reply are short.
///
/// `short`: each field of bytes in the reply of a step has at most as many as `lengths_of` gives for the call, by its
/// arguments and the limits of the profile.
pub fn replies_are_short()
    ensures short { OfAnyStep RepliesShortly }
{}

/// No call answers TACCES, TNOADDR, TSTATECHNG or TPROTO.
///
/// `step`: the outcome of a step, in any world, is no such refusal. `history`: nor is that of any entry of a legal history.
pub fn some_errors_are_never_answered()
    ensures step { OfAnyStep TellsAnswer }
    ensures history { OfLegalHistories (λ p entries. All HasAnswer entries) }
{}

/// The premises of these laws are needed: without them a legal history breaks what they say.
///
/// Of providers that are not valid, `buffers`: a buffer may have no bytes. `waiting`: more than 131,072 bytes may
/// wait. `datagrams`: a datagram may have more than 65,536 bytes. `bytes`: where a send holds the number that ends
/// a message, too many ends may wait, also of valid providers.
pub fn premises_are_needed()
    ensures buffers { OfAllProviders (λ e. Buffers e.sndbuf e.rcvbuf) → ⊥ }
    ensures waiting { OfAllProviders (λ e. bytes_waiting e.normal ≤ two_buffers) → ⊥ }
    ensures datagrams { OfAllProviders (λ e. All ShortDatagram e.datagrams) → ⊥ }
    ensures bytes { AlwaysFewEnds → ⊥ }
{}
