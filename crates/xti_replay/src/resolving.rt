//! The calls of a script's lines, with numbers in place of names.

ghost use Rattle.std.specs.Prelude.{◌≡◌, IsTrue, OnOk, Option, true};
ghost use Rattle.xti_model.specs.declared.entry.Act.TheVariants.{Begin, More};
ghost use Rattle.xti_model.specs.Resolve.{seq_or_none, with_numbers};
ghost use Rattle.xti_replay.specs.Families.{is_address_or_options, is_connect, is_connection_answer, is_connection_receipt, moves_data, sends_datagram, receives_datagram};
ghost use Rattle.xti_replay.specs.Known.{first_number, meanings_in};
ghost use Rattle.xti_verbs.specs.Verbs.{is_plain, verb_of_named};

use crate::names::{Names, Table, number_before};
use std::alloc::AllocError;
use xti_base::limits::NO_NUMBER;
use xti_base::{Fd, Seq, build_or_drop, write_over};
use xti_model::{Act, Call, Name, NamedCall};
use xti_verbs::Verb;

/// Writes the call of an entry in its place, where none stands yet, so that it isn't moved any more.
#[inline(always)]
fn set(act: &mut Act, call: Call)
    requires { act.old ≡ More }
    ensures { act.new ≡ Begin call }
{
    match act {
        Act::More => write_over(act, Act::Begin(call)),
        Act::Begin(_) => unreachable!(),
    }
}

/// A field of a call, made of that of a line.
macro_rules! field {
    ($scope:expr, $named:ident endpoint) => { $scope.fd($named) };
    ($scope:expr, $named:ident indication) => { $scope.seq($named) };
    ($scope:expr, $named:ident indication_or_none) => { $scope.seq_or_none($named) };
    ($scope:expr, $named:ident same) => { *$named };
}

/// Begins a call of one of these forms, and answers the value. Each field has how it is made of the line's; those after the
/// semicolon own memory, and are copied by calls.
macro_rules! begin {
    ($scope:expr, $named:expr, $act:expr, $done:expr;
        $($kind:ident { $($part:ident: $how:ident),+; $($owned:ident),* }),+) => {
        match $named {
            $(NamedCall::$kind { $($part,)+ $($owned,)* .. } => {
                set($act, build_or_drop!(
                    Call::$kind { $($part: field!($scope, $part $how)),+; $($owned: $owned.copy()),* }
                ));
                $done
            })+
            _ => unreachable!(),
        }
    };
}

/// Where a line stands: its place in the script, the names of its worker, and those of worker 0.
#[derive(Clone, Copy)]
pub(crate) struct Scope<'a> {
    /// Lines before this place alone define names.
    pub(crate) place: usize,
    /// The worker's own names, which count first.
    pub(crate) own: &'a Names,
    /// The names of worker 0.
    pub(crate) setup: &'a Names,
}

/// The number of a name of a line at this place, by one table and then by another.
fn first_number(place: usize, own: &Table, setup: &Table, name: &Name) -> Option<u32>
    ensures { result ≡ first_number place own.now setup.now name.now }
{
    match number_before(place, own, name.as_slice()) {
        Some(number) => Some(number),
        None => number_before(place, setup, name.as_slice()),
    }
}

impl<'a> Scope<'a> {
    /// The descriptor that the name stands for.
    fn fd(&self, name: &Name) -> Fd
        ensures { result ≡ (meanings_in self.now).fd name.now }
    {
        match first_number(self.place, &self.own.endpoints, &self.setup.endpoints, name) {
            Some(number) => Fd(number),
            None => Fd(NO_NUMBER),
        }
    }

    /// The sequence number that the name stands for.
    fn seq(&self, name: &Name) -> Seq
        ensures { result ≡ (meanings_in self.now).seq name.now }
    {
        match first_number(self.place, &self.own.sequences, &self.setup.sequences, name) {
            Some(number) => Seq(number),
            None => Seq(0),
        }
    }

    /// The same, and 0 where the line names no indication.
    fn seq_or_none(&self, name: &Option<Name>) -> Seq
        ensures { result ≡ seq_or_none (meanings_in self.now) name.now }
    {
        match name {
            None => Seq(0),
            Some(name) => self.seq(name),
        }
    }

    /// The call that says no more than which endpoint.
    #[inline(never)]
    fn plain(&self, call: &NamedCall, act: &mut Act)
        requires kind { is_plain (verb_of_named call.now) ≡ true }
        requires none { act.old ≡ More }
        ensures { act.new ≡ Begin (with_numbers (meanings_in self.now) call.now) }
    {
        match Verb::plain_name(call) {
            Some(name) => set(act, Verb::of_named(call).plain_call(self.fd(name))),
            None => unreachable!(),
        }
    }

    /// The call that names an address, asks for addresses or settles options.
    #[inline(never)]
    fn address_or_options(&self, call: &NamedCall, act: &mut Act) -> Result<(), AllocError>
        requires kind { IsTrue (is_address_or_options call.now) }
        requires none { act.old ≡ More }
        ensures { OnOk result (act.new ≡ Begin (with_numbers (meanings_in self.now) call.now)) }
    {
        begin!(self, call, act, Ok(());
            TBind { fd: endpoint, qlen: same, amax: same; addr },
            TGetProtAddr { fd: endpoint, amax: same, pmax: same; },
            TOptMgmt { fd: endpoint, action: same, omax: same; opt })
    }

    /// The call that asks for a connection.
    #[inline(never)]
    fn connect(&self, call: &NamedCall, act: &mut Act) -> Result<(), AllocError>
        requires kind { IsTrue (is_connect call.now) }
        requires none { act.old ≡ More }
        ensures { OnOk result (act.new ≡ Begin (with_numbers (meanings_in self.now) call.now)) }
    {
        begin!(self, call, act, Ok(());
            TConnect { fd: endpoint, amax: same, omax: same, umax: same; addr, opt, udata })
    }

    /// The call that accepts a connection, refuses or breaks one, or sends data with its release.
    #[inline(never)]
    fn connection_answer(&self, call: &NamedCall, act: &mut Act) -> Result<(), AllocError>
        requires kind { IsTrue (is_connection_answer call.now) }
        requires none { act.old ≡ More }
        ensures { OnOk result (act.new ≡ Begin (with_numbers (meanings_in self.now) call.now)) }
    {
        begin!(self, call, act, Ok(());
            TAccept { fd: endpoint, resfd: endpoint, seq: indication; opt, udata },
            TSndDis { fd: endpoint, seq: indication_or_none; udata },
            TSndRelData { fd: endpoint; udata })
    }

    /// The call that takes what the other side asked or answered about a connection.
    #[inline(never)]
    fn connection_receipt(&self, call: &NamedCall, act: &mut Act)
        requires kind { IsTrue (is_connection_receipt call.now) }
        requires none { act.old ≡ More }
        ensures { act.new ≡ Begin (with_numbers (meanings_in self.now) call.now) }
    {
        begin!(self, call, act, ();
            TRcvConnect { fd: endpoint, amax: same, omax: same, umax: same; },
            TListen { fd: endpoint, amax: same, omax: same, umax: same; },
            TRcvDis { fd: endpoint, umax: same; },
            TRcvRelData { fd: endpoint, umax: same; })
    }

    /// The call that sends or receives data on a connection.
    #[inline(never)]
    fn data(&self, call: &NamedCall, act: &mut Act) -> Result<(), AllocError>
        requires kind { IsTrue (moves_data call.now) }
        requires none { act.old ≡ More }
        ensures { OnOk result (act.new ≡ Begin (with_numbers (meanings_in self.now) call.now)) }
    {
        begin!(self, call, act, Ok(());
            TSnd { fd: endpoint, flags: same; bytes },
            TSndV { fd: endpoint, flags: same; parts },
            TRcv { fd: endpoint, max: same; },
            TRcvV { fd: endpoint; sizes })
    }

    /// The call that sends a datagram.
    #[inline(never)]
    fn send(&self, call: &NamedCall, act: &mut Act) -> Result<(), AllocError>
        requires kind { IsTrue (sends_datagram call.now) }
        requires none { act.old ≡ More }
        ensures { OnOk result (act.new ≡ Begin (with_numbers (meanings_in self.now) call.now)) }
    {
        begin!(self, call, act, Ok(());
            TSndUData { fd: endpoint; addr, opt, bytes },
            TSndVUData { fd: endpoint; addr, opt, parts })
    }

    /// The call that receives a datagram, or the error of one.
    #[inline(never)]
    fn receive(&self, call: &NamedCall, act: &mut Act) -> Result<(), AllocError>
        requires kind { IsTrue (receives_datagram call.now) }
        requires none { act.old ≡ More }
        ensures { OnOk result (act.new ≡ Begin (with_numbers (meanings_in self.now) call.now)) }
    {
        begin!(self, call, act, Ok(());
            TRcvUData { fd: endpoint, max: same, amax: same, omax: same; },
            TRcvVUData { fd: endpoint, amax: same, omax: same; sizes },
            TRcvUDErr { fd: endpoint, amax: same, omax: same; })
    }

    /// The call of a line that stands here, with numbers in place of names.
    #[inline(never)]
    pub(crate) fn call(&self, call: &NamedCall, act: &mut Act) -> Result<(), AllocError>
        requires { act.old ≡ More }
        ensures { OnOk result (act.new ≡ Begin (with_numbers (meanings_in self.now) call.now)) }
    {
        match call {
            NamedCall::TOpen { prov, nonblock, .. } => {
                set(
                    act,
                    Call::TOpen {
                        prov: *prov,
                        nonblock: *nonblock,
                    },
                );
                Ok(())
            }
            NamedCall::SetMode { fd, nonblock } => {
                set(
                    act,
                    Call::SetMode {
                        fd: self.fd(fd),
                        nonblock: *nonblock,
                    },
                );
                Ok(())
            }
            NamedCall::TBind { .. } | NamedCall::TGetProtAddr { .. } | NamedCall::TOptMgmt { .. } =>
                self.address_or_options(call, act),
            NamedCall::TConnect { .. } => self.connect(call, act),
            NamedCall::TAccept { .. } | NamedCall::TSndDis { .. } | NamedCall::TSndRelData { .. } =>
                self.connection_answer(call, act),
            NamedCall::TRcvConnect { .. }
            | NamedCall::TListen { .. }
            | NamedCall::TRcvDis { .. }
            | NamedCall::TRcvRelData { .. } => {
                self.connection_receipt(call, act);
                Ok(())
            }
            NamedCall::TSnd { .. }
            | NamedCall::TSndV { .. }
            | NamedCall::TRcv { .. }
            | NamedCall::TRcvV { .. } => self.data(call, act),
            NamedCall::TSndUData { .. } | NamedCall::TSndVUData { .. } => self.send(call, act),
            NamedCall::TRcvUData { .. }
            | NamedCall::TRcvVUData { .. }
            | NamedCall::TRcvUDErr { .. } => self.receive(call, act),
            _ => {
                self.plain(call, act);
                Ok(())
            }
        }
    }
}
