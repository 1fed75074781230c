//! Both ends of a link, and what was put between them.

ghost use Rattle.std.specs.Prelude.{◌≡◌, ◌++◌, ◌∷◌, [], ◌-◌, ◌^◌, ◌<◌, ◌≤◌, length, All, IfOk, OnOk, OnErr};
ghost use Rattle.xti_gbn.specs.declared.events.LinkEvent.TheVariants.{Offer, Timeout, Data, Ack};
ghost use Rattle.xti_gbn.specs.declared.events.TheConstants.{MOST_EVENTS};
ghost use Rattle.xti_gbn.specs.Carrying.{IsLeft};
ghost use Rattle.xti_gbn.specs.Wire.{most_body, HasSmall};
ghost use Rattle.xti_gbn.specs.Events.{IsSmallEvent};
ghost use Rattle.xti_gbn.specs.Receiving.{taken_body, expected_after};
ghost use Rattle.xti_gbn.specs.Sending.{next_of};
ghost use Rattle.xti_gbn.specs.Link.{opening};
ghost use Rattle.xti_gbn.specs.Reports.{arrival_line};
ghost use Rattle.xti_gbn.specs.Ends.{Stands, StandsAt, HasRoom, Steps, report_at, with_packets};

use crate::carrier::{Carrier, carry_acknowledgement, carry_packet};
use crate::events::LinkEvent;
use crate::receiver::Receiver;
use crate::report::{Report, arrival_line, number_line, text_line};
use crate::sender::{OfferFail, Sender};
use crate::wire::{Packet, write_packet};
use std::alloc::{AllocError, Global};
use xti_base::{Numbers, Octets, Parts};

/// The two ends, and what they ever put, by its place.
#[derive(Drop)]
pub(crate) struct Ends {
    pub(crate) sender: Sender,
    pub(crate) receiver: Receiver,
    /// The bytes of every packet that was put.
    pub(crate) packets: Parts,
    /// Every acknowledgement that was put.
    pub(crate) acknowledgements: Numbers<u32>,
    /// How often something was carried.
    pub(crate) carried: u32,
}

impl Ends {
    /// The ends before anything befell them. Takes no memory.
    pub(crate) fn new(alloc: Global) -> Ends
        ensures stands { StandsAt opening result }
        ensures carried { result.carried ≡ 0 }
    {
        Ends {
            sender: Sender::new(alloc),
            receiver: Receiver::new(),
            packets: Parts::new(alloc),
            acknowledgements: Numbers::new(alloc),
            carried: 0,
        }
    }

    // Puts a packet: its bytes are kept.
    fn put(&mut self, alloc: Global, packet: &Packet) -> Result<(), AllocError>
        requires { length packet.now.body ≤ most_body }
        ensures { OnOk result (self.new ≡ with_packets (packet.now ∷ []) self.old) }
    {
        let text = write_packet(alloc, packet)?;
        self.packets.push(text)
    }

    // The sender is offered a body.
    fn offer(&mut self, alloc: Global, body: &[u8]) -> Result<Octets, AllocError>
        requires small { length body.now ≤ most_body }
        requires numbers { next_of self.old.sender < 2 ^ 32 - 1 }
        ensures { IfOk result (λ line. Steps (Offer body.now) self.old line self.new) }
    {
        match self.sender.offer(alloc, body) {
            Ok(packet) => {
                self.put(alloc, &packet)?;
                number_line(alloc, "sent ", packet.seq)
            }
            Err(OfferFail::Full { .. }) => text_line(alloc, "full"),
            Err(OfferFail::OutOfMemory) => Err(AllocError),
            Err(OfferFail::TooLong | OfferFail::Spent) => unreachable!(),
        }
    }

    // Puts packets in order.
    fn put_all(&mut self, alloc: Global, packets: &[Packet]) -> Result<(), AllocError>
        requires { All HasSmall packets.now }
        ensures { OnOk result (self.new ≡ with_packets packets.now self.old) }
    {
        for packet in packets {
            self.put(alloc, packet)?;
        }
        Ok(())
    }

    // The sender waited too long.
    fn time_out(&mut self, alloc: Global) -> Result<Octets, AllocError>
        ensures { IfOk result (λ line. Steps Timeout self.old line self.new) }
    {
        let packets = self.sender.timeout(alloc)?;
        self.put_all(alloc, packets.as_slice())?;
        number_line(alloc, "again ", packets.len() as u32)
    }

    // A packet comes to the receiver.
    fn arrive(&mut self, alloc: Global, packet: &Packet) -> Result<Octets, AllocError>
        requires { packet.now.seq < 2 ^ 32 - 1 }
        ensures line { IfOk result (λ line. line ≡ arrival_line packet.now.seq
            (taken_body self.old.receiver packet.now) (expected_after self.old.receiver packet.now)) }
        ensures after { OnOk result (self.new ≡ record self.old {
          receiver = expected_after self.old.receiver packet.now;
          acknowledgements = self.old.acknowledgements ++ expected_after self.old.receiver packet.now ∷ [];
        }) }
    {
        let taken = self.receiver.data(alloc, packet)?;
        self.acknowledgements.push(taken.ack)?;
        arrival_line(alloc, packet.seq, &taken)
    }

    // The packet at a place is carried to the receiver.
    fn data<C: Carrier>(
        &mut self,
        alloc: Global,
        place: u32,
        carrier: &mut C,
    ) -> Result<Octets, AllocError>
        requires stands { Stands self.old }
        requires room { self.old.carried < 2 ^ 31 }
        requires ready { C.is_ready carrier.old }
        ensures steps { IfOk result (λ line. Steps (Data place) self.old line self.new) }
        ensures stays_ready { OnOk result (C.is_ready carrier.new) }
        ensures left { OnErr result (IsLeft C.is_ready C.holds carrier.new) }
    {
        let Some(text) = self.packets.get(place as usize) else {
            return text_line(alloc, "none");
        };
        let packet = carry_packet(alloc, text.as_slice(), carrier)?;
        self.carried += 1;
        self.arrive(alloc, &packet)
    }

    // The acknowledgement at a place is carried to the sender.
    fn ack<C: Carrier>(
        &mut self,
        alloc: Global,
        place: u32,
        carrier: &mut C,
    ) -> Result<Octets, AllocError>
        requires room { self.old.carried < 2 ^ 31 }
        requires ready { C.is_ready carrier.old }
        ensures steps { IfOk result (λ line. Steps (Ack place) self.old line self.new) }
        ensures stays_ready { OnOk result (C.is_ready carrier.new) }
        ensures left { OnErr result (IsLeft C.is_ready C.holds carrier.new) }
    {
        let Some(number) = self.acknowledgements.get(place as usize) else {
            return text_line(alloc, "none");
        };
        let came = carry_acknowledgement(alloc, number, carrier)?;
        self.carried += 1;
        self.sender.ack(came);
        number_line(alloc, "base ", self.sender.base())
    }

    /// What an event comes to: its line, and the ends after it. After an error the ends stand at no link.
    pub(crate) fn step<C: Carrier>(
        &mut self,
        alloc: Global,
        event: &LinkEvent,
        carrier: &mut C,
    ) -> Result<Octets, AllocError>
        requires small { IsSmallEvent event.now }
        requires stands { Stands self.old }
        requires room { HasRoom self.old }
        requires ready { C.is_ready carrier.old }
        ensures steps { IfOk result (λ line. Steps event.now self.old line self.new) }
        ensures stays_ready { OnOk result (C.is_ready carrier.new) }
        ensures left { OnErr result (IsLeft C.is_ready C.holds carrier.new) }
    {
        match event {
            LinkEvent::Offer(body) => self.offer(alloc, body.as_slice()),
            LinkEvent::Timeout => self.time_out(alloc),
            LinkEvent::Data(place) => self.data(alloc, *place, carrier),
            LinkEvent::Ack(place) => self.ack(alloc, *place, carrier),
        }
    }

    /// The report of a run that has these lines.
    pub(crate) fn report(&self, lines: Parts) -> Report
        requires { self.now.carried ≤ MOST_EVENTS }
        ensures { result ≡ report_at self.now lines }
    {
        Report {
            lines,
            offered: self.sender.next(),
            delivered: self.receiver.expected(),
            acknowledged: self.sender.base(),
            entries: 4 + 2 * self.carried,
        }
    }
}
