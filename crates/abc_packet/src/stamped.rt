ghost use Rattle.std.specs.Prelude.{◌≡◌, ◌≤◌, IfOk};
ghost use Rattle.abc_packet.specs.Packets.{packet_number};

use crate::carried::{Carried, carried_in};
use crate::limits::{MOST_CLOCK, MOST_NUMBER};
use crate::packets::Packet;
use abc_value::NoMemory;
use std::marker::Model;

/// A packet with the logical clock of its sending.
///
/// The type keeps that the clock is at most `MOST_CLOCK` and that the sequence number in the packet
/// is at most `MOST_NUMBER`, so a receiver on another thread knows both.
#[derive(Drop)]
pub struct Stamped<L> {
    clock: u64,
    agent: u32,
    carried: Carried<L>,
}

impl<L> Model for Stamped<L> {
    ghost use Rattle.abc_packet.specs.Packets.{Stamp, AreWithin};
    ghost use Rattle.abc_packet.specs.Carried.{packet_of};

    ghost Value = { Stamp L };

    ghost view = { λ s. record { clock = s.clock; packet = packet_of s.agent s.carried } };

    ghost invariant = { λ s. AreWithin s.clock (packet_of s.agent s.carried) };
}

impl<L> Stamped<L> {
    /// The packet with this clock.
    pub fn new(clock: u64, packet: Packet<L>) -> Stamped<L>
        requires clock { clock ≤ MOST_CLOCK }
        requires number { packet_number packet ≤ MOST_NUMBER }
        ensures clock { result.clock ≡ clock }
        ensures packet { result.packet ≡ packet }
    {
        let (agent, carried) = carried_in(packet);
        Stamped {
            clock,
            agent,
            carried,
        }
    }

    /// The clock.
    pub fn clock(&self) -> u64
        ensures value { result ≡ self.now.clock }
        ensures most { result ≤ MOST_CLOCK }
    {
        self.clock
    }

    /// The packet, with one more owner of its label.
    pub fn packet(&self) -> Result<Packet<L>, NoMemory>
        ensures value { IfOk result (λ p. p ≡ self.now.packet) }
        ensures most { IfOk result (λ p. packet_number p ≤ MOST_NUMBER) }
    {
        self.carried.packet(self.agent)
    }

    /// The same packet with the same clock, and with one more owner of its label.
    pub fn copy(&self) -> Result<Stamped<L>, NoMemory>
        ensures { IfOk result (λ s. s ≡ self.now) }
    {
        let carried = self.carried.copy()?;
        Ok(Stamped {
            clock: self.clock,
            agent: self.agent,
            carried,
        })
    }
}
