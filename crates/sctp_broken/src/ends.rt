//! Two endpoints over which a script is run, with all packets that either has given to the network.

use crate::bases::Base;
use crate::step::{Side, Step};
use crate::told::Told;
use anyhow::{Result, anyhow};
use sctp_endpoint::{Config, Draw, Endpoint, Key, Ticket, Verdict};
use std::alloc::Global;

/// The time of all steps, in milliseconds.
pub const NOW: u64 = 0;

/// The key of the listener's cookies.
const KEY: [u8; 32] = [
    0, 1, 2, 3, 4, 5, 6, 7, 8, 9, 10, 11, 12, 13, 14, 15, 16, 17, 18, 19, 20, 21, 22, 23, 24, 25,
    26, 27, 28, 29, 30, 31,
];

/// One endpoint and its bag: the packets that it has given to the network.
#[derive(Drop)]
struct OneSide {
    end: Endpoint,
    bag: Vec<Vec<u8>>,
}

impl OneSide {
    /// An endpoint with an empty bag.
    fn new(alloc: Global, end: Endpoint) -> OneSide {
        OneSide {
            end,
            bag: Vec::new(alloc),
        }
    }

    /// The packet at this place of the bag, from 0.
    fn packet(&self, place: usize) -> Result<Vec<u8>> {
        let packet = self.bag.get(place);
        let packet = packet.ok_or_else(|| anyhow!("there is no such packet"))?;
        Ok(packet.clone()?)
    }
}

/// Two endpoints, A and then B, and the random values for INITs that arrive. They are in a list, since each place that drops an endpoint by
/// itself is proved anew.
#[derive(Drop)]
pub struct Ends {
    alloc: Global,
    sides: Vec<OneSide>,
    draw: Draw,
    configs: [Config; 2],
}

impl Ends {
    /// The two endpoints in their states before a packet arrives.
    pub fn before(alloc: Global, base: &Base) -> Result<Ends> {
        let mut ends = Ends::new(alloc, base)?;
        ends.run(base)?;
        Ok(ends)
    }

    /// Makes all steps before the packet arrives.
    fn run(&mut self, base: &Base) -> Result<()> {
        for step in base.script.iter().take(base.before) {
            self.step(*step)?;
        }
        Ok(())
    }

    /// Two new endpoints.
    fn new(alloc: Global, base: &Base) -> Result<Ends> {
        let limits = if base.interleave {
            (576, 500)
        } else {
            (1_500, 1_400)
        };
        let configs = [
            config(base, 5_000, 5_001, limits)?,
            config(base, 5_001, 5_000, limits)?,
        ];
        let mut ends = Ends {
            alloc,
            sides: Vec::new(alloc),
            draw: draw(1, 1)?,
            configs,
        };
        ends.add(Endpoint::caller(alloc, configs[0]))?;
        ends.add(Endpoint::listener(alloc, configs[1], Key::new(KEY)))?;
        Ok(ends)
    }

    /// Adds an endpoint.
    fn add(&mut self, end: Endpoint) -> Result<()> {
        Ok(self.sides.push(OneSide::new(self.alloc, end))?)
    }

    /// The packet that arrives.
    pub fn packet(&self, base: &Base) -> Result<Vec<u8>> {
        self.of(base.from)?.packet(base.place)
    }

    /// The endpoint at which it arrives.
    pub fn taker(&self, base: &Base) -> Result<&Endpoint> {
        Ok(&self.of(base.from.other())?.end)
    }

    /// The verdict of that endpoint on these bytes, which arrive in place of the packet.
    pub fn told(&mut self, base: &Base, bytes: &[u8]) -> Result<Told> {
        let draw = draw(11, 700)?;
        let to = self.side(base.from.other())?;
        Ok(Told::of(&to.end.handle_packet(NOW, bytes, draw)?))
    }

    /// Borrows one of the two.
    fn of(&self, side: Side) -> Result<&OneSide> {
        let found = self.sides.get(side.place());
        found.ok_or_else(|| anyhow!("there is no such end"))
    }

    /// Borrows one of the two, to be changed.
    fn side(&mut self, side: Side) -> Result<&mut OneSide> {
        let found = self.sides.get_mut(side.place());
        found.ok_or_else(|| anyhow!("there is no such end"))
    }

    /// Makes a step.
    fn step(&mut self, step: Step) -> Result<()> {
        match step {
            Step::Open => self.open(),
            Step::Connect(tag, tsn) => self.connect(tag, tsn),
            Step::Draw(tag, tsn) => self.take_draw(tag, tsn),
            Step::Send(side, bytes, times) => self.send(side, bytes, times),
            Step::Build(side) => self.build(side),
            Step::Deliver(side, place) => self.deliver(side, place),
            Step::Take(side) => self.take(side),
            Step::Abandon(side, ticket) => self.abandon(side, ticket),
            Step::Shutdown(side) => Ok(self.side(side)?.end.shutdown()?),
        }
    }

    /// Puts both into an association without packets.
    fn open(&mut self) -> Result<()> {
        let [at_a, at_b] = self.configs;
        let (of_a, of_b) = (draw(1, 1)?, draw(2, 1)?);
        self.sides.clear();
        self.add(opened(self.alloc, at_a, of_a, of_b)?)?;
        self.add(opened(self.alloc, at_b, of_b, of_a)?)
    }

    /// The caller calls.
    fn connect(&mut self, tag: u32, tsn: u32) -> Result<()> {
        let draw = draw(tag, tsn)?;
        Ok(self.side(Side::A)?.end.connect(NOW, draw)?)
    }

    /// Sets the tag and the initial TSN with which INITs are answered.
    fn take_draw(&mut self, tag: u32, tsn: u32) -> Result<()> {
        self.draw = draw(tag, tsn)?;
        Ok(())
    }

    /// The user of this endpoint sends a message that repeats these bytes `times` times.
    fn send(&mut self, side: Side, bytes: &[u8], times: usize) -> Result<()> {
        let mut message = Vec::new(self.alloc);
        for _ in 0..times {
            message.extend_from_slice(bytes)?;
        }
        self.side(side)?.end.send(0, true, 0, message, None)?;
        Ok(())
    }

    /// This endpoint builds a packet.
    fn build(&mut self, side: Side) -> Result<()> {
        let side = self.side(side)?;
        let sent = side.end.poll_transmit(NOW)?;
        let sent = sent.ok_or_else(|| anyhow!("no packet is due"))?;
        Ok(side.bag.push(sent.packet)?)
    }

    /// Delivers a packet of this endpoint to the other one, whose answer is added to its bag.
    fn deliver(&mut self, side: Side, place: usize) -> Result<()> {
        let packet = self.of(side)?.packet(place)?;
        let draw = self.draw;
        let to = self.side(side.other())?;
        if let Verdict::Answer(reply) = to.end.handle_packet(NOW, &packet, draw)? {
            to.bag.push(reply)?;
        }
        Ok(())
    }

    /// The user of this endpoint takes a message.
    fn take(&mut self, side: Side) -> Result<()> {
        let message = self.side(side)?.end.take(0);
        message.ok_or_else(|| anyhow!("no message waits"))?;
        Ok(())
    }

    /// The user of this endpoint abandons this ticket.
    fn abandon(&mut self, side: Side, ticket: u64) -> Result<()> {
        let _ = self.side(side)?.end.abandon(Ticket(ticket));
        Ok(())
    }
}

/// A verification tag, not 0, and an initial TSN.
pub fn draw(tag: u32, tsn: u32) -> Result<Draw> {
    Draw::new(tag, tsn).ok_or_else(|| anyhow!("the tag 0 is no tag"))
}

/// An endpoint that was put into an association without packets.
fn opened(alloc: Global, config: Config, own: Draw, peer: Draw) -> Result<Endpoint> {
    Ok(Endpoint::opened(alloc, config, own, peer)?)
}

/// The configuration of an endpoint: its port and its peer's, the limit of packets, the size of fragments, and the extensions it asks for.
fn config(base: &Base, own_port: u16, peer_port: u16, limits: (u16, u16)) -> Result<Config> {
    let mut config = plain_config(own_port, peer_port, limits)?;
    if base.interleave {
        config = config.with_interleave();
    }
    if base.partial {
        config = config.with_partial();
    }
    Ok(config)
}

/// The configuration of an endpoint without extensions, with a buffer of 64 KiB and one stream each way.
fn plain_config(own_port: u16, peer_port: u16, limits: (u16, u16)) -> Result<Config> {
    let (limit, fragment) = limits;
    Ok(Config::new(own_port, peer_port, limit, fragment, 65_536, 1, 1)?)
}
