use core_msgs::{Frame, SendList};
use net_base::{Addr, NoMemory};
use std::alloc::Global;
use std::collections::BTreeMap;
use std::marker::Model;

/// The sessions that are up, and how many came up so far.
#[derive(Drop)]
pub(crate) struct LiveSessions {
    /// The neighbour of each session that is up, by its number.
    peers: BTreeMap<u32, Addr>,
    /// The number of the last session that came up, 0 before the first.
    last: u32,
}

impl Model for LiveSessions {
    ghost use Rattle.session_core.specs.Sessions.{Live};

    ghost Value = { Live };

    ghost view = { λ l. record { peers = l.peers.entries; last = l.last } };
}

impl LiveSessions {
    ghost use Rattle.std.specs.Prelude.{◌≡◌, [], OnOk};
    ghost use Rattle.session_core.specs.Numbers.{noted, noted_frame};
    ghost use Rattle.session_core.specs.Sessions.{live_peer};

    /// No session came up yet.
    pub(crate) fn new(alloc: Global) -> LiveSessions
        ensures { result ≡ record { peers = []; last = 0 } }
    {
        LiveSessions {
            peers: BTreeMap::new(alloc),
            last: 0,
        }
    }

    /// The number of the last session that came up, 0 before the first.
    pub(crate) fn last(&self) -> u32
        ensures { result ≡ self.now.last }
    {
        self.last
    }

    /// The neighbour of a session that is up.
    pub(crate) fn peer_of(&self, session: u32) -> Option<Addr>
        ensures { result ≡ live_peer session self.now }
    {
        match self.peers.get(&session) {
            Some(peer) => Some(*peer),
            None => None,
        }
    }

    /// Keeps the numbers by what was written.
    pub(crate) fn note_all(&mut self, frames: &SendList) -> Result<(), NoMemory>
        ensures { OnOk result (self.new ≡ noted frames.now self.old) }
    {
        for (_, frame) in frames {
            self.note(frame)?;
        }
        Ok(())
    }

    /// Keeps the numbers by a frame that was written.
    fn note(&mut self, frame: &Frame) -> Result<(), NoMemory>
        ensures { OnOk result (self.new ≡ noted_frame frame.now self.old) }
    {
        match frame {
            Frame::Up { session, peer, .. } => {
                self.peers.insert(*session, *peer)?;
                self.last = *session;
            }
            Frame::Down { session } => {
                self.peers.remove(session);
            }
            _ => (),
        }
        Ok(())
    }
}
