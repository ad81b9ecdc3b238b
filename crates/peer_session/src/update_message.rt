ghost use Rattle.update_codec.specs.Written.{Fits, IsWritable, update_message};

use bgp_wire::Encoding;
use net_base::NoMemory;
use peer_io::Outgoing;
use update_codec::{OutUpdate, write_update};
use wire_buf::Pipe;

/// An UPDATE for a peer, written by what was agreed with it (RFC 4271, section 4.3).
#[derive(Debug, Drop)]
pub struct UpdateMessage {
    pub encoding: Encoding,
    pub update: OutUpdate,
}

impl Outgoing for UpdateMessage {
    ghost message = { λ m. update_message m.encoding m.update };

    ghost can_write = { λ m. IsWritable m.encoding m.update × Fits m.encoding m.update };

    fn write(&self, out: &mut Pipe) -> Result<(), NoMemory> {
        write_update(self.encoding, &self.update, out)
    }

    #[tactic(auto, unfolding(update_codec::specs::Written::update_message))]
    fn is_update(&self) -> bool {
        true
    }
}
