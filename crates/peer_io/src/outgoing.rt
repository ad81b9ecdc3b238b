ghost use Rattle.std.specs.Prelude.{◌≡◌, ◌==◌, ◌++◌, OnOk, OnErr};
ghost use Rattle.bgp_wire.specs.Message.{IsMessage, Message, message_bytes};

use net_base::NoMemory;
use wire_buf::Pipe;

/// A message that can be sent.
pub trait Outgoing {
    /// The message.
    ghost message: { Self → Message };

    /// What the message asks of its parts.
    ghost can_write: { Self → Type 0 } = { λ _. Unit {0} };

    /// Writes the message behind what `out` holds. Where memory is refused, `out` holds what it held.
    fn write(&self, out: &mut Pipe) -> Result<(), NoMemory>
        requires { can_write self.now }
        ensures ok { OnOk result (out.new ≡ out.old ++ message_bytes (message self.now)) }
        ensures err { OnErr result (out.new ≡ out.old) }
        ensures whole { IsMessage (message self.now) };

    /// Whether it is an UPDATE.
    fn is_update(&self) -> bool
        ensures { result ≡ ((message self.now).kind == 2) };
}
