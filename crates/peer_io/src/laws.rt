ghost use Rattle.std.specs.Prelude.{◌≡◌, ℕ, List};
ghost use Rattle.bgp_wire.specs.Message.{Message, behind, messages};
ghost use Rattle.peer_io.specs.Reading.{CameAs};

/// What an inbox gave is what the bytes that came say, whatever the pieces: their whole messages are those that were
/// given, and those of the bytes that it holds.
pub fn messages_through_an_inbox()
    ensures { (came : List ℕ) (given : List Message) (held : List ℕ) → CameAs came given held →
        messages came ≡ behind given (messages held) }
{}
