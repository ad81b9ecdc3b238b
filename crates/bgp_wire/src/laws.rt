ghost use Rattle.std.specs.Prelude.{◌≡◌, ℕ, List, ◌++◌, flat_map, None, IsSome};
ghost use Rattle.std.specs.List.{AllByRecursion};
ghost use Rattle.bgp_wire.specs.Entries.{Entry, entries, entry_bytes};
ghost use Rattle.bgp_wire.specs.Message.{AreBytes, IsMessage, Message, Messages, Splits, behind, message_bytes, messages};

/// A string of bytes is whole messages and a rest in exactly one way, whatever the pieces in which it comes:
/// the rest is either no whole message, or begins with a bad header.
pub fn messages_split()
    ensures there { (bytes : List ℕ) → AreBytes bytes → Splits bytes (messages bytes) }
    ensures only { (bytes : List ℕ) (ms : Messages) → Splits bytes ms → messages bytes ≡ ms }
    // Messages that were written are read again, whatever stands behind them.
    ensures written { (ms : List Message) (rest : List ℕ) → AllByRecursion IsMessage ms →
        messages (flat_map message_bytes ms ++ rest) ≡ behind ms (messages rest) }
    // Bytes that come later go on where the first ended.
    ensures goes_on { (bytes more : List ℕ) → AreBytes bytes → (messages bytes).fault ≡ None →
        messages (bytes ++ more) ≡ behind (messages bytes).whole (messages ((messages bytes).rest ++ more)) }
    // Bytes behind a bad header change neither the messages nor the fault.
    ensures stays { (bytes more : List ℕ) → AreBytes bytes → IsSome (messages bytes).fault →
        messages (bytes ++ more) ≡ record (messages bytes) { rest = (messages bytes).rest ++ more } }
{}

/// A field is its entries one behind the other, and it is cut into these alone.
pub fn entries_split()
    ensures written { (es : List Entry) → entries (flat_map entry_bytes es) ≡ Some es }
    ensures only { (bytes : List ℕ) (es : List Entry) → entries bytes ≡ Some es → bytes ≡ flat_map entry_bytes es }
{}
