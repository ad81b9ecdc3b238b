ghost use Rattle.std.specs.Prelude.{◌≡◌, ℕ, List, Some};
ghost use Rattle.bgp_wire.specs.Message.{AreBytes};
ghost use Rattle.core_msgs.specs.declared.frame.Frame.{Frame};
ghost use Rattle.frame_codec.specs.Grammar.{Fits, IsPayloadOf, frame_of, kind_of, number_of, payload_of, session_of};

/// A frame that is written is read again, and what is read was written for that frame alone.
pub fn frames_read_back()
    ensures there { (frame : Frame) → Fits frame →
        frame_of (number_of (kind_of frame)) (session_of frame) (payload_of frame) ≡ Some frame }
    ensures only { (number session : ℕ) (payload : List ℕ) (frame : Frame) → AreBytes payload →
        frame_of number session payload ≡ Some frame → IsPayloadOf number payload frame }
{}
