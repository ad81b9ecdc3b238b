ghost use Rattle.std.specs.Prelude.{◌≡◌, ℕ, List, [], ◌∷◌, ◌+◌, ◌++◌, length, flat_map, None};
ghost use Rattle.std.specs.List.{All};
ghost use Rattle.imsg_wire.specs.declared.link.Link.{Link};
ghost use Rattle.imsg_wire.specs.declared.raw.Raw.{Raw};
ghost use Rattle.imsg_wire.specs.Frame.{Bad, IsFrame, Whole, behind, frame_bytes, frames, frames_by, front_of};
ghost use Rattle.imsg_wire.specs.Holding.{Holds, with_frame};

/// The frames of some bytes are the one at their front and those of the bytes behind it. What was written is read,
/// whatever stands behind it, and bytes that come later go on where the first ended.
pub fn frames_split()
    ensures step { (bytes : List ℕ) → frames bytes ≡ frames_by frames (front_of bytes) bytes }
    ensures written { (raws : List Raw) (rest : List ℕ) → All IsFrame raws →
        frames (flat_map frame_bytes raws ++ rest) ≡ behind raws (frames rest) }
    ensures goes_on { (bytes more : List ℕ) → (frames bytes).bad ≡ None →
        frames (bytes ++ more) ≡ behind (frames bytes).whole (frames ((frames bytes).rest ++ more)) }
    // A frame that was written stands whole at the front, and has a header of 16 bytes in front of its payload.
    ensures front { (raw : Raw) (rest : List ℕ) → IsFrame raw → front_of (frame_bytes raw ++ rest) ≡ Whole raw rest }
    ensures size { (raw : Raw) → length (frame_bytes raw) ≡ 16 + length raw.payload }
    // A length that no frame has stays in its place.
    ensures for_ever { (bytes more : List ℕ) (size : ℕ) → front_of bytes ≡ Bad size →
        front_of (bytes ++ more) ≡ Bad size }
{}

/// A frame whose bytes are appended to those that are still to come out of a link is the last that it holds.
pub fn links_append()
    ensures { (old new : Link) (raws : List Raw) (raw : Raw) → Holds old raws → IsFrame raw →
        new ≡ with_frame old raw → Holds new (raws ++ raw ∷ []) }
{}
