ghost use Rattle.std.specs.Prelude.{◌≡◌, ◌≤◌, ◌+◌, ℕ, List, [], true, Ok, Some, None, length, IfSome, IfOk};
ghost use Rattle.std.specs.List.{AllByRecursion};
ghost use Rattle.net_base.specs.declared.addr.Addr.{Addr};
ghost use Rattle.net_base.specs.declared.addr.Family.{Family};
ghost use Rattle.net_base.specs.declared.addr.Family.TheVariants.{V4, V6};
ghost use Rattle.net_base.specs.declared.prefix.Prefix.{Prefix};
ghost use Rattle.bgp_wire.specs.Message.{AreBytes};
ghost use Rattle.bgp_wire.specs.declared.open.Encoding.{Encoding};
ghost use Rattle.attr_model.specs.declared.attrs.Attrs.{Attrs};
ghost use Rattle.attr_model.specs.Valid.{IsValid};
ghost use Rattle.attr_codec.specs.Cut.{Cut, cut};
ghost use Rattle.attr_codec.specs.Frame.{frame_attrs_bytes, IsFramed, frame_attrs_of, IsFrameOf};
ghost use Rattle.attr_codec.specs.Field.{Attribute, attribute_at, Spells};
ghost use Rattle.attr_model.specs.declared.path.Segment.{Segment};
ghost use Rattle.attr_model.specs.Path.{path_length};
ghost use Rattle.attr_codec.specs.Values.{joined_paths};
ghost use Rattle.attr_codec.specs.Prefixes.{IsOf, prefixes_of, prefixes_bytes};
ghost use Rattle.attr_codec.specs.Read.{field_says};
ghost use Rattle.attr_codec.specs.Written.{row_bytes, unreach_row, attrs_bytes};
ghost use Rattle.attr_codec.specs.ReadBack.{IsSent, sent, unsent, nothing_said, reach_bytes};

/// An attribute field is its attributes one behind the other, and it is cut into these alone.
pub fn attributes_split()
    // What a field is cut into spells it.
    ensures there { (field : List ℕ) → AreBytes field → Spells field (cut attribute_at field) }
    // Nothing else does.
    ensures only { (field : List ℕ) (attributes : Cut Attribute) → Spells field attributes → cut attribute_at field ≡ attributes }
{}

/// Prefixes that were written are read again.
pub fn prefixes_read_back()
    ensures { (family : Family) (prefixes : List Prefix) → AllByRecursion (IsOf family) prefixes → prefixes_of family (prefixes_bytes prefixes) ≡ Some prefixes }
{}

/// A peer reads from attributes what was sent, for each encoding that may be agreed with it.
pub fn attributes_read_back()
    // NEXT_HOP has the hop of IPv4 routes.
    ensures plain { (enc : Encoding) (attrs : Attrs) → IsSent enc attrs → attrs.hop.family ≡ V4 → field_says enc (attrs_bytes enc attrs) ≡ Ok (sent attrs None) }
    // IPv6 routes stand in MP_REACH_NLRI, with their hop.
    ensures reach { (enc : Encoding) (attrs : Attrs) (prefixes : List Prefix) → IsSent enc attrs → attrs.hop.family ≡ V6 → enc.v6 ≡ true → AllByRecursion (IsOf V6) prefixes → 21 + length (prefixes_bytes prefixes) ≤ 65535
        → field_says enc (reach_bytes enc attrs prefixes) ≡ Ok (sent attrs (Some (V6, attrs.hop, prefixes))) }
    ensures unreach { (enc : Encoding) (prefixes : List Prefix) → enc.v6 ≡ true → AllByRecursion (IsOf V6) prefixes → 3 + length (prefixes_bytes prefixes) ≤ 65535
        → field_says enc (row_bytes (unreach_row prefixes)) ≡ Ok (unsent prefixes) }
    ensures nothing { (enc : Encoding) → field_says enc [] ≡ Ok nothing_said }
{}

/// Attributes that are read are valid, as those that are sent have to be.
pub fn read_attributes_are_valid()
    ensures { (enc : Encoding) (field : List ℕ) → AreBytes field → IfOk (field_says enc field) (λ said. IfSome said.attrs IsValid) }
{}

/// What a frame carries is read back, and nothing else is read.
pub fn frame_attributes_read_back()
    ensures there { (attrs : Attrs) → IsFramed attrs →
        frame_attrs_of attrs.hop attrs.weight (frame_attrs_bytes attrs) ≡ Some attrs }
    ensures only { (hop : Addr) (weight : ℕ) (bytes : List ℕ) (attrs : Attrs) → AreBytes bytes →
        frame_attrs_of hop weight bytes ≡ Some attrs → IsFrameOf hop weight bytes attrs }
{}

/// A path that is joined from AS_PATH and AS4_PATH has as many numbers as AS_PATH (RFC 6793 section 4.2.3).
pub fn joined_paths_keep_length()
    ensures { (path as4_path : List Segment) →
        path_length (joined_paths path as4_path) ≡ path_length path }
{}
