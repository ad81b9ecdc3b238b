ghost use Rattle.std.specs.Prelude.{◌≡◌, ℕ, List, [], ◌∷◌, ◌++◌, fold, flat_map, length, map, Ok, None, IfOk};
ghost use Rattle.std.specs.Ordering.{nat_cmp};
ghost use Rattle.attr_model.specs.declared.attrs.Attrs.{Attrs};
ghost use Rattle.attr_model.specs.Valid.{IsValid};
ghost use Rattle.attr_codec.specs.Written.{Row, attrs_rows};
ghost use Rattle.std.specs.List.{AllByRecursion};
ghost use Rattle.std.specs.List.Sorted.{IsStrictlySortedBy};
ghost use Rattle.std.specs.BTreeMap.{is_at};
ghost use Rattle.std.specs.Map.{lookup, keys_of};
ghost use Rattle.net_base.specs.declared.prefix.Prefix.{Prefix};
ghost use Rattle.net_base.specs.Order.{prefix_cmp};
ghost use Rattle.bgp_wire.specs.Message.{AreBytes, IsMessage, Message, message_bytes, messages};
ghost use Rattle.bgp_wire.specs.declared.open.Encoding.{Encoding};
ghost use Rattle.update_codec.specs.declared.update.Update.{Update};
ghost use Rattle.update_codec.specs.Update.{update_says};
ghost use Rattle.update_codec.specs.declared.out_update.OutUpdate.{OutUpdate};
ghost use Rattle.update_codec.specs.Written.{update_message, message_size, read_by_peer, IsWritable, Fits, HasWidth};
ghost use Rattle.update_codec.specs.Held.{with_update, held, words_of, last_word, updates_in, told_from, told};
ghost use Rattle.update_codec.specs.Valid.{AnnouncesValid, HaveValid};
ghost use Rattle.update_codec.specs.Families.{AnnouncesFamilies, HaveFamilies};

/// What an UPDATE announces has valid attributes, as what is sent has to have.
pub fn update_attributes_are_valid()
    ensures { (enc : Encoding) (body : List ℕ) → AreBytes body → IfOk (update_says enc body) AnnouncesValid }
{}

/// The routes that UPDATEs leave have valid attributes.
pub fn held_attributes_are_valid()
    ensures held { (updates : List Update) → AllByRecursion AnnouncesValid updates → HaveValid (held updates) }
    // The bytes of a connection leave no others.
    ensures told { (enc : Encoding) (bytes : List ℕ) → AreBytes bytes → HaveValid (told enc bytes) }
{}

/// The next hop of an announced prefix has its family: NEXT_HOP is an IPv4 address, and in MP_REACH_NLRI the family is that of
/// both (RFC 4760 section 3). So have those of the routes that the bytes of a connection leave.
pub fn held_hops_have_the_family()
    ensures update { (enc : Encoding) (body : List ℕ) → IfOk (update_says enc body) AnnouncesFamilies }
    ensures told { (enc : Encoding) (bytes : List ℕ) → HaveFamilies (told enc bytes) }
{}

/// An UPDATE that is sent has the size that its parts say, and the peer reads from it what was sent.
pub fn updates_read_back()
    ensures size { (enc : Encoding) (update : OutUpdate) →
        length (message_bytes (update_message enc update)) ≡ message_size enc update }
    ensures whole { (enc : Encoding) (update : OutUpdate) → Fits enc update →
        IsMessage (update_message enc update) }
    ensures reads_back { (enc : Encoding) (update : OutUpdate) →
        IsWritable enc update → Fits enc update → HasWidth update →
        update_says enc (update_message enc update).body ≡ Ok (read_by_peer update) }
{}

/// What one UPDATE more does to the routes that UPDATEs leave.
pub fn held_goes_on()
    ensures held { (updates : List Update) (update : Update) →
        held (updates ++ update ∷ []) ≡ with_update (held updates) update }
    // Bytes that come later go on where the first ended.
    ensures told { (enc : Encoding) (bytes more : List ℕ) → AreBytes bytes → (messages bytes).fault ≡ None →
        told enc (bytes ++ more)
        ≡ told_from enc (told enc bytes) (messages ((messages bytes).rest ++ more)).whole }
    // One message more leaves what the UPDATE in it does.
    ensures message { (enc : Encoding) (bytes : List ℕ) (message : Message) →
        AreBytes bytes → (messages bytes).fault ≡ None → (messages bytes).rest ≡ [] → IsMessage message →
        told enc (bytes ++ message_bytes message)
        ≡ fold with_update (told enc bytes) (updates_in enc message) }
{}

/// The routes that UPDATEs leave ascend by prefix, and a prefix has one exactly where the last word on it is an announcement,
/// with its attributes.
pub fn held_by_last_word()
    ensures ascend { (updates : List Update) → IsStrictlySortedBy prefix_cmp (keys_of (held updates)) }
    ensures route { (updates : List Update) (prefix : Prefix) →
        lookup (is_at (prefix_cmp prefix)) (held updates)
        ≡ last_word prefix (flat_map words_of updates) }
{}

/// The attributes that are sent with a route ascend by type, each type once (RFC 4271 section 5); those of RFC 4760 stand in
/// front of them.
pub fn written_types_ascend()
    ensures { (enc : Encoding) (attrs : Attrs) → IsValid attrs →
        IsStrictlySortedBy nat_cmp (map (λ (row : Row). row.kind) (attrs_rows enc attrs)) }
{}
