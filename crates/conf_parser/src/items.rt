//! The items of a `set`.

ghost use Rattle.std.specs.Prelude.{◌≡◌, IfSome, is_some};
ghost use Rattle.conf_tree.specs.declared.rule.Change.TheVariants as changes;
ghost use Rattle.conf_tree.specs.declared.draft.SetPlace.{SetPlace};
ghost use Rattle.conf_tree.specs.ItemReading.{change_at, changed_by, community_item_at, is_refused_hop, is_refused_item, is_signed, item_at, item_words, known_item_at, large_item_at, left_out_of_rules, next_hop_item_at, optional_set_at, origin_at, set_at, unsigned};
ghost use Rattle.conf_tree.specs.Reading.{behind, word_in};
ghost use Rattle.conf_parser.specs.Reads.{Reads};
ghost use Rattle.conf_parser.specs.Words.{item_behind};

use crate::cursor::{Cursor, too_many};
use crate::lists::ReadMember;
use crate::names::one_community;
use crate::values::{is_number, number_of};
use conf_tree::{Change, Item, ItemList, NextHop, RouteOrigin, SetPlace};
use net_base::{ConfError, ConfKind, Counted, Items};
use std::alloc::Global;

/// The most items of one set.
const MOST_ITEMS: usize = 16;

/// The most times that a number stands in front of a path by one item.
const MOST_PREPENDS: u8 = 128;

/// The words that begin an item.
#[derive(Clone, Copy)]
pub(crate) enum ItemWord {
    LocalPref,
    Med,
    Weight,
    PrependSelf,
    PrependNeighbor,
    Origin,
    Community,
    LargeCommunity,
    NextHop,
}

/// Reads items of a set that stands at this place.
#[derive(Drop)]
struct ItemReader {
    place: SetPlace,
}

impl ReadMember for ItemReader {
    type Value = Item;

    ghost member = { λ reader. item_at reader.place };

    #[tactic(auto, unfolding(conf_tree::specs::ItemReading::item_at, conf_tree::specs::Reading::unless_full))]
    fn read<'a>(
        &self,
        _alloc: Global,
        full: bool,
        tokens: &mut Cursor<'a>,
    ) -> Result<Item, ConfError> {
        if tokens.is_refused_item(self.place) {
            return Err(tokens.fault(ConfKind::NotInProfile));
        }
        let Some(word) = tokens.item_word() else {
            return Err(tokens.unexpected());
        };
        if full {
            return Err(too_many(Counted::Items, tokens.line()));
        }
        tokens.advance();
        tokens.item_behind(self.place, word)
    }
}

impl<'a> Cursor<'a> {
    /// A set where there may be one; without it no items.
    #[tactic(auto, unfolding(conf_tree::specs::ItemReading::optional_set_at))]
    pub(crate) fn optional_set(
        &mut self,
        alloc: Global,
        place: SetPlace,
    ) -> Result<ItemList, ConfError>
        ensures { Reads (optional_set_at place) self.old self.new result }
    {
        if self.takes(b"set") {
            return self.set(alloc, place);
        }
        Ok(Items::new(alloc))
    }

    /// What stands behind `set`: one item, or up to 16 in braces.
    #[tactic(auto, unfolding(conf_tree::specs::ItemReading::set_at))]
    pub(crate) fn set(&mut self, alloc: Global, place: SetPlace) -> Result<ItemList, ConfError>
        ensures { Reads (set_at place) self.old self.new result }
    {
        self.one_or_list(alloc, &ItemReader { place }, MOST_ITEMS)
    }

    /// The word of an item that stands here.
    #[tactic(auto, unfolding(conf_tree::specs::Reading::word_in, conf_tree::specs::ItemReading::known_item_at, conf_tree::specs::ItemReading::route_item_at, conf_tree::specs::ItemReading::naming_item_at))]
    fn item_word(&self) -> Option<ItemWord>
        ensures begins { is_some result ≡ word_in item_words self.now }
        ensures goes_on { IfSome result (λ w. (place : SetPlace) → known_item_at place self.now ≡ item_behind place w (behind self.now)) }
    {
        if self.word_is(b"localpref") {
            Some(ItemWord::LocalPref)
        } else if self.word_is(b"med") {
            Some(ItemWord::Med)
        } else if self.word_is(b"metric") {
            Some(ItemWord::Med)
        } else if self.word_is(b"weight") {
            Some(ItemWord::Weight)
        } else if self.word_is(b"prepend-self") {
            Some(ItemWord::PrependSelf)
        } else if self.word_is(b"prepend-neighbor") {
            Some(ItemWord::PrependNeighbor)
        } else if self.word_is(b"origin") {
            Some(ItemWord::Origin)
        } else if self.word_is(b"community") {
            Some(ItemWord::Community)
        } else if self.word_is(b"large-community") {
            Some(ItemWord::LargeCommunity)
        } else if self.word_is(b"nexthop") {
            Some(ItemWord::NextHop)
        } else {
            None
        }
    }

    /// What stands behind the word of an item.
    #[tactic(auto, unfolding(conf_tree::specs::ItemReading::local_pref_at, conf_tree::specs::ItemReading::med_at, conf_tree::specs::ItemReading::weight_at, conf_tree::specs::ItemReading::prepend_self_at, conf_tree::specs::ItemReading::prepend_neighbor_at))]
    fn item_behind(&mut self, place: SetPlace, word: ItemWord) -> Result<Item, ConfError>
        ensures { Reads (item_behind place word) self.old self.new result }
    {
        match word {
            ItemWord::LocalPref => Ok(Item::LocalPref(self.change()?)),
            ItemWord::Med => Ok(Item::Med(self.change()?)),
            ItemWord::Weight => Ok(Item::Weight(self.change()?)),
            ItemWord::PrependSelf => Ok(Item::PrependSelf(self.number8(1, MOST_PREPENDS)?)),
            ItemWord::PrependNeighbor => {
                Ok(Item::PrependNeighbor(self.number8(1, MOST_PREPENDS)?))
            }
            ItemWord::Origin => self.origin(),
            ItemWord::Community => self.community_item(),
            ItemWord::LargeCommunity => self.large_item(),
            ItemWord::NextHop => self.next_hop_item(place),
        }
    }

    /// `+N`, `-N` or `N`.
    #[tactic(auto, unfolding(conf_tree::specs::ItemReading::change_at, conf_tree::specs::Values::word_passes))]
    fn change(&mut self) -> Result<Change, ConfError>
        ensures { Reads change_at self.old self.new result }
    {
        let Some(text) = self.word() else {
            return Err(self.unexpected());
        };
        if is_signed(text, b'+') {
            self.in_range(added(text))
        } else if is_signed(text, b'-') {
            self.in_range(subtracted(text))
        } else if is_number(text) {
            self.in_range(assigned(text))
        } else {
            Err(self.unexpected())
        }
    }

    /// What stands behind `origin`.
    #[tactic(auto, unfolding(conf_tree::specs::ItemReading::origin_at))]
    fn origin(&mut self) -> Result<Item, ConfError>
        ensures { Reads origin_at self.old self.new result }
    {
        if self.takes(b"igp") {
            Ok(Item::Origin(RouteOrigin::Igp))
        } else if self.takes(b"egp") {
            Ok(Item::Origin(RouteOrigin::Egp))
        } else if self.takes(b"incomplete") {
            Ok(Item::Origin(RouteOrigin::Incomplete))
        } else {
            Err(self.unexpected())
        }
    }

    /// What stands behind `community`: one that is added, or `delete` and those that are taken away.
    #[tactic(auto, unfolding(conf_tree::specs::ItemReading::community_item_at, conf_tree::specs::ItemReading::deleted_community_at, conf_tree::specs::ItemReading::added_community_at))]
    fn community_item(&mut self) -> Result<Item, ConfError>
        ensures { Reads community_item_at self.old self.new result }
    {
        if self.takes(b"delete") {
            return Ok(Item::DeleteCommunity(self.community(true)?));
        }
        Ok(Item::Community(one_community(self.community(false)?)))
    }

    /// What stands behind `large-community`, likewise.
    #[tactic(auto, unfolding(conf_tree::specs::ItemReading::large_item_at, conf_tree::specs::ItemReading::deleted_large_at, conf_tree::specs::ItemReading::added_large_at))]
    fn large_item(&mut self) -> Result<Item, ConfError>
        ensures { Reads large_item_at self.old self.new result }
    {
        if self.takes(b"delete") {
            return Ok(Item::DeleteLargeCommunity(self.large_community(true)?));
        }
        let pattern = self.large_community(false)?;
        let global = pattern.global.unwrap_or(0);
        let first = pattern.first.unwrap_or(0);
        let second = pattern.second.unwrap_or(0);
        Ok(Item::LargeCommunity(global, first, second))
    }

    /// What stands behind `nexthop` in a set that stands at this place.
    #[tactic(auto, unfolding(conf_tree::specs::ItemReading::next_hop_item_at, conf_tree::specs::ItemReading::hop_address_at))]
    fn next_hop_item(&mut self, place: SetPlace) -> Result<Item, ConfError>
        ensures { Reads (next_hop_item_at place) self.old self.new result }
    {
        if self.is_refused_hop(place) {
            Err(self.fault(ConfKind::NotInProfile))
        } else if self.takes(b"self") {
            Ok(Item::NextHop(NextHop::Own))
        } else if self.takes(b"no-modify") {
            Ok(Item::NextHop(NextHop::NoModify))
        } else {
            Ok(Item::NextHop(NextHop::Address(self.address()?)))
        }
    }

    /// Whether the word behind `nexthop` is left out of a set that stands here.
    #[tactic(auto, unfolding(conf_tree::specs::Reading::word_in))]
    fn is_refused_hop(&self, place: SetPlace) -> bool
        ensures { result ≡ is_refused_hop place self.now }
    {
        if self.word_in(&[b"blackhole", b"reject"]) {
            return true;
        }
        place != SetPlace::ToRule && self.word_in(&[b"self", b"no-modify"])
    }

    /// Whether the word in the place of an item is left out of a set that stands here.
    fn is_refused_item(&self, place: SetPlace) -> bool
        ensures { result ≡ is_refused_item place self.now }
    {
        if self.is_left_out_of_rules() {
            return true;
        }
        place == SetPlace::Network && self.word_is(b"prepend-neighbor")
    }

    /// Whether the next token is a word of conditions and items that the language leaves out.
    #[tactic(auto, unfolding(conf_tree::specs::Reading::word_in))]
    pub(crate) fn is_left_out_of_rules(&self) -> bool
        ensures { result ≡ word_in left_out_of_rules self.now }
    {
        self.word_in(&[
            b"ext-community",
            b"max-as-seq",
            b"max-communities",
            b"avs",
            b"pftable",
            b"rtlabel",
            b"expires",
        ])
    }
}

/// Whether a text is this byte and a number behind it.
fn is_signed(text: &[u8], sign: u8) -> bool
    ensures { result ≡ is_signed sign text.now }
{
    match text {
        [] => false,
        [first, rest @ ..] => *first == sign && is_number(rest),
    }
}

/// A text without its first byte.
fn unsigned(text: &[u8]) -> &[u8]
    ensures { result.now ≡ unsigned text.now }
{
    match text {
        [] => text,
        [_, rest @ ..] => rest,
    }
}

/// The change of `+N`; None where the field can't hold N.
fn added(text: &[u8]) -> Option<Change>
    ensures { result ≡ changed_by changes.Add (unsigned text.now) }
{
    Some(Change::Add(number_of(unsigned(text))?))
}

/// The change of `-N`, likewise.
fn subtracted(text: &[u8]) -> Option<Change>
    ensures { result ≡ changed_by changes.Subtract (unsigned text.now) }
{
    Some(Change::Subtract(number_of(unsigned(text))?))
}

/// The change of `N`, likewise.
fn assigned(text: &[u8]) -> Option<Change>
    ensures { result ≡ changed_by changes.Set text.now }
{
    Some(Change::Set(number_of(text)?))
}
