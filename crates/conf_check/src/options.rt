//! The options of a neighbour or a group, each kind for itself; of a repeated one the last holds.
ghost use Rattle.std.specs.Prelude.{◌≡◌, IfOk, option_copied};
ghost use Rattle.std.specs.Option.{option_or};
ghost use Rattle.conf_tree.specs.Said.{last_option, description_of, rib_option_of, set_option_of};

use conf_tree::{ItemList, NeighbourOption, OptionLine, Text};
use net_base::{Addr, Family, Items, NoMemory};
use std::alloc::Global;

/// The options that are plain values.
#[derive(Clone, Copy, Debug)]
pub(crate) struct Plain {
    pub(crate) remote_as: Option<u32>,
    pub(crate) local_address: Option<Addr>,
    pub(crate) port: Option<u16>,
    pub(crate) passive: Option<bool>,
    pub(crate) down: Option<bool>,
    pub(crate) multihop: Option<u8>,
    pub(crate) hold: Option<u16>,
    pub(crate) hold_min: Option<u16>,
    pub(crate) announce_v4: Option<bool>,
    pub(crate) announce_v6: Option<bool>,
    pub(crate) announce_refresh: Option<bool>,
    pub(crate) announce_as_4byte: Option<bool>,
    pub(crate) max_prefix: Option<u32>,
}

/// Options, where there are such.
#[derive(Debug, Drop)]
pub(crate) struct Settings {
    pub(crate) plain: Plain,
    pub(crate) description: Option<Text>,
    /// The name of the RIB.
    pub(crate) rib: Option<Text>,
    pub(crate) set: Option<ItemList>,
}

impl Plain {
    ghost use Rattle.conf_check.specs.Options.{plain_of, plain_or, no_plain};

    fn none() -> Plain
        ensures { result ≡ no_plain }
    {
        Plain {
            remote_as: None,
            local_address: None,
            port: None,
            passive: None,
            down: None,
            multihop: None,
            hold: None,
            hold_min: None,
            announce_v4: None,
            announce_v6: None,
            announce_refresh: None,
            announce_as_4byte: None,
            max_prefix: None,
        }
    }

    fn of(options: &[OptionLine]) -> Plain
        ensures { result ≡ plain_of options.now }
    {
        let mut plain = Plain::none();
        for line in options {
            match &line.option {
                NeighbourOption::RemoteAs(asn) => plain.remote_as = Some(*asn),
                NeighbourOption::LocalAddress(address) => plain.local_address = Some(*address),
                NeighbourOption::Port(port) => plain.port = Some(*port),
                NeighbourOption::Passive => plain.passive = Some(true),
                NeighbourOption::Down => plain.down = Some(true),
                NeighbourOption::Multihop(hops) => plain.multihop = Some(*hops),
                NeighbourOption::Hold(seconds) => plain.hold = Some(*seconds),
                NeighbourOption::HoldMin(seconds) => plain.hold_min = Some(*seconds),
                NeighbourOption::Announce(Family::V4, on) => plain.announce_v4 = Some(*on),
                NeighbourOption::Announce(Family::V6, on) => plain.announce_v6 = Some(*on),
                NeighbourOption::AnnounceRefresh(on) => plain.announce_refresh = Some(*on),
                NeighbourOption::AnnounceAs4Byte(on) => plain.announce_as_4byte = Some(*on),
                NeighbourOption::MaxPrefix(most) => plain.max_prefix = Some(*most),
                NeighbourOption::Description(_)
                | NeighbourOption::Rib(_)
                | NeighbourOption::Set(_) => {}
            }
        }
        plain
    }

    /// These options, and where there is none those of the group.
    fn or(self, shared: Plain) -> Plain
        ensures { result ≡ plain_or self shared }
    {
        Plain {
            remote_as: self.remote_as.or(shared.remote_as),
            local_address: self.local_address.or(shared.local_address),
            port: self.port.or(shared.port),
            passive: self.passive.or(shared.passive),
            down: self.down.or(shared.down),
            multihop: self.multihop.or(shared.multihop),
            hold: self.hold.or(shared.hold),
            hold_min: self.hold_min.or(shared.hold_min),
            announce_v4: self.announce_v4.or(shared.announce_v4),
            announce_v6: self.announce_v6.or(shared.announce_v6),
            announce_refresh: self.announce_refresh.or(shared.announce_refresh),
            announce_as_4byte: self.announce_as_4byte.or(shared.announce_as_4byte),
            max_prefix: self.max_prefix.or(shared.max_prefix),
        }
    }
}

impl Settings {
    ghost use Rattle.conf_check.specs.Options.{settings_of, settings_or, no_settings};

    pub(crate) fn none() -> Settings
        ensures { result ≡ no_settings }
    {
        Settings {
            plain: Plain::none(),
            description: None,
            rib: None,
            set: None,
        }
    }

    /// The last option of each kind.
    pub(crate) fn of(alloc: Global, options: &[OptionLine]) -> Result<Settings, NoMemory>
        ensures { IfOk result (λ settings. settings ≡ settings_of options.now) }
    {
        Ok(Settings {
            plain: Plain::of(options),
            description: copied(alloc, last_description(options))?,
            rib: copied(alloc, last_rib(options))?,
            set: copied(alloc, last_set(options))?,
        })
    }

    /// These options, and where there is none those of the group.
    pub(crate) fn or(self, alloc: Global, shared: &Settings) -> Result<Settings, NoMemory>
        ensures { IfOk result (λ settings. settings ≡ settings_or self shared.now) }
    {
        Ok(Settings {
            plain: self.plain.or(shared.plain),
            description: or_copied(alloc, self.description, &shared.description)?,
            rib: or_copied(alloc, self.rib, &shared.rib)?,
            set: or_copied(alloc, self.set, &shared.set)?,
        })
    }
}

fn last_description(options: &[OptionLine]) -> Option<&Text>
    ensures { option_copied result ≡ last_option description_of options.now }
{
    let mut last = None;
    for line in options {
        if let NeighbourOption::Description(text) = &line.option {
            last = Some(text);
        }
    }
    last
}

fn last_rib(options: &[OptionLine]) -> Option<&Text>
    ensures { option_copied result ≡ last_option rib_option_of options.now }
{
    let mut last = None;
    for line in options {
        if let NeighbourOption::Rib(name) = &line.option {
            last = Some(name);
        }
    }
    last
}

fn last_set(options: &[OptionLine]) -> Option<&ItemList>
    ensures { option_copied result ≡ last_option set_option_of options.now }
{
    let mut last = None;
    for line in options {
        if let NeighbourOption::Set(items) = &line.option {
            last = Some(items);
        }
    }
    last
}

/// A copy of a list, where there is one.
pub(crate) fn copied<T: Copy>(
    alloc: Global,
    list: Option<&Items<T>>,
) -> Result<Option<Items<T>>, NoMemory>
    ensures { IfOk result (λ copy. copy ≡ option_copied list.entry) }
{
    match list {
        Some(list) => Ok(Some(Items::from_slice(alloc, list.as_slice())?)),
        None => Ok(None),
    }
}

fn or_copied<T: Copy>(
    alloc: Global,
    own: Option<Items<T>>,
    shared: &Option<Items<T>>,
) -> Result<Option<Items<T>>, NoMemory>
    ensures { IfOk result (λ list. list ≡ option_or own shared.now) }
{
    match own {
        Some(list) => Ok(Some(list)),
        None => copied(alloc, shared.as_ref()),
    }
}
