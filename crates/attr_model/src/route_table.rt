use crate::Attrs;
use net_base::{NoMemory, Prefix, PrefixSet};
use std::alloc::Global;
use std::collections::BTreeMap;
use std::marker::Model;

/// Routes by prefix, which contracts see as the list of prefixes with their attributes, in order.
#[derive(Drop)]
pub struct RouteTable {
    routes: BTreeMap<Prefix, Attrs>,
}

impl Model for RouteTable {
    ghost use Rattle.std.specs.Prelude.{List};
    ghost use Rattle.net_base.specs.declared.prefix.Prefix.{Prefix};
    ghost use Rattle.attr_model.specs.declared.attrs.Attrs.{Attrs};

    ghost Value = { List (Prefix × Attrs) };

    ghost view = { λ table. table.routes.entries };
}

impl RouteTable {
    ghost use Rattle.std.specs.Prelude.{◌≡◌, [], map, fold, length, IsTrue, ◌↔◌, OnOk, OnErr, option_copied};
    ghost use Rattle.std.specs.BTreeSet.{insert_key};
    ghost use Rattle.net_base.specs.Order.{prefix_cmp};
    ghost use Rattle.attr_model.specs.Routes.{route_at, with_route, without_route};

    /// No routes, which take no memory.
    pub fn new(alloc: Global) -> Self
        ensures { result ≡ [] }
    {
        RouteTable {
            routes: BTreeMap::new(alloc),
        }
    }

    /// How many routes there are.
    pub fn len(&self) -> usize
        ensures { result ≡ length self.now }
    {
        self.routes.len()
    }

    /// Whether there is no route.
    pub fn is_empty(&self) -> bool
        ensures { IsTrue result ↔ (self.now ≡ []) }
    {
        self.routes.is_empty()
    }

    /// The attributes of the route of a prefix.
    pub fn get(&self, prefix: Prefix) -> Option<&Attrs>
        ensures { option_copied result ≡ route_at self.now prefix }
    {
        self.routes.get(&prefix)
    }

    /// Takes the route of a prefix away, if there is one.
    pub fn remove(&mut self, prefix: Prefix)
        ensures { self.new ≡ without_route self.old prefix }
    {
        self.routes.remove(&prefix);
    }

    /// Puts a route in the place of the one of its prefix.
    pub fn put(&mut self, prefix: Prefix, attrs: Attrs) -> Result<(), NoMemory>
        ensures { OnOk result (self.new ≡ with_route attrs self.old prefix) }
    {
        self.routes.insert(prefix, attrs)?;
        Ok(())
    }

    /// Adds the prefixes of the routes to a set. Where memory is refused, some of them may have been added.
    pub fn add_prefixes(&self, known: &mut PrefixSet) -> Result<(), NoMemory>
        ensures { OnOk result (known.new ≡ fold (insert_key prefix_cmp) known.old (map (λ route. route.0) self.now)) }
    {
        for (prefix, _) in self.routes.iter() {
            known.add(*prefix)?;
        }
        Ok(())
    }
}
