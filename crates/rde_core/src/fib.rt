use net_base::{Addr, NoMemory, Prefix};
use std::alloc::Global;
use std::collections::BTreeMap;

/// What the last FibSet and FibDel frames left of each kernel table that is configured.
#[derive(Drop)]
pub(crate) struct FibTold {
    alloc: Global,
    tables: BTreeMap<u32, BTreeMap<Prefix, Addr>>,
}

impl FibTold {
    /// No table is configured. It takes no memory.
    pub(crate) fn new(alloc: Global) -> Self {
        FibTold {
            alloc,
            tables: BTreeMap::new(alloc),
        }
    }

    /// The row of a prefix in a table.
    pub(crate) fn row(&self, table: u32, prefix: Prefix) -> Option<Addr> {
        self.tables.get(&table)?.get(&prefix).copied()
    }

    /// Whether some table has a row of the prefix.
    pub(crate) fn has(&self, prefix: Prefix) -> bool {
        for (_, rows) in self.tables.iter() {
            if rows.contains_key(&prefix) {
                return true;
            }
        }
        false
    }

    /// A table has this row of the prefix from now on, or none.
    pub(crate) fn tell(
        &mut self,
        table: u32,
        prefix: Prefix,
        hop: Option<Addr>,
    ) -> Result<(), NoMemory> {
        let Some(rows) = self.tables.get_mut(&table) else {
            return Ok(());
        };
        match hop {
            Some(hop) => {
                rows.insert(prefix, hop)?;
            }
            None => {
                rows.remove(&prefix);
            }
        }
        Ok(())
    }

    /// These tables are configured from now on. The rows of one that was configured before stay.
    pub(crate) fn configure(&mut self, tables: &[u32]) -> Result<(), NoMemory> {
        let mut kept = BTreeMap::new(self.alloc);
        for table in tables {
            let rows = match self.tables.remove(table) {
                Some(rows) => rows,
                None => BTreeMap::new(self.alloc),
            };
            kept.insert(*table, rows)?;
        }
        self.tables = kept;
        Ok(())
    }
}
