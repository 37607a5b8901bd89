// Cells under their keys, in the order of their rows and in that of their columns.
ghost use Rattle.std.specs.Prelude.{◌≡◌, IfOk, OnOk, OnErr, Some, None};
ghost use Rattle.std.specs.BTreeMap as tree;
ghost use Rattle.grid_store.specs.Keys.{key_cmp};
ghost use Rattle.grid_store.specs.internal.Turned.{AreTurned};

use crate::copy::copied_cells;
use crate::duplicate::Duplicate;
use crate::key::CellKey;
use std::alloc::{AllocError, Global};
use std::collections::{BTreeMap, BTreeSet};
use std::marker::Model;

// Cells under their keys, by rows. Each key stands besides, turned, in a second order: by columns. Seen as the first order.
pub(crate) struct Cells<V> {
    by_rows: BTreeMap<CellKey, V>,
    by_cols: BTreeSet<CellKey>,
}

// Written out, so that whoever drops one calls one function.
impl<V: Drop> Drop for Cells<V> {
    fn drop(self) {
        let Cells {
            by_rows: _by_rows,
            by_cols: _by_cols,
        } = self;
    }
}

impl<V> Model for Cells<V> {
    ghost use Rattle.std.specs.BTreeMap.{BTreeMap as Entries};
    ghost use Rattle.std_collections.specs.Layout.BTreeMap.{btree_map_code};
    ghost use Rattle.grid_store.specs.declared.key.CellKey.{CellKey};
    ghost use Rattle.grid_store.specs.internal.Turned.{AreTurned, coded_key};

    ghost Value = { Entries CellKey V };

    ghost coded = { btree_map_code coded_key V.code };

    ghost view = { λ c. c.by_rows };

    ghost invariant = { λ c. AreTurned c.by_rows c.by_cols };
}

impl<V: Drop> Cells<V> {
    // No cells.
    pub(crate) fn new(alloc: Global) -> Cells<V>
        ensures { tree.IsEmpty result }
    {
        Cells {
            by_rows: BTreeMap::new(alloc),
            by_cols: BTreeSet::new(alloc),
        }
    }

    // The cells in the order of their keys: by sheet, by the line of the row, by that of the column.
    pub(crate) fn by_rows(&self) -> &BTreeMap<CellKey, V>
        ensures { result.now ≡ self.now }
    {
        &self.by_rows
    }

    // The cells, in the order of their keys.
    pub(crate) fn into_rows(self) -> BTreeMap<CellKey, V>
        ensures { result ≡ self }
    {
        let Cells {
            by_rows,
            by_cols: _by_cols,
        } = self;
        by_rows
    }

    // The turned keys in their order: by sheet, by the line of the column, by that of the row.
    pub(crate) fn by_cols(&self) -> &BTreeSet<CellKey>
        ensures { AreTurned self.now result.now }
    {
        &self.by_cols
    }

    // Keeps a cell under a key, and answers what was kept there. Under a key that has a cell this takes no memory.
    pub(crate) fn insert(&mut self, key: CellKey, cell: V) -> Result<Option<V>, AllocError>
        ensures old { IfOk result (λ old. old ≡ tree.get key_cmp self.old key) }
        ensures updates { OnOk result (tree.Updates key_cmp self.old self.new key (Some cell)) }
        ensures absent { OnErr result (tree.get key_cmp self.old key ≡ None) }
        ensures err { OnErr result (tree.IsUnchanged self.old self.new) }
    {
        let turned = key.turned();
        let fresh = self.by_cols.insert(turned)?;
        match self.by_rows.insert(key, cell) {
            Ok(before) => Ok(before),
            Err(_) => {
                if fresh {
                    self.by_cols.remove(&turned);
                }
                Err(AllocError)
            }
        }
    }

    // Takes the cell under a key out.
    pub(crate) fn remove(&mut self, key: &CellKey) -> Option<V>
        ensures value { result ≡ tree.get key_cmp self.old key.now }
        ensures updates { tree.Updates key_cmp self.old self.new key.now None }
    {
        self.by_cols.remove(&key.turned());
        self.by_rows.remove(key)
    }
}

impl<V: Duplicate> Cells<V> {
    // Copies of the cells under the same keys.
    pub(crate) fn copied(&self, alloc: Global) -> Result<Cells<V>, AllocError>
        ensures { IfOk result (λ copy. copy.entries ≡ self.now.entries) }
    {
        Ok(Cells {
            by_rows: copied_cells(alloc, &self.by_rows)?,
            by_cols: self.by_cols.clone()?,
        })
    }
}
