//! What is asked of groups of rows.
ghost use Rattle.std.specs.Prelude.{◌≡◌};

use gufi_select::Select;
use std::marker::Model;

/// The number by which rows are grouped.
#[derive(Clone, Copy, Debug, PartialEq, Eq)]
pub enum AggKey {
    Uid,
    Gid,
    /// The letter of the type.
    Letter,
    /// The depth below the start.
    Level,
}

/// What is printed of a group. Sizes are in bytes, times in seconds since the epoch.
#[derive(Clone, Copy, Debug, PartialEq, Eq)]
pub enum Item {
    Count,
    SumSize,
    MinSize,
    MaxSize,
    MinMtime,
    MaxMtime,
}

/// By which number rows are grouped, what is printed of each group, and which rows are chosen.
#[derive(Drop)]
pub struct Agg {
    key: AggKey,
    items: Vec<Item>,
    select: Select,
}

impl Model for Agg {
    ghost use Rattle.std.specs.Coded.{codes};
    ghost use Rattle.gufi_formula.specs.FormulaCodes.{formula_coded};
    ghost use Rattle.gufi_agg.specs.Aggs.{Agg};

    ghost Value = { Agg };

    ghost coded = { Prim.hlevel (codes, formula_coded) };

    ghost view = { λ a. record { key = a.key; items = a.items.items; select = a.select } };
}

impl Agg {
    pub(crate) fn of(key: AggKey, items: Vec<Item>, select: Select) -> Agg
        ensures { result ≡ record { key = key; items = items.items; select = select } }
    {
        Agg { key, items, select }
    }

    /// The number by which rows are grouped.
    pub fn key(&self) -> AggKey
        ensures { result ≡ self.now.key }
    {
        self.key
    }

    /// What is printed of a group behind its number, in this order.
    pub fn items(&self) -> &[Item]
        ensures { result.now ≡ self.now.items }
    {
        self.items.as_slice()
    }

    /// Which rows are chosen: a SELECT whose one column is the key.
    pub fn select(&self) -> &Select
        ensures { result.now ≡ self.now.select }
    {
        &self.select
    }
}
