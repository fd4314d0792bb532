//! What an ask searches for.
ghost use Rattle.std.specs.Prelude.{◌≡◌, IfOk};

use gufi_base::{Bytes, Memory, Path};
use gufi_cache::SharedPrincipal;
use gufi_find::FindExpr;
use gufi_select::Select;
use std::marker::Model;
use std::sync::Arc;

/// Which rows are wanted, and what is written of them.
#[derive(Drop)]
pub enum Query {
    /// The paths of those for which an expression is true.
    Finds { find: FindExpr },
    /// The sum of those.
    Totals { find: FindExpr },
    /// Columns of those that a SELECT chooses.
    Selects { select: Select },
}

/// Who searches, from where on, and for what.
#[derive(Drop)]
pub struct Search {
    pub who: SharedPrincipal,
    pub start: Path,
    pub query: Query,
    /// The bytes of the ask's form and words, by which a lane keeps the reply.
    pub ask: Bytes,
}

/// A search that a plan and a running phase have in common.
#[derive(Drop)]
pub struct SharedSearch {
    search: Arc<Search>,
}

impl Model for SharedSearch {
    ghost use Rattle.std.specs.Arc.{arc_value};
    ghost use Rattle.std.specs.Coded.{codes};
    ghost use Rattle.gufi_formula.specs.FormulaCodes.{formula_coded};
    ghost use Rattle.gufi_plan.specs.declared.search.Search.{Search};

    ghost Value = { Search };

    ghost coded = { Prim.hlevel (codes, formula_coded) };

    ghost view = { λ s. arc_value s.search };
}

impl SharedSearch {
    ghost use Rattle.std.specs.Arc.{arc_value};

    pub(crate) fn of(search: Arc<Search>) -> SharedSearch
        ensures { result ≡ arc_value search }
    {
        SharedSearch { search }
    }

    /// The search.
    pub fn get(&self) -> &Search
        ensures { result.now ≡ self.now }
    {
        &self.search
    }

    /// The same search, once more.
    pub fn share(&self) -> Result<SharedSearch, Memory>
        ensures { IfOk result (λ shared. shared ≡ self.now) }
    {
        Ok(SharedSearch {
            search: Arc::try_clone(&self.search)?,
        })
    }
}
