//! Those who read what is published, and wait for nobody.
ghost use Rattle.std.specs.Prelude.{◌≡◌, ◌<◌, ◌≤◌, IfOk, MatchResult, MatchOption};
ghost use Rattle.std.specs.Arc.{arc_value};
ghost use Rattle.left_right.specs.Sides.{view};

use crate::latest::{Latest, Meaning};
use crate::rule::{Publications, Sight};
use core::mem::replace_with;
use gufi_base::Memory;
use left_right::reader::Reader;
use std::sync::Arc;

type LatestReader<T, M> = Reader<Latest<T, M>, u64, Publications>;

/// A publication and its number, from 1 on.
#[derive(Drop)]
pub struct Pinned<T: Drop> {
    pub number: u64,
    pub item: Arc<T>,
}

/// One who reads what is published. Contracts see it as the number that it has seen or was told, which never falls.
#[derive(Drop)]
pub struct Visitor<T: Drop, M: Meaning<T>> {
    pub(crate) reader: Reader<Latest<T, M>, u64, Publications>,
    pub number: u64,
    ghost counted: { number ≡ view reader.place },
}

/// What a reader found: the number, and a handle to the item.
#[derive(Drop)]
struct Found<T: Drop> {
    number: u64,
    item: Result<Option<Arc<T>>, Memory>,
}

impl<T: Drop, M: Meaning<T>> Visitor<T, M> {
    /// The last publication with its number, or `None` where there is none. It waits for nobody, and copies no item.
    ///
    /// After want of memory the visitor can be used again, and has seen no less than before.
    pub fn pin(&mut self) -> Result<Option<Pinned<T>>, Memory>
        ensures grows { self.old.number ≤ self.new.number }
        ensures pinned { IfOk result (λ pin. MatchOption pin (self.new.number ≡ 0) (λ p. (p.number ≡ self.new.number) × (0 < p.number) × ∥ M.means p.number (arc_value p.item) ∥₁)) }
    {
        let Found { number, item } = replace_with(&mut self.reader, (), |reader, ()| look(reader))?;
        self.number = number;
        match item? {
            None => Ok(None),
            Some(item) => Ok(Some(Pinned { number, item })),
        }
    }

    /// The number that it has seen, or was told.
    pub fn seen(&self) -> u64
        ensures { result ≡ self.now.number }
    {
        self.number
    }
}

/// Enters once. `Err` where the reader was not let in.
fn look<T: Drop, M: Meaning<T>>(
    reader: LatestReader<T, M>,
) -> (LatestReader<T, M>, Result<Found<T>, Memory>)
    ensures seen { MatchResult result.1 (λ l. (view result.0.place ≡ l.number) × (view reader.place ≤ l.number)) (λ _. view result.0.place ≡ view reader.place) }
    ensures item { IfOk result.1 (λ l. MatchResult l.item (λ item. MatchOption item (l.number ≡ 0) (λ x. (0 < l.number) × ∥ M.means l.number (arc_value x) ∥₁)) (λ _. Unit {0})) }
{
    match reader.enter_as::<Sight>() {
        Ok(reading) => {
            let found = copy_of(reading.get());
            (reading.leave(), Ok(found))
        }
        Err(reader) => (reader, Err(Memory)),
    }
}

fn copy_of<T: Drop, M: Meaning<T>>(latest: &Latest<T, M>) -> Found<T>
    ensures number { result.number ≡ latest.now.number }
    ensures item { MatchResult result.item (λ item. MatchOption item (latest.now.number ≡ 0) (λ x. (0 < latest.now.number) × ∥ M.means latest.now.number (arc_value x) ∥₁)) (λ _. Unit {0}) }
{
    let item = match &latest.item {
        None => Ok(None),
        Some(item) => match Arc::try_clone(item) {
            Ok(item) => Ok(Some(item)),
            Err(_) => Err(Memory),
        },
    };
    Found {
        number: latest.number,
        item,
    }
}
