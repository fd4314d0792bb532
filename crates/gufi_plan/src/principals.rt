//! The principals of USER words, one for each word.
ghost use Rattle.std.specs.Prelude.{◌≡◌, Some, IfOk};
ghost use Rattle.gufi_users.specs.Entries.{UserTables};
ghost use Rattle.gufi_users.specs.Users.{principal_of};
ghost use Rattle.gufi_plan.specs.Known.{AreKnown};

use gufi_base::Memory;
use gufi_cache::SharedPrincipal;
use gufi_script::Act;
use gufi_users::{Askers, Users};
use std::alloc::{AllocError, Global};
use std::collections::HashMap;
use std::marker::Model;

/// The users of a session, with a principal for each word that was read: equal words share one.
#[derive(Drop)]
pub(crate) struct Principals<'a> {
    askers: Askers<'a>,
    known: HashMap<Vec<u8>, SharedPrincipal>,
}

impl<'a> Model for Principals<'a> {
    ghost use Rattle.gufi_users.specs.Entries.{UserTables};

    ghost Value = { UserTables };

    ghost use Rattle.gufi_plan.specs.Known.{AreKnown};

    ghost view = { λ p. p.askers };

    ghost invariant = { λ p. AreKnown p.askers p.known };
}

/// The USER words of the acts, as often as they stand there.
fn user_words<'s>(alloc: Global, acts: &'s [(u32, Act)]) -> Result<Vec<&'s [u8]>, AllocError> {
    let mut words = Vec::new(alloc);
    'acts: for (_, act) in acts {
        if let Act::Ask { user, .. } = act {
            words.push(user.as_slice())?;
        }
    }
    Ok(words)
}

/// Keeps a principal under its word, which it copies.
fn keep(
    alloc: Global,
    known: &mut HashMap<Vec<u8>, SharedPrincipal>,
    word: &[u8],
    who: &SharedPrincipal,
) -> Result<(), Memory>
    ensures { (tables : UserTables) → principal_of tables word.now ≡ Some who.now → AreKnown tables known.old → AreKnown tables known.new }
{
    let word = Vec::from_slice(alloc, word)?;
    let who = who.share()?;
    known.insert(word, who)?;
    Ok(())
}

impl<'a> Principals<'a> {
    /// Looks through the group file once for all acts.
    pub(crate) fn of(
        alloc: Global,
        users: &'a Users,
        acts: &[(u32, Act)],
    ) -> Result<Principals<'a>, Memory>
        ensures { IfOk result (λ principals. principals ≡ users.now) }
    {
        let words = user_words(alloc, acts)?;
        let askers = Askers::of(alloc, users, &words)?;
        let known = HashMap::new(alloc);
        Ok(Principals { askers, known })
    }

    /// Who a word names; the same principal each time.
    pub(crate) fn principal(
        &mut self,
        alloc: Global,
        word: &[u8],
    ) -> Result<Option<SharedPrincipal>, Memory>
        ensures who { IfOk result (λ who. who ≡ principal_of self.old word.now) }
        ensures users { self.new ≡ self.old }
    {
        if let Some(who) = self.known.get(word) {
            return Ok(Some(who.share()?));
        }
        let Some(found) = self.askers.principal(alloc, word)? else {
            return Ok(None);
        };
        let who = SharedPrincipal::of(alloc, found)?;
        keep(alloc, &mut self.known, word, &who)?;
        Ok(Some(who))
    }
}
