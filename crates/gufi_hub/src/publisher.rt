//! The one who publishes.
ghost use Rattle.std.specs.Prelude.{◌≡◌, ◌<◌, ◌≤◌, ◌+◌, IfOk, IfErr, MatchResult};
ghost use Rattle.std.specs.Arc.{arc_value};
ghost use Rattle.left_right.specs.Sides.{view};
ghost use Rattle.gufi_hub.specs.Hub.{IsGivenBack, IsReady, published};

use crate::latest::{Latest, Meaning, Publication};
use crate::rule::{Notes, Publications, Sight};
use crate::visitor::Visitor;
use core::mem::replace_with;
use crossbeam_utils::rule::Protocol;
use gufi_base::Memory;
use left_right::Absorb;
use left_right::writer::Writer;
use std::alloc::Global;
use std::sync::{Arc, Wait};

/// A writer under a rule, and the runtime value with which its drop waits for readers.
pub struct RuledPublisher<S: Absorb<O> + Drop, O: Drop, V, P: Protocol<S, V>, R: Wait + Drop> {
    pub(crate) writer: Writer<S, O, V, P>,
    pub(crate) rt: R,
}

impl<S: Absorb<O> + Drop, O: Drop, V, P: Protocol<S, V>, R: Wait + Drop> Drop
    for RuledPublisher<S, O, V, P, R> {
    fn drop(self) {
        let Self { writer, rt } = self;
        drop(writer.take(&rt));
    }
}

/// Publishes items under numbers from 1 on, each of which is what `M` means by its number. At most 1,000 in all.
pub type Publisher<T, M, R> = RuledPublisher<Latest<T, M>, Publication<T, M>, u64, Publications, R>;

/// How many items a publisher publishes at most.
const MOST: u64 = 1000;

type LatestWriter<T, M> = Writer<Latest<T, M>, Publication<T, M>, u64, Publications>;

/// Why an item wasn't published. It is back, and no visitor sees it.
#[derive(Drop)]
pub enum PublishFault<T: Drop> {
    /// 1,000 were published.
    Full { item: Arc<T> },
    /// There was no memory for one more handle, or for the table of publications.
    Memory { item: Arc<T> },
}

/// Makes a hub with at most `seats` visitors at a time. Nothing is published yet.
pub fn hub<T: Send + Sync + Drop, M: Meaning<T>, R: Wait + Drop>(
    rt: R,
    alloc: Global,
    seats: u32,
) -> Result<Publisher<T, M, R>, Memory>
    requires { (1 ≤ seats) × (seats ≤ 16) }
    ensures { IfOk result (λ p. (published p ≡ 0) × IsReady p) }
{
    let (first, second) = (Latest::none(), Latest::none());
    match LatestWriter::<T, M>::new(alloc, first, second, seats as usize) {
        Ok(writer) => Ok(RuledPublisher { writer, rt }),
        Err(_) => Err(Memory),
    }
}

impl<T: Drop, M: Meaning<T>, R: Wait + Drop> RuledPublisher<
    Latest<T, M>,
    Publication<T, M>,
    u64,
    Publications,
    R,
> {
    /// Publishes the item under the next number, which it returns. It waits for visitors that are in the midst of a pin.
    ///
    /// A publication that was refused may be pending; the next one takes its number and its place.
    pub fn publish<W: Wait>(&mut self, rt: &W, item: Arc<T>) -> Result<u64, PublishFault<T>>
        requires ready { IsReady self.old }
        requires meant { ∥ M.means (published self.old + 1) (arc_value item) ∥₁ }
        ensures ready { IsReady self.new }
        ensures number { MatchResult result (λ n. (n ≡ published self.new) × (n ≡ published self.old + 1) × (published self.old < 1000)) (λ _. published self.new ≡ published self.old) }
        ensures fault { IfErr result (IsGivenBack (published self.old) item) }
    {
        let count = self.writer.published().number;
        if count == MOST {
            return Err(PublishFault::Full { item });
        }
        let Ok(copy) = Arc::try_clone(&item) else {
            return Err(PublishFault::Memory { item });
        };
        match replace_with(&mut self.writer, (rt, copy), publish_next) {
            Ok(()) => Ok(count + 1),
            Err(_) => Err(PublishFault::Memory { item }),
        }
    }

    /// A new visitor, which was told what is published. Its seat is free again once it is dropped.
    ///
    /// Where all seats are taken it is answered as want of memory.
    pub fn visit(&mut self) -> Result<Visitor<T, M>, Memory>
        requires { IsReady self.old }
        ensures ready { IsReady self.new }
        ensures kept { published self.new ≡ published self.old }
        ensures told { IfOk result (λ v. v.number ≡ published self.old) }
    {
        let number = self.writer.published().number;
        let Ok(mut reader) = self.writer.factory().reader() else {
            return Err(Memory);
        };
        reader.learn::<Notes>(self.writer.tell::<Notes>());
        Ok(Visitor { reader, number })
    }

    /// How many items were published.
    pub fn number(&self) -> u64
        ensures { result ≡ published self.now }
    {
        self.writer.published().number
    }
}

/// Publishes the item at the next number. On `Err` it was not published, though it may be pending.
fn publish_next<T: Drop, M: Meaning<T>, R: Wait>(
    writer: LatestWriter<T, M>,
    task: (&R, Arc<T>),
) -> (LatestWriter<T, M>, Result<(), Memory>)
    requires own { view writer.desk.place ≡ writer.desk.shown.value.number }
    requires low { writer.desk.shown.value.number < 1000 }
    requires meant { ∥ M.means (writer.desk.shown.value.number + 1) (arc_value task.1) ∥₁ }
    ensures own { view result.0.desk.place ≡ result.0.desk.shown.value.number }
    ensures number { MatchResult result.1 (λ _. result.0.desk.shown.value.number ≡ writer.desk.shown.value.number + 1) (λ _. result.0.desk.shown.value.number ≡ writer.desk.shown.value.number) }
{
    let (rt, item) = task;
    let mut writer = writer;
    let number = writer.published().number + 1;
    if writer.append(Publication::new(number, item)).is_err() {
        return (writer, Err(Memory));
    }
    let (writer, done) = writer.publish_as::<Sight, R>(rt);
    if done.is_err() {
        return (writer, Err(Memory));
    }
    (writer, Ok(()))
}
