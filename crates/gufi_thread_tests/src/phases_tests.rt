//! Two phases worked by hand: the numbers that a reply may bear, the order of what is written, and how a session ends early. And
//! one ask that comes twice.
ghost use Rattle.std.specs.Prelude.{◌≡◌, ◌<◌, ◌≤◌, ◌%◌, ◌^◌, ◌∷◌, ◌++◌, [], Ok, length, refl, ok_or, option_map, IfOk};
ghost use Rattle.std.specs.Option.{option_map_or};
ghost use Rattle.gufi_access.specs.Access.{principal};
ghost use Rattle.gufi_cache.specs.Keys.{key_of};
ghost use Rattle.gufi_phases.specs.declared.act.Act.TheVariants.{Publish, Ask};
ghost use Rattle.gufi_phases.specs.Loads.{total_size};

use gufi_access::{GroupList, Principal};
use gufi_base::{Memory, Path, Text};
use gufi_cache::{CacheKey, SharedPrincipal, cache_key};
use gufi_io::{MemShelf, MemSink, NoGate, ReadError, Shelf, names_differ, read_all};
use gufi_phases::{Act, Command, End, Ended, Load, LoadFault, Made, Stop, Wanted, run_session};
use std::alloc::Global;
use std::process::Abort;
use std::sync::atomic::{AtomicU64, Ordering};
use std::sync::{Arc, Wait};
use std::test::Fail;
use std::thread::Threads;

/// Publishes a number.
#[derive(Drop)]
struct Put {
    value: u64,
}

impl Command<u64> for Put {
    ghost outcome = { λ put _. Ok put.value };

    ghost line = { λ _ _ _. 112 ∷ [] };

    fn carry_out(&self, _alloc: Global, _last: &Option<Arc<u64>>) -> Result<Made<u64>, Memory> {
        Ok(Made::Added { item: self.value })
    }

    fn added_line(&self, alloc: Global, _command: u32, _number: u64) -> Result<Vec<u8>, Memory> {
        Ok(vec![in alloc; b'p']?)
    }

    fn refused_line(&self, alloc: Global, _command: u32, _text: &[u8]) -> Result<Vec<u8>, Memory> {
        Ok(vec![in alloc; b'p']?)
    }
}

/// Is answered by the number and its mark.
#[derive(Drop)]
struct Which {
    mark: u8,
}

impl Wanted<u64> for Which {
    ghost reply = { λ q _ n _. n % 256 ∷ q.mark ∷ [] };

    ghost head = { λ _ n. n % 256 ∷ [] };

    ghost body = { λ q _. q.mark ∷ [] };

    ghost key = { λ q n. key_of n (principal 0 []) [] (q.mark ∷ []) };

    ghost parts = { λ _ _ _ _. refl };

    ghost numbers = { λ _ _. refl };

    fn put_head(&self, alloc: Global, _ask: u32, number: u64) -> Result<Vec<u8>, Memory> {
        Ok(vec![in alloc; (number % 256) as u8]?)
    }

    fn kept_under(&self, alloc: Global, number: u64) -> Result<CacheKey, Memory> {
        let nobody = Principal {
            uid: 0,
            groups: GroupList::of(Vec::new(alloc)),
        };
        let nobody = SharedPrincipal::of(alloc, nobody)?;
        let root = Path::root(alloc)?;
        Ok(cache_key(alloc, number, &nobody, &root, &[self.mark])?)
    }

    fn reply_to_none(&self, alloc: Global, _ask: u32) -> Result<Vec<u8>, Memory> {
        Ok(vec![in alloc; 0, self.mark]?)
    }
}

/// The mark behind the head. Counts the bodies that are made.
fn marked(bodies: &AtomicU64, question: &Which, head: Vec<u8>) -> Result<Vec<u8>, Memory>
    ensures { IfOk result (λ text. text.items ≡ head.items ++ question.now.mark ∷ []) }
{
    bodies.fetch_add(1, Ordering::SeqCst);
    let mut text = head;
    text.push(question.mark)?;
    Ok(text)
}

/// Asks lane 1 and another one, publishes the length of a file, and asks lane 1 again.
#[derive(Drop)]
struct Planned {
    file: String,
    lane: u32,
}

impl<F: Shelf> Load<Put, Which, F> for Planned {
    ghost use Rattle.std.specs.String.{string_bytes};
    ghost use Rattle.gufi_phases.specs.declared.act.Act.TheVariants.{Publish, Ask};
    ghost use Rattle.gufi_phases.specs.declared.load.Stop.TheVariants.{NoFile};

    ghost loaded = { λ p files. ok_or (option_map (λ bytes. Ask 1 (record { mark = 97 }) ∷ Ask p.lane (record { mark = 98 }) ∷ Publish (record { value = length bytes }) ∷ Ask 1 (record { mark = 99 }) ∷ []) (files (string_bytes p.file))) (NoFile (string_bytes p.file)) };

    ghost size = { λ _. 4 };

    ghost commands = { λ _. 1 };

    #[tactic(auto, unfolding(gufi_phases::specs::Phases::command_count))]
    fn load(&self, alloc: Global, shelf: &mut F) -> Result<Vec<Act<Put, Which>>, LoadFault> {
        match read_all(alloc, shelf, self.file.as_str(), 8) {
            Ok(bytes) => match four_acts(alloc, self.lane, bytes.len() as u64) {
                Ok(acts) => Ok(acts),
                Err(Memory) => Err(LoadFault::Memory),
            },
            Err(ReadError::NoFile) => Err(LoadFault::Stopped {
                stop: Stop::NoFile {
                    file: Text::of(String::from_str(alloc, self.file.as_str())?),
                },
            }),
            Err(ReadError::ReadFault) => Err(LoadFault::ReadFault),
            Err(_) => Err(LoadFault::Memory),
        }
    }
}

fn four_acts(alloc: Global, lane: u32, value: u64) -> Result<Vec<Act<Put, Which>>, Memory>
    ensures { IfOk result (λ acts. acts.items ≡ Ask 1 (record { mark = 97 }) ∷ Ask lane (record { mark = 98 }) ∷ Publish (record { value = value }) ∷ Ask 1 (record { mark = 99 }) ∷ []) }
{
    Ok(vec![in alloc;
        Act::Ask {
            lane: 1,
            question: Which { mark: b'a' }
        },
        Act::Ask {
            lane,
            question: Which { mark: b'b' }
        },
        Act::Publish {
            command: Put { value }
        },
        Act::Ask {
            lane: 1,
            question: Which { mark: b'c' }
        },
    ]?)
}

/// Publishes a number, or asks lane 1 twice for one mark.
#[derive(Drop)]
struct Step {
    publishes: Option<u64>,
}

impl<F: Shelf> Load<Put, Which, F> for Step {
    ghost use Rattle.std.specs.Option.{option_map_or};
    ghost use Rattle.gufi_phases.specs.declared.act.Act.TheVariants.{Publish, Ask};

    ghost loaded = { λ p files. Ok (option_map_or (λ value. Publish (record { value = value }) ∷ []) p.publishes (Ask 1 (record { mark = 97 }) ∷ Ask 1 (record { mark = 97 }) ∷ [])) };

    ghost size = { λ p. option_map_or (λ value. 1) p.publishes 2 };

    ghost commands = { λ p. option_map_or (λ value. 1) p.publishes 0 };

    #[tactic(auto, unfolding(gufi_phases::specs::Phases::command_count))]
    fn load(&self, alloc: Global, _shelf: &mut F) -> Result<Vec<Act<Put, Which>>, LoadFault> {
        match acts_of(alloc, self.publishes) {
            Ok(acts) => Ok(acts),
            Err(Memory) => Err(LoadFault::Memory),
        }
    }
}

fn acts_of(alloc: Global, publishes: Option<u64>) -> Result<Vec<Act<Put, Which>>, Memory>
    ensures { IfOk result (λ acts. acts.items ≡ option_map_or (λ value. Publish (record { value = value }) ∷ []) publishes (Ask 1 (record { mark = 97 }) ∷ Ask 1 (record { mark = 97 }) ∷ [])) }
{
    match publishes {
        Some(value) => Ok(vec![in alloc;
            Act::Publish {
                command: Put { value }
            },
        ]?),
        None => Ok(vec![in alloc;
            Act::Ask {
                lane: 1,
                question: Which { mark: b'a' }
            },
            Act::Ask {
                lane: 1,
                question: Which { mark: b'a' }
            },
        ]?),
    }
}

/// How a session ended, what it wrote, and how many bodies it made.
#[derive(Drop)]
struct Ran {
    ended: Ended,
    out: MemSink,
    bodies: u64,
}

fn run<P: Load<Put, Which, MemShelf>, R: Threads + Wait + Sync + Abort>(
    rt: &R,
    alloc: Global,
    capacity: u32,
    plan: &[P],
    held: Vec<(String, Vec<u8>)>,
    bad_writes: Vec<u64>,
) -> Result<Ran, Fail>
    requires few { total_size P.size plan.now < 2 ^ 30 }
    requires capacity { capacity ≤ 256 }
{
    assert!(rt; names_differ(&held));
    let mut shelf = MemShelf::new(held, 2, Vec::new(alloc), Vec::new(alloc));
    let mut out = MemSink::new(vec![in alloc; 0; 32]?, 32, bad_writes);
    let bodies = AtomicU64::new(0);
    let ended = run_session::<u64, Put, Which, _, MemShelf, P, MemSink, NoGate, R>(
        rt,
        alloc,
        &NoGate,
        &|question: &Which, head: Vec<u8>, _item: &u64| -> Result<Vec<u8>, Memory> {
            marked(&bodies, question, head)
        },
        capacity,
        plan,
        &mut shelf,
        &mut out,
    );
    let bodies = bodies.load(Ordering::SeqCst);
    Ok(Ran { ended, out, bodies })
}

/// Runs a phase over the file `a`, and one over `b`.
fn run_two<R: Threads + Wait + Sync + Abort>(
    rt: &R,
    alloc: Global,
    held: Vec<(String, Vec<u8>)>,
    bad_writes: Vec<u64>,
) -> Result<Ran, Fail> {
    let first = Planned {
        file: String::from_str(alloc, "a")?,
        lane: 2,
    };
    let second = Planned {
        file: String::from_str(alloc, "b")?,
        lane: 3,
    };
    run(rt, alloc, 0, &[first, second], held, bad_writes)
}

/// The files of those names, of two bytes each.
fn files(alloc: Global, names: &[&str]) -> Result<Vec<(String, Vec<u8>)>, Fail> {
    let mut files = Vec::new(alloc);
    for name in names {
        files.push((String::from_str(alloc, *name)?, vec![in alloc; 1, 2]?))?;
    }
    Ok(files)
}

fn assert_fit<R: Abort>(rt: &R, ran: &Ran) {
    assert!(rt; matches!(&ran.ended.end, End::Done));
    let numbers = &ran.ended.numbers;
    assert_eq!(rt; numbers.len(), 6);
    assert!(rt; numbers[0] <= numbers[2] && numbers[1] <= 1 && numbers[2] <= 1);
    assert!(rt; numbers[3] >= 1 && numbers[4] >= 1 && numbers[5] >= numbers[3] && numbers[5] <= 2);
    let text = ran.out.taken();
    assert_eq!(rt; text.len(), 14);
    assert!(rt; text[0] as u64 == numbers[0] && text[1] == b'a' && text[3] == b'b');
    assert!(rt; text[4] == b'p' && text[12] as u64 == numbers[5] && text[13] == b'c');
}

#[test]
fn numbers_fit_their_phases(rt: HostRuntime) -> Result<(), Fail> {
    let held = files(rt.alloc(), &["a", "b"])?;
    let ran = run_two(&rt, rt.alloc(), held, Vec::new(rt.alloc()))?;
    assert_fit(&rt, &ran);
    Ok(())
}

fn assert_no_file<R: Abort>(rt: &R, ran: &Ran) {
    let End::Stopped {
        stop: Stop::NoFile { file },
    } = &ran.ended.end
    else {
        panic!(rt; "not ended by a file");
    };
    assert_eq!(rt; file.as_str(), "b");
    assert_eq!(rt; ran.ended.numbers.len(), 3);
    assert_eq!(rt; ran.out.taken().len(), 7);
}

#[test]
fn ends_at_a_file_that_is_not_held(rt: HostRuntime) -> Result<(), Fail> {
    let held = files(rt.alloc(), &["a"])?;
    let ran = run_two(&rt, rt.alloc(), held, Vec::new(rt.alloc()))?;
    assert_no_file(&rt, &ran);
    Ok(())
}

fn assert_write_fault<R: Abort>(rt: &R, ran: &Ran) {
    assert!(rt; matches!(&ran.ended.end, End::WriteFault));
    assert_eq!(rt; ran.ended.numbers.len(), 6);
    assert_eq!(rt; ran.out.taken().len(), 7);
}

#[test]
fn a_write_fails(rt: HostRuntime) -> Result<(), Fail> {
    let held = files(rt.alloc(), &["a", "b"])?;
    let ran = run_two(&rt, rt.alloc(), held, vec![in rt.alloc(); 2]?)?;
    assert_write_fault(&rt, &ran);
    Ok(())
}

/// Publishes a number, and then asks lane 1 twice for one mark.
fn ask_twice<R: Threads + Wait + Sync + Abort>(
    rt: &R,
    alloc: Global,
    capacity: u32,
) -> Result<Ran, Fail>
    requires { capacity ≤ 256 }
{
    let plan = [Step { publishes: Some(5) }, Step { publishes: None }];
    let held = Vec::new(alloc);
    run(rt, alloc, capacity, &plan, held, Vec::new(alloc))
}

/// Asserts how many hits there were, how many bodies were made, and the rest, which is the same either way.
fn assert_twice<R: Abort>(rt: &R, ran: &Ran, hits: u64, bodies: u64) {
    assert!(rt; ran.ended.hits == hits && ran.bodies == bodies);
    assert!(rt; matches!(&ran.ended.end, End::Done));
    assert_eq!(rt; ran.ended.numbers.as_slice(), [1, 1].as_slice());
    assert_eq!(rt; ran.out.taken(), b"p\x01a\x01a".as_slice());
}

#[test]
fn an_ask_that_comes_again_is_a_hit(rt: HostRuntime) -> Result<(), Fail> {
    assert_twice(&rt, &ask_twice(&rt, rt.alloc(), 0)?, 0, 2);
    assert_twice(&rt, &ask_twice(&rt, rt.alloc(), 2)?, 1, 1);
    Ok(())
}
