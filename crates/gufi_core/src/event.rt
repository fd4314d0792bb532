//! What may happen, one step at a time.

use gufi_base::Memory;

/// One step. Callers, shapes and jobs are named by their places, counted from 0; so are the workers of a job.
#[derive(Clone, Copy)]
pub enum Event {
    /// A tree is published. Its number is how many there are then.
    Publish {
        tree: u32,
    },
    /// A caller sees the latest publication.
    Pin {
        caller: u32,
    },
    /// A job begins over the publication that the caller has seen, whose tree is the shape's, with 1 to 32 workers.
    Begin {
        caller: u32,
        shape: u32,
        workers: u32,
    },
    /// A worker takes the first task of its own deque.
    Take {
        job: u32,
        worker: u32,
    },
    /// A worker takes the first task of another worker's deque.
    Steal {
        job: u32,
        thief: u32,
        victim: u32,
    },
    /// A worker puts the first of the tasks that it has still to push at the back of its own deque.
    Push {
        job: u32,
        worker: u32,
    },
    /// A worker ends, with an empty deque and nothing to push.
    End {
        job: u32,
        worker: u32,
    },
}

/// What a worker of a job does.
#[derive(Clone, Copy)]
pub(crate) enum Action {
    Take { worker: u32 },
    Steal { thief: u32, victim: u32 },
    Push { worker: u32 },
    End { worker: u32 },
}

/// Why a step isn't taken.
#[derive(Clone, Copy)]
pub(crate) enum Refusal {
    NotLegal,
    Memory,
}

impl From<Memory> for Refusal {
    ghost use Rattle.std.specs.Prelude.{◌≡◌};
    ghost use Rattle.gufi_core.specs.declared.event.Refusal.TheVariants.{Memory};

    ghost from_gives = { λ _ e. e ≡ Memory };

    fn from(_: Memory) -> Refusal {
        Refusal::Memory
    }
}
