//! Threads that pin while another publishes.
ghost use Rattle.std.specs.Prelude.{IfOk};
ghost use Rattle.gufi_hub.specs.Hub.{IsReady};

use gufi_base::Memory;
use gufi_hub::{Meaning, Pinned, Publisher, Visitor, hub};
use std::alloc::Global;
use std::marker::Brand;
use std::sync::{Arc, Wait};
use std::test::Fail;
use std::thread::{Threads, join};

/// Publishes the numbers from 1 on, each as itself.
fn publish_numbers<R: Wait, Q: Wait + Drop>(
    rt: &R,
    alloc: Global,
    publisher: Publisher<u64, Brand, Q>,
    count: u64,
) -> Result<Publisher<u64, Brand, Q>, Memory>
    requires { IsReady publisher }
    ensures { IfOk result IsReady }
{
    let mut publisher = publisher;
    for n in 1..=count {
        let item = Arc::new(alloc, n)?;
        if publisher.publish(rt, item).is_err() {
            return Err(Memory);
        }
    }
    Ok(publisher)
}

/// Pins again and again. It counts the pins whose item isn't its number's, or whose number is below one that was seen.
fn pin_numbers<M: Meaning<u64>>(visitor: Visitor<u64, M>, count: u64) -> Result<u64, Memory> {
    let mut visitor = visitor;
    let (mut faults, mut last) = (0u64, 0u64);
    for _ in 0..count {
        if let Some(Pinned { number, item }) = visitor.pin()? {
            if *item != number || number < last {
                faults = faults.wrapping_add(1);
            }
            last = number;
        }
    }
    Ok(faults)
}

#[test]
fn two_threads_pin_while_a_third_publishes(rt: HostRuntime) -> Result<(), Fail> {
    let alloc = rt.alloc();
    let Ok(mut publisher) = hub::<u64, Brand, &HostRuntime>(&rt, alloc, 3) else {
        panic!(rt; "no memory");
    };
    let (Ok(first), Ok(second)) = (publisher.visit(), publisher.visit()) else {
        panic!(rt; "no memory");
    };
    let (published, (one, two)) = join(
        &rt,
        || publish_numbers(&rt, alloc, publisher, 900),
        || join(
            &rt,
            || pin_numbers(first, 5000),
            || pin_numbers(second, 5000),
        ),
    );
    assert!(rt; one == Ok(0) && two == Ok(0));
    let Ok(mut publisher) = published else {
        panic!(rt; "no memory");
    };
    let Ok(mut late) = publisher.visit() else {
        panic!(rt; "no memory");
    };
    assert_eq!(rt; (publisher.number(), late.seen()), (900, 900));
    let Ok(Some(last)) = late.pin() else {
        panic!(rt; "nothing pinned");
    };
    assert_eq!(rt; (last.number, *last.item), (900, 900));
    Ok(())
}
