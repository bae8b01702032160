use crate::models::straight;
use std::alloc::Global;
use std::mem::forget;
use std::process::Abort;
use zb_model::{
    Batch, Command, CommandDistribution, Event, Key, List, Moment, Outcome, Packet, PartitionId,
    ProcessDefinition,
};
use zb_world::{Entry, sent_in};

// The process `p` as it was deployed first.
fn definition(rt: &impl Abort, alloc: Global, key: Key) -> ProcessDefinition {
    ProcessDefinition {
        key,
        version: 1,
        model: straight(rt, alloc),
    }
}

#[test]
fn a_definition_is_on_its_way(rt: HostRuntime) {
    let alloc = rt.alloc();
    let (first, second) = (PartitionId::new(1), PartitionId::new(2));
    let key = Key::make(first, 1);
    let mut events = List::empty(alloc);
    let made = Event::ProcessCreated(definition(&rt, alloc, key));
    events.push(made).expect(&rt, "memory");
    let way = Event::CommandDistributionDistributing(CommandDistribution { key, partition: 2 });
    events.push(way).expect(&rt, "memory");
    let batch = Batch {
        moment: Moment::new(0),
        begin: 0,
        command: Command::DeploymentCreate(straight(&rt, alloc)),
        outcome: Outcome::Accepted(events),
    };
    let entries = [Entry {
        partition: first,
        batch,
    }];
    // It goes to the second partition, which hasn't answered.
    let packet = Packet {
        from: first,
        to: second,
        command: Command::DeploymentDistribute(definition(&rt, alloc, key)),
    };
    let answer = Packet {
        from: second,
        to: first,
        command: Command::CommandDistributionAcknowledge(CommandDistribution { key, partition: 2 }),
    };
    assert!(rt; sent_in(alloc, &entries, 3, &packet) == Ok(true));
    assert!(rt; sent_in(alloc, &entries, 3, &answer) == Ok(false));
    forget(entries);
    forget(packet);
    forget(answer);
}
