// Instances at three partitions wait for messages, over a wire that loses packets, repeats them and holds them back, by a
// generator that always draws the same. No theorem speaks of what such a wire comes to: each message is correlated at most
// once with each process, and once the wire is honest all comes to rest.
ghost use Rattle.std.specs.Prelude.{◌<◌};
ghost use Rattle.zb_rules.specs.Own.{IsSupported};

use crate::asked::{ended, over};
use crate::models::{Shape, shaped};
use crate::seen::{Counts, Seen, count};
use std::alloc::Global;
use std::process::Abort;
use zb_base::home_of;
use zb_disk::MemDisk;
use zb_model::{
    Batch, Command, Key, MessagePublish, Moment, NodeKind, Outcome, Packet, PartitionId,
    ProcessInstanceCreationCreate, Text, Value, Vars,
};
use zb_packets::answer_packet;
use zb_partition::{Partition, Stopped};

// p waits at a task and then at an event; q for one of two messages; t at a task with two events at its boundary, of which
// one lets it go on; and n is started by a message and waits for another one. All of them wait for messages go.
const SHAPES: [Shape; 4] = [
    (
        "p",
        &[
            ("s", NodeKind::StartEvent, "", ""),
            ("w", NodeKind::ReceiveTask, "", "go"),
            ("c", NodeKind::MessageCatchEvent, "", "stop"),
            ("e", NodeKind::EndEvent, "", ""),
        ],
        &[["f", "s", "w"], ["g", "w", "c"], ["h", "c", "e"]],
    ),
    (
        "q",
        &[
            ("s", NodeKind::StartEvent, "", ""),
            ("x", NodeKind::EventBasedGateway, "", ""),
            ("a", NodeKind::MessageCatchEvent, "", "go"),
            ("b", NodeKind::MessageCatchEvent, "", "stop"),
            ("c", NodeKind::EndEvent, "", ""),
            ("d", NodeKind::EndEvent, "", ""),
        ],
        &[
            ["f", "s", "x"],
            ["g", "x", "a"],
            ["h", "x", "b"],
            ["i", "a", "c"],
            ["j", "b", "d"],
        ],
    ),
    (
        "t",
        &[
            ("s", NodeKind::StartEvent, "", ""),
            ("a", NodeKind::ServiceTask, "", "pay"),
            ("b", NodeKind::MessageBoundaryEvent, "a", "stop"),
            ("b+", NodeKind::MessageBoundaryEvent, "a", "go"),
            ("c", NodeKind::EndEvent, "", ""),
            ("d", NodeKind::EndEvent, "", ""),
            ("e", NodeKind::EndEvent, "", ""),
        ],
        &[
            ["f", "s", "a"],
            ["g", "a", "c"],
            ["h", "b", "d"],
            ["i", "b+", "e"],
        ],
    ),
    (
        "n",
        &[
            ("s", NodeKind::MessageStartEvent, "", "go"),
            ("w", NodeKind::ReceiveTask, "", "go"),
            ("e", NodeKind::EndEvent, "", ""),
        ],
        &[["f", "s", "w"], ["g", "w", "e"]],
    ),
];

// Correlation keys, two of each home.
const KEYS: [&str; 6] = ["k-0", "k-1", "k-2", "k-3", "k-4", "k-5"];

// How many turns a play has.
const TURNS: u32 = 800;

// How many packets come out of the wire in a turn, and how many are held back before one of them is taken.
const PACKETS: u32 = 20;

const HELD: usize = 40;

// Three partitions, and the packets that are on their way.
struct World {
    partitions: Vec<Partition<MemDisk>>,
    wire: Vec<Packet>,
    held: Vec<Packet>,
    seen: Seen,
    // What the generator drew last.
    drawn: u64,
    now: u64,
    batches: u64,
    // Whether a partition crashes behind each tenth batch.
    crashes: bool,
}

fn text(rt: &impl Abort, alloc: Global, text: &str) -> Text {
    Text::of(alloc, text).expect(rt, "memory")
}

// This correlation key in k.
fn variables(rt: &impl Abort, alloc: Global, key: &str) -> Vars {
    let mut variables = Vars::empty(alloc);
    let value = Value::Text(text(rt, alloc, key));
    variables
        .put(text(rt, alloc, "k"), value)
        .expect(rt, "memory");
    variables
}

fn create(rt: &impl Abort, alloc: Global, process: &str, key: &str) -> Command
    ensures { IsSupported result }
{
    Command::ProcessInstanceCreationCreate(ProcessInstanceCreationCreate {
        process: text(rt, alloc, process),
        version: 0,
        variables: variables(rt, alloc, key),
    })
}

fn publish(rt: &impl Abort, alloc: Global, name: &str, key: &str, time_to_live: u64) -> Command
    ensures { IsSupported result }
{
    Command::MessagePublish(MessagePublish {
        name: text(rt, alloc, name),
        correlation_key: text(rt, alloc, key),
        time_to_live,
        id: Text::empty(alloc),
        variables: variables(rt, alloc, key),
    })
}

// The next number of the generator, below this one.
fn draw(drawn: &mut u64, below: usize) -> usize
    requires { 0 < below }
    ensures { result < below }
{
    *drawn = drawn
        .wrapping_mul(6_364_136_223_846_793_005)
        .wrapping_add(1_442_695_040_888_963_407);
    (*drawn >> 33) as usize % below
}

// Why a batch was rejected; nothing where it wasn't.
fn reason(batch: &Batch) -> &str {
    match &batch.outcome {
        Outcome::Rejected(rejection) => rejection.reason.as_str(),
        Outcome::Accepted(_) => "",
    }
}

impl World {
    fn new(rt: &impl Abort, alloc: Global, crashes: bool) -> World {
        let mut partitions = Vec::new(alloc);
        for number in 1..=3 {
            let partition = over(rt, alloc, PartitionId::new(number), Vec::new(alloc));
            partitions.push(partition).expect(rt, "memory");
        }
        World {
            partitions,
            wire: Vec::new(alloc),
            held: Vec::new(alloc),
            seen: Seen::new(alloc),
            drawn: 49,
            now: 0,
            batches: 0,
            crashes,
        }
    }

    fn draw(&mut self, below: usize) -> usize
        requires { 0 < below }
        ensures { result < below }
    {
        draw(&mut self.drawn, below)
    }

    // Submits a command, and takes down what comes of it.
    fn submit(
        &mut self,
        rt: &impl Abort,
        alloc: Global,
        place: PartitionId,
        command: Command,
    ) -> Batch
        requires { IsSupported command }
    {
        let Some(partition) = self.partitions.get_mut(place.number() as usize - 1) else {
            panic!(rt; "no partition");
        };
        assert!(rt; partition.live());
        match partition.submit(alloc, Moment::new(self.now), 0, command) {
            Ok(batch) => {
                self.seen.take_down(rt, place, &batch);
                self.batches = self.batches.wrapping_add(1);
                batch
            }
            Err(_) => panic!(rt; "the partition stops"),
        }
    }

    // The same, behind which the partition may crash and go on with what is left.
    fn ask(&mut self, rt: &impl Abort, alloc: Global, place: PartitionId, command: Command) -> Batch
        requires { IsSupported command }
    {
        let batch = self.submit(rt, alloc, place, command);
        if self.crashes && self.batches % 10 == 0 {
            self.crash(rt, alloc, place);
        }
        batch
    }

    fn crash(&mut self, rt: &impl Abort, alloc: Global, place: PartitionId) {
        let index = place.number() as usize - 1;
        assert!(rt; index < self.partitions.len());
        let Stopped { volume, in_writing } = self.partitions.remove(index).stopped();
        Batch::discard_any(in_writing);
        let log = &volume.log;
        let image = log.image(alloc, log.moment(), &[1]).expect(rt, "memory");
        drop(volume);
        let partition = over(rt, alloc, place, image);
        self.partitions
            .insert(index, partition)
            .expect(rt, "memory");
    }

    // A partition takes a packet, and answers it so many times.
    fn take(&mut self, rt: &impl Abort, alloc: Global, packet: Packet, times: usize) {
        let Packet { to, command, .. } = packet;
        self.seen.take(rt, &command);
        let batch = self.ask(rt, alloc, to, command);
        for _ in 0..times {
            if let Some(answer) = answer_packet(&batch, to, 3) {
                self.wire.push(answer).expect(rt, "memory");
            }
        }
        batch.discard();
    }

    fn lose(&mut self, packet: Packet) {
        packet.command.discard();
        count(&mut self.seen.counts.lost);
    }

    // The packets that a partition sends.
    fn sent(&self, rt: &impl Abort, alloc: Global, place: PartitionId) -> Vec<Packet> {
        let Some(partition) = self.partitions.get(place.number() as usize - 1) else {
            panic!(rt; "no partition");
        };
        partition.outbox(alloc).expect(rt, "memory")
    }

    // A partition sends its packets, of which every second one is lost.
    fn send(&mut self, rt: &impl Abort, alloc: Global, place: PartitionId) {
        let mut packets = self.sent(rt, alloc, place);
        for _ in 0..packets.len() {
            if let Some(packet) = packets.pop() {
                if self.draw(2) == 0 {
                    self.lose(packet);
                } else {
                    self.wire.push(packet).expect(rt, "memory");
                }
            }
        }
        assert!(rt; packets.is_empty());
        packets.destroy_empty();
    }

    // One packet of the wire is lost, or held back, or taken and answered once or twice.
    fn carry(&mut self, rt: &impl Abort, alloc: Global) {
        let packets = self.wire.len();
        if packets == 0 {
            return;
        }
        let place = draw(&mut self.drawn, packets);
        let packet = self.wire.swap_remove(place);
        match self.draw(8) {
            0 | 1 => self.lose(packet),
            2 => self.held.push(packet).expect(rt, "memory"),
            3 | 4 => self.take(rt, alloc, packet, 2),
            _ => self.take(rt, alloc, packet, 1),
        }
    }

    // Where many packets are held back, one of them is taken at last.
    fn release(&mut self, rt: &impl Abort, alloc: Global) {
        let packets = self.held.len();
        if packets > HELD {
            let place = draw(&mut self.drawn, packets);
            let packet = self.held.swap_remove(place);
            self.take(rt, alloc, packet, 1);
        }
    }

    // What is asked for next, and where: an instance, a message, or an end of one of either.
    fn next(&mut self, rt: &impl Abort, alloc: Global) -> (PartitionId, Command)
        ensures { IsSupported result.1 }
    {
        let key = KEYS[self.draw(6)];
        match self.draw(10) {
            0 | 1 | 2 => {
                let place = PartitionId::new(1 + self.draw(3) as u32);
                let process = ["p", "q", "t"][self.draw(3)];
                (place, create(rt, alloc, process, key))
            }
            3 | 4 | 5 | 6 => {
                let name = ["go", "go", "stop"][self.draw(3)];
                let time_to_live = [0, 100, 100_000][self.draw(3)];
                let place = home_of(key.as_bytes(), 3);
                (place, publish(rt, alloc, name, key, time_to_live))
            }
            7 | 8 => {
                let back = self.draw(20);
                let (place, instance) = one_of(&self.seen.instances, back);
                (place, Command::ProcessInstanceCancel(instance))
            }
            _ => {
                let back = self.draw(20);
                let (place, message) = one_of(&self.seen.messages, back);
                (place, Command::MessageExpire(message))
            }
        }
    }

    // One turn: something is asked for, a partition sends, and packets come.
    fn turn(&mut self, rt: &impl Abort, alloc: Global) {
        let (place, command) = self.next(rt, alloc);
        self.ask(rt, alloc, place, command).discard();
        let place = PartitionId::new(1 + self.draw(3) as u32);
        self.send(rt, alloc, place);
        for _ in 0..PACKETS {
            self.carry(rt, alloc);
        }
        self.release(rt, alloc);
        self.now = self.now.wrapping_add(10);
    }

    // All that is on the wire is taken, with what answers it.
    fn take_all(&mut self, rt: &impl Abort, alloc: Global) {
        for _ in 0..100_000 {
            match self.wire.pop() {
                Some(packet) => self.take(rt, alloc, packet, 1),
                None => return,
            }
        }
    }

    // Each partition sends once, and all of it is taken: whether something was accepted.
    fn round(&mut self, rt: &impl Abort, alloc: Global) -> bool {
        let before = self.seen.counts.accepted;
        for number in 1..=3 {
            let mut packets = self.sent(rt, alloc, PartitionId::new(number));
            self.wire.append(&mut packets).expect(rt, "memory");
            packets.destroy_empty();
            self.take_all(rt, alloc);
        }
        self.seen.counts.accepted != before
    }

    // The wire is honest until nothing is accepted any more.
    fn settle(&mut self, rt: &impl Abort, alloc: Global) {
        for _ in 0..1_000 {
            if !self.round(rt, alloc) {
                return;
            }
        }
        panic!(rt; "it does not come to rest");
    }

    // That a partition is quiet, and has nothing left to send: where nobody is forced to move, each element with a
    // subscription waits, so no message is turned back.
    fn rest(&mut self, rt: &impl Abort, alloc: Global, place: PartitionId) {
        let batch = self.submit(rt, alloc, place, Command::ProcessInstanceBatchContinue);
        assert!(rt; reason(&batch) == "nothing to continue");
        batch.discard();
        let packets = self.sent(rt, alloc, place);
        assert!(rt; packets.is_empty());
        packets.destroy_empty();
    }

    // How many batches all logs have.
    fn frames(&self) -> u64 {
        let mut frames: u64 = 0;
        for partition in &self.partitions {
            frames = frames.wrapping_add(partition.frames());
        }
        frames
    }

    // Lets go of it.
    fn end(self, rt: &impl Abort) {
        let World {
            mut partitions,
            wire,
            held,
            seen: _,
            drawn: _,
            now: _,
            batches: _,
            crashes: _,
        } = self;
        for _ in 0..3 {
            if let Some(partition) = partitions.pop() {
                ended(partition);
            }
        }
        assert!(rt; partitions.is_empty() && wire.is_empty() && held.is_empty());
        partitions.destroy_empty();
        wire.destroy_empty();
        held.destroy_empty();
    }
}

// The key that came so many before the last one; where there is none, a key of nothing.
fn one_of(keys: &[(PartitionId, Key)], back: usize) -> (PartitionId, Key) {
    match keys.iter().rev().nth(back) {
        Some(key) => *key,
        None => (PartitionId::new(1), Key::new(0)),
    }
}

// A world whose partitions have all processes.
fn deployed(rt: &impl Abort, alloc: Global, crashes: bool) -> World {
    let mut world = World::new(rt, alloc, crashes);
    for shape in &SHAPES {
        let command = Command::DeploymentCreate(shaped(rt, alloc, shape));
        world.ask(rt, alloc, PartitionId::new(1), command).discard();
    }
    world.settle(rt, alloc);
    world
}

// That all comes to rest once the wire is honest, and that the logs have what was counted.
fn calm(rt: &impl Abort, alloc: Global, world: &mut World) {
    world.wire.append(&mut world.held).expect(rt, "memory");
    world.take_all(rt, alloc);
    world.settle(rt, alloc);
    for number in 1..=3 {
        world.rest(rt, alloc, PartitionId::new(number));
    }
    assert!(rt; world.frames() == world.batches);
}

// What a play comes to.
fn play(rt: &impl Abort, alloc: Global, crashes: bool) -> Counts {
    let mut world = deployed(rt, alloc, crashes);
    for _ in 0..TURNS {
        world.turn(rt, alloc);
    }
    calm(rt, alloc, &mut world);
    let counts = world.seen.counts;
    world.end(rt);
    counts
}

#[test]
fn messages_over_a_lossy_wire_are_correlated_once(rt: HostRuntime) {
    let counts = play(&rt, rt.alloc(), false);
    assert!(rt; counts.correlated >= 300);
    assert!(rt; counts.repeated >= 300);
    assert!(rt; counts.lost >= 300);
    assert!(rt; counts.late >= 10);
    assert!(rt; counts.rejected >= 10);
    // Crashes change nothing of it.
    assert!(rt; play(&rt, rt.alloc(), true) == counts);
}
