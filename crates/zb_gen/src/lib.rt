//! A workload to measure servers by: lines of requests, drawn from a number.
#![tactic(auto)]

ghost use Rattle.std.specs.Prelude.{◌≡◌, ◌++◌, string_bytes, IfOk, OnOk};
ghost use Rattle.std.specs.Fmt.{decimal};
ghost use Rattle.zb_gen.specs.Workload as spec;

use std::alloc::{AllocError, Global};

// The line that deploys the model that the requests are for.
const DEPLOY: &str =
    "{\"op\":\"deploy\",\"model\":{\"process\":\"w\",\"nodes\":[{\"id\":\"s\",\"kind\":\"startEvent\"},{\"id\":\"x\",\"kind\":\"exclusiveGateway\",\"default\":\"b\"},{\"id\":\"t\",\"kind\":\"serviceTask\",\"type\":\"pay\"},{\"id\":\"c\",\"kind\":\"intermediateCatchEvent\",\"timerEventDefinition\":{\"timeDuration\":\"PT1S\"}},{\"id\":\"e\",\"kind\":\"endEvent\"}],\"flows\":[{\"id\":\"f\",\"sourceRef\":\"s\",\"targetRef\":\"x\"},{\"id\":\"a\",\"sourceRef\":\"x\",\"targetRef\":\"t\",\"conditionExpression\":\"=n < 4\"},{\"id\":\"b\",\"sourceRef\":\"x\",\"targetRef\":\"c\"},{\"id\":\"g\",\"sourceRef\":\"t\",\"targetRef\":\"e\"},{\"id\":\"h\",\"sourceRef\":\"c\",\"targetRef\":\"e\"}]}}\n";

// What the states of the generator are multiplied by, what is added, and how many states there are.
const FACTOR: u128 = 6_364_136_223_846_793_005;

const SUMMAND: u128 = 1_442_695_040_888_963_407;

const STATES: u128 = 1 << 64;

// What a state is divided by where a number is drawn.
const DIVISOR: u64 = 1 << 33;

/// The workload of so many requests behind a first one that deploys their model, drawn from a number: a line for
/// each request. It takes a step for each byte.
pub fn workload(alloc: Global, number: u64, requests: u32) -> Result<Vec<u8>, AllocError>
    ensures { IfOk result (λ bytes. bytes.items ≡ spec.workload number requests) }
{
    let mut text = deploy(alloc)?;
    let mut state = number;
    for _ in 0..requests {
        put_request(&mut text, state)?;
        state = next_state(next_state(state));
    }
    Ok(text.into_bytes())
}

// The text with the first line.
#[tactic(auto, unfolding(crate::specs::Workload::deploy_request))]
fn deploy(alloc: Global) -> Result<String, AllocError>
    ensures { IfOk result (λ text. string_bytes text ≡ spec.deploy_request) }
{
    String::from_str(alloc, DEPLOY)
}

// The state of the generator behind this one.
fn next_state(state: u64) -> u64
    ensures { result ≡ spec.next_state state }
{
    ((u128::from(state) * FACTOR + SUMMAND) % STATES) as u64
}

// What is drawn at a state.
fn draw(state: u64) -> u64
    ensures { result ≡ spec.draw state }
{
    state / DIVISOR
}

// Adds the line of the request that is drawn behind a state.
#[tactic(auto, unfolding(crate::specs::Workload::request_behind))]
fn put_request(text: &mut String, state: u64) -> Result<(), AllocError>
    ensures { OnOk result (string_bytes text.new ≡ string_bytes text.old ++ spec.request_behind state) }
{
    let kind = next_state(state);
    let number = next_state(kind);
    put_drawn(text, draw(kind), draw(number))
}

// Adds the line of a request, by what was drawn for its kind and for its number.
fn put_drawn(text: &mut String, kind: u64, number: u64) -> Result<(), AllocError>
    ensures { OnOk result (string_bytes text.new ≡ string_bytes text.old ++ spec.request_drawn kind number) }
{
    match kind % 5 {
        0 => put_create(text, number % 8),
        1 => put_publish(text, number % 100),
        2 => put_advance(text, number % 1000),
        3 => text.push_str("{\"op\":\"tick\"}\n"),
        _ => text.push_str(
            "{\"op\":\"activate\",\"type\":\"pay\",\"worker\":\"w\",\"timeout\":1000,\"max\":10}\n",
        ),
    }
}

// Adds a request for an instance with this number as its variable.
fn put_create(text: &mut String, number: u64) -> Result<(), AllocError>
    ensures { OnOk result (string_bytes text.new ≡ string_bytes text.old ++ spec.create_request number) }
{
    put_around(
        text,
        "{\"op\":\"create\",\"process\":\"w\",\"variables\":{\"n\":",
        number,
        "}}\n",
    )
}

// Adds a request that publishes a message with this number in its correlation key.
fn put_publish(text: &mut String, number: u64) -> Result<(), AllocError>
    ensures { OnOk result (string_bytes text.new ≡ string_bytes text.old ++ spec.publish_request number) }
{
    put_around(
        text,
        "{\"op\":\"publish\",\"name\":\"m\",\"correlationKey\":\"k-",
        number,
        "\",\"timeToLive\":2000}\n",
    )
}

// Adds a request that moves the clock on by so many milliseconds.
fn put_advance(text: &mut String, number: u64) -> Result<(), AllocError>
    ensures { OnOk result (string_bytes text.new ≡ string_bytes text.old ++ spec.advance_request number) }
{
    put_around(text, "{\"op\":\"advance\",\"ms\":", number, "}\n")
}

// Adds a number, and what stands around it.
fn put_around(text: &mut String, front: &str, number: u64, behind: &str) -> Result<(), AllocError>
    ensures { OnOk result (string_bytes text.new ≡ string_bytes text.old ++ (front.now ++ (decimal number ++ behind.now))) }
{
    text.push_str(front)?;
    text.write(number)?;
    text.push_str(behind)
}
