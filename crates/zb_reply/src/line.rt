ghost use Rattle.std.specs.Prelude.{◌≡◌, ◌∷◌, [], ◌++◌, ℕ, List, false, string_bytes, IfOk, OnOk, OnErr};
ghost use Rattle.std.specs.Fmt.{signed_decimal};
ghost use Rattle.zb_reply.specs.Member.{member_of};
ghost use Rattle.zb_reply.specs.Reply.{a_number, line_of, ok_line, rejected_line, fault_line, name_text, comma_behind, listed, member_text, job_members, job_text, jobs_text, variable_text, value_text, truth_text, quoted, kind_name, fault_name, fault_field, fault_path, units_of, IsSpoken};

use crate::{ActivatedJob, Reply};
use serde_json::Value as Json;
use std::alloc::{AllocError, Global};
use zb_model::{Key, Rejection, RejectionKind, Value, Variable};
use zb_wire::LineFault;

// So many bytes are room for the line of most replies.
const LINE_ROOM: usize = 96;

/// Appends the line of a reply with its newline, and `units` as its last field where it is given. After a
/// refusal `bytes` is as before.
pub fn reply_text(
    alloc: Global,
    reply: &Reply,
    units: Option<u64>,
    bytes: &mut Vec<u8>,
) -> Result<(), AllocError>
    requires { IsSpoken reply.now }
    ensures ok { OnOk result (bytes.new.items ≡ bytes.old.items ++ line_of reply.now units) }
    ensures err { OnErr result (bytes.new.items ≡ bytes.old.items) }
{
    let line = line(alloc, reply, units)?;
    bytes.extend_from_slice(line.as_bytes())
}

// What a line tells under a name.
#[derive(Clone, Copy)]
enum Member<'t> {
    Number(&'static str, u64),
    Text(&'static str, &'t str),
    Variables(&'static str, &'t [Variable]),
}

// The jobs that a line tells.
#[derive(Clone, Copy)]
struct Jobs<'t>(&'t [ActivatedJob]);

// The line of a reply.
#[tactic(auto, unfolding(crate::specs::Reply::line_of))]
fn line(alloc: Global, reply: &Reply, units: Option<u64>) -> Result<String, AllocError>
    ensures { IfOk result (λ line. string_bytes line ≡ line_of reply.now units) }
{
    match reply {
        Reply::Deploy(deployed) => ok_line(
            alloc,
            &[
                Member::Number("definition", deployed.definition.number()),
                Member::Text("process", deployed.process.as_str()),
                Member::Number("version", u64::from(deployed.version)),
            ],
            units,
        ),
        Reply::Create(created) => ok_line(
            alloc,
            &[
                Member::Number("definition", created.definition.number()),
                Member::Number("instance", created.instance.number()),
            ],
            units,
        ),
        Reply::Cancel(key) => key_line(alloc, "instance", *key, units),
        Reply::Variables(key) => key_line(alloc, "scope", *key, units),
        Reply::Activate(jobs) => ok_line(alloc, &[Jobs(jobs.as_slice())], units),
        Reply::Complete(key) | Reply::Fail(key) | Reply::Throw(key) | Reply::Retries(key) => {
            key_line(alloc, "job", *key, units)
        }
        Reply::Publish(key) => key_line(alloc, "message", *key, units),
        Reply::Resolve(key) => key_line(alloc, "incident", *key, units),
        Reply::Tick(due) => ok_line(alloc, &[Member::Number("due", *due)], units),
        Reply::Advance(now) => ok_line(alloc, &[Member::Number("now", now.ms())], units),
        Reply::Settle => ok_line::<Member<'_>>(alloc, &[], units),
        Reply::Rejected(rejection) => rejected_line(alloc, rejection, units),
        Reply::Fault(number, fault) => fault_line(alloc, *number, fault),
    }
}

// The line of a request that was done, which tells this key under this name.
fn key_line(
    alloc: Global,
    name: &'static str,
    key: Key,
    units: Option<u64>,
) -> Result<String, AllocError>
    ensures { IfOk result (λ line. string_bytes line
        ≡ ok_line (listed member_text false (a_number name.now key ∷ [])) units) }
{
    ok_line(alloc, &[Member::Number(name, key.number())], units)
}

// The line of a request that was done, which tells these.
fn ok_line<T: Listed>(alloc: Global, told: &[T], units: Option<u64>) -> Result<String, AllocError>
    ensures { IfOk result (λ line. string_bytes line
        ≡ ok_line (listed T.text false told.now) units) }
{
    let mut line = String::with_capacity(alloc, LINE_ROOM)?;
    line.push_str("{\"ok\":{")?;
    push_listed(alloc, &mut line, told)?;
    line.push_str("}")?;
    push_units(&mut line, units)?;
    line.push_str("}\n")?;
    Ok(line)
}

// What stands in a line beside others, with commas between.
trait Listed {
    // Its text.
    ghost text: { Self → List ℕ };

    // Appends it.
    fn push(&self, alloc: Global, line: &mut String) -> Result<(), AllocError>
        ensures { OnOk result (string_bytes line.new ≡ string_bytes line.old ++ text self.now) };
}

// Appends these, with commas between.
fn push_listed<T: Listed>(alloc: Global, line: &mut String, items: &[T]) -> Result<(), AllocError>
    ensures { OnOk result (string_bytes line.new
        ≡ string_bytes line.old ++ listed T.text false items.now) }
{
    let mut behind = false;
    for item in items {
        push_comma(line, behind)?;
        item.push(alloc, line)?;
        behind = true;
    }
    Ok(())
}

// Appends a comma, where something stands in front.
fn push_comma(line: &mut String, behind: bool) -> Result<(), AllocError>
    ensures { OnOk result (string_bytes line.new ≡ string_bytes line.old ++ comma_behind behind) }
{
    if behind {
        return line.push_str(",");
    }
    Ok(())
}

// A name and what is told under it.
impl Listed for Member<'_> {
    ghost text = { λ member. member_text (member_of member) };

    fn push(&self, alloc: Global, line: &mut String) -> Result<(), AllocError> {
        match self {
            Member::Number(name, number) => {
                push_name(line, name)?;
                line.write(*number)
            }
            Member::Text(name, text) => {
                push_name(line, name)?;
                push_quoted(alloc, line, text)
            }
            Member::Variables(name, variables) => {
                push_name(line, name)?;
                line.push_str("{")?;
                push_listed(alloc, line, variables)?;
                line.push_str("}")
            }
        }
    }
}

// A variable as a member of an object.
impl Listed for Variable {
    ghost text = { variable_text };

    fn push(&self, alloc: Global, line: &mut String) -> Result<(), AllocError> {
        push_quoted(alloc, line, self.name.as_str())?;
        line.push_str(":")?;
        push_value(alloc, line, &self.value)
    }
}

// Appends the value of a variable.
fn push_value(alloc: Global, line: &mut String, value: &Value) -> Result<(), AllocError>
    ensures { OnOk result (string_bytes line.new ≡ string_bytes line.old ++ value_text value.now) }
{
    match value {
        Value::Int(number) => line.write(*number),
        Value::Bool(flag) => line.push_str(truth_text(*flag)),
        Value::Text(text) => push_quoted(alloc, line, text.as_str()),
        Value::List(numbers) => {
            line.push_str("[")?;
            push_listed(alloc, line, numbers.as_slice())?;
            line.push_str("]")
        }
    }
}

// A truth value in a reply.
fn truth_text(flag: bool) -> &'static str
    ensures { result.now ≡ truth_text flag }
{
    if flag { "true" } else { "false" }
}

// A number of a list.
impl Listed for i64 {
    ghost text = { signed_decimal };

    fn push(&self, _alloc: Global, line: &mut String) -> Result<(), AllocError> {
        line.write(*self)
    }
}

// A job as an object.
impl Listed for ActivatedJob {
    ghost text = { job_text };

    fn push(&self, alloc: Global, line: &mut String) -> Result<(), AllocError> {
        line.push_str("{")?;
        push_job(alloc, line, self)?;
        line.push_str("}")
    }
}

// Appends what is told of a job.
#[tactic(auto, unfolding(crate::specs::Reply::job_members))]
fn push_job(alloc: Global, line: &mut String, job: &ActivatedJob) -> Result<(), AllocError>
    ensures { OnOk result (string_bytes line.new
        ≡ string_bytes line.old ++ listed member_text false (job_members job.now)) }
{
    push_listed(
        alloc,
        line,
        &[
            Member::Number("deadline", job.deadline.ms()),
            Member::Text("element", job.element.as_str()),
            Member::Number("instance", job.instance.number()),
            Member::Number("job", job.job.number()),
            Member::Number("retries", u64::from(job.retries)),
            Member::Text("type", job.kind.as_str()),
            Member::Variables("variables", job.variables.as_slice()),
        ],
    )
}

// Jobs under their name.
impl Listed for Jobs<'_> {
    ghost text = { λ jobs. jobs_text jobs.0.now };

    fn push(&self, alloc: Global, line: &mut String) -> Result<(), AllocError> {
        push_name(line, "jobs")?;
        line.push_str("[")?;
        push_listed(alloc, line, self.0)?;
        line.push_str("]")
    }
}

// Appends a name and a colon.
fn push_name(line: &mut String, name: &str) -> Result<(), AllocError>
    ensures { OnOk result (string_bytes line.new ≡ string_bytes line.old ++ name_text name.now) }
{
    line.push_str("\"")?;
    line.push_str(name)?;
    line.push_str("\":")
}

// The line of a request that was rejected.
fn rejected_line(
    alloc: Global,
    rejection: &Rejection,
    units: Option<u64>,
) -> Result<String, AllocError>
    ensures { IfOk result (λ line. string_bytes line ≡ rejected_line rejection.now units) }
{
    let mut line = String::with_capacity(alloc, LINE_ROOM)?;
    line.push_str("{\"reason\":")?;
    push_quoted(alloc, &mut line, rejection.reason.as_str())?;
    line.push_str(",\"rejected\":\"")?;
    line.push_str(name_of_kind(rejection.kind))?;
    line.push_str("\"")?;
    push_units(&mut line, units)?;
    line.push_str("}\n")?;
    Ok(line)
}

// The line of a fault.
fn fault_line(alloc: Global, number: u64, fault: &LineFault) -> Result<String, AllocError>
    ensures { IfOk result (λ line. string_bytes line ≡ fault_line number fault.now) }
{
    let mut line = String::with_capacity(alloc, LINE_ROOM)?;
    line.push_str("{\"fault\":\"")?;
    line.push_str(name_of_fault(fault))?;
    line.push_str("\"")?;
    push_field(alloc, &mut line, fault)?;
    line.push_str(",\"line\":")?;
    line.write(number)?;
    push_path(alloc, &mut line, fault)?;
    line.push_str("}\n")?;
    Ok(line)
}

// Appends the field that a fault names.
fn push_field(alloc: Global, line: &mut String, fault: &LineFault) -> Result<(), AllocError>
    ensures { OnOk result (string_bytes line.new ≡ string_bytes line.old ++ fault_field fault.now) }
{
    match fault {
        LineFault::Field { field, .. } | LineFault::Range { field } => {
            line.push_str(",\"field\":")?;
            push_quoted(alloc, line, field.as_str())
        }
        _ => Ok(()),
    }
}

// Appends the place in the field's value that a fault names.
fn push_path(alloc: Global, line: &mut String, fault: &LineFault) -> Result<(), AllocError>
    ensures { OnOk result (string_bytes line.new ≡ string_bytes line.old ++ fault_path fault.now) }
{
    match fault {
        LineFault::Field {
            path: Some(path),
            ..
        } => {
            line.push_str(",\"path\":")?;
            push_quoted(alloc, line, path.as_str())
        }
        _ => Ok(()),
    }
}

// Appends a text in quotes.
#[tactic(auto, unfolding(crate::specs::Reply::quoted))]
fn push_quoted(alloc: Global, line: &mut String, text: &str) -> Result<(), AllocError>
    ensures { OnOk result (string_bytes line.new ≡ string_bytes line.old ++ quoted text.now) }
{
    let text = Json::String(String::from_str(alloc, text)?);
    line.push_str(text.to_string(alloc)?.as_str())
}

// Appends the last field of a reply, where it is given.
fn push_units(line: &mut String, units: Option<u64>) -> Result<(), AllocError>
    ensures { OnOk result (string_bytes line.new ≡ string_bytes line.old ++ units_of units) }
{
    let Some(units) = units else {
        return Ok(());
    };
    line.push_str(",\"units\":")?;
    line.write(units)
}

// The name of a kind of rejection in a reply.
fn name_of_kind(kind: RejectionKind) -> &'static str
    ensures { result.now ≡ kind_name kind }
{
    match kind {
        RejectionKind::InvalidArgument => "INVALID_ARGUMENT",
        RejectionKind::NotFound => "NOT_FOUND",
        RejectionKind::AlreadyExists => "ALREADY_EXISTS",
        RejectionKind::InvalidState => "INVALID_STATE",
    }
}

// The name of a fault in a reply; want of memory has none.
fn name_of_fault(fault: &LineFault) -> &'static str
    ensures { result.now ≡ fault_name fault.now }
{
    match fault {
        LineFault::TooLong => "TOO_LONG",
        LineFault::NotJson => "NOT_JSON",
        LineFault::NotObject => "NOT_OBJECT",
        LineFault::NoOp => "NO_OP",
        LineFault::UnknownOp => "UNKNOWN_OP",
        LineFault::Field { .. } => "FIELD",
        LineFault::Range { .. } => "RANGE",
        LineFault::Memory => "",
    }
}
