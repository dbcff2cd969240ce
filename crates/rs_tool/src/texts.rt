//! The texts of pipelines.

ghost use Rattle.std.specs.Prelude.{◌≡◌, ◌≤◌, ◌<◌, ◌^◌, ◌+◌, ◌-◌, ◌++◌, IfOk, OnOk, codes};
ghost use Rattle.std.specs.Fmt.{decimal};
ghost use Rattle.rs_tool.specs.Pipelines as spec;

use crate::pipelines::Pipeline;
use rs_model::NoMemory;
use rs_text::Text;
use std::alloc::Global;

/// Appends the name of the role.
fn push_role(text: &mut Text, role: u32) -> Result<(), NoMemory>
    ensures { OnOk result (text.new ≡ text.old ++ spec.numbered_role role) }
{
    text.push(b"R")?;
    text.push_number(u64::from(role))
}

/// Appends so many names of roles behind the first one.
#[tactic(auto, using(crate::proofs::Pieces::one_name_more))]
fn push_more_names(text: &mut Text, count: u32) -> Result<(), NoMemory>
    ensures { OnOk result (text.new ≡ text.old ++ spec.more_names count) }
{
    for role in 0..count {
        text.push(b", ")?;
        push_role(text, role + 1)?;
    }
    Ok(())
}

/// Appends the talk by which a value goes from this role to the next one.
fn push_value(text: &mut Text, role: u32) -> Result<(), NoMemory>
    requires { role + 1 < 2 ^ 32 }
    ensures { OnOk result (text.new ≡ text.old ++ spec.handover_text role) }
{
    push_role(text, role)?;
    text.push(b"->")?;
    push_role(text, role + 1)?;
    text.push(b":v(nat). ")
}

/// Appends the talks by which a value goes from each of the first so many roles to the next one.
#[tactic(auto, using(crate::proofs::Pieces::one_value_more))]
fn push_values(text: &mut Text, count: u32) -> Result<(), NoMemory>
    ensures { OnOk result (text.new ≡ text.old ++ spec.values_text count) }
{
    for role in 0..count {
        push_value(text, role)?;
    }
    Ok(())
}

/// A round, among roles of which this is the last one.
fn round_text(alloc: Global, last: u32) -> Result<Text, NoMemory>
    ensures { IfOk result (λ text. text ≡ spec.round_text last) }
{
    let mut text = Text::new(alloc);
    push_values(&mut text, last)?;
    push_role(&mut text, last)?;
    text.push(b"->R0:ack(). ")?;
    Ok(text)
}

/// Appends so many rounds, each the same.
#[tactic(auto, using(crate::proofs::Pieces::one_round_more))]
fn push_rounds(alloc: Global, text: &mut Text, last: u32, count: u32) -> Result<(), NoMemory>
    ensures { OnOk result (text.new ≡ text.old ++ spec.rounds_text last count) }
{
    let round = round_text(alloc, last)?;
    for _ in 0..count {
        text.push(round.as_slice())?;
    }
    Ok(())
}

/// Appends the roles line and the protocol.
fn push_protocol(alloc: Global, text: &mut Text, pipeline: Pipeline) -> Result<(), NoMemory>
    requires { 2 ≤ pipeline.roles }
    ensures { OnOk result (text.new ≡ text.old ++ spec.pipeline_protocol pipeline) }
{
    let last = pipeline.roles - 1;
    text.push(b"roles R0")?;
    push_more_names(text, last)?;
    text.push(b"\nprotocol rec X0. ")?;
    push_rounds(alloc, text, last, pipeline.rounds)?;
    text.push(b"X0\n")
}

/// Appends so many sends of the first role.
#[tactic(auto, using(crate::proofs::Pieces::one_send_more))]
fn push_sends(text: &mut Text, count: u32) -> Result<(), NoMemory>
    ensures { OnOk result (text.new ≡ text.old ++ spec.sends_text count) }
{
    for _ in 0..count {
        text.push(b"R1!v(nat). ")?;
    }
    Ok(())
}

/// Appends the name of the loop of the first role's machine.
fn push_loop_name(text: &mut Text, pipeline: Pipeline) -> Result<(), NoMemory>
    ensures { OnOk result (text.new ≡ text.old ++ spec.loop_name pipeline) }
{
    text.push(b"X")?;
    text.push_number(u64::from(pipeline.ahead))
}

/// Appends the loop of the first role's machine.
fn push_loop(text: &mut Text, pipeline: Pipeline) -> Result<(), NoMemory>
    requires { 2 ≤ pipeline.roles }
    ensures { OnOk result (text.new ≡ text.old ++ spec.loop_text pipeline) }
{
    text.push(b"rec ")?;
    push_loop_name(text, pipeline)?;
    text.push(b". R1!v(nat). ")?;
    push_role(text, pipeline.roles - 1)?;
    text.push(b"?ack(). ")?;
    push_loop_name(text, pipeline)
}

/// Appends the machine of the first role.
fn push_machine(text: &mut Text, pipeline: Pipeline) -> Result<(), NoMemory>
    requires { 2 ≤ pipeline.roles }
    ensures { OnOk result (text.new ≡ text.old ++ spec.pipeline_machine pipeline) }
{
    text.push(b"machine R0: ")?;
    push_sends(text, pipeline.ahead)?;
    push_loop(text, pipeline)?;
    text.push(b"\n")
}

/// The document of a pipeline among 2 roles or more: its protocol, and the machine of the first role where it sends ahead.
pub fn pipeline_text(alloc: Global, pipeline: Pipeline) -> Result<Text, NoMemory>
    requires { 2 ≤ pipeline.roles }
    ensures { IfOk result (λ text. text ≡ spec.pipeline_text pipeline) }
{
    let mut text = Text::new(alloc);
    push_protocol(alloc, &mut text, pipeline)?;
    if pipeline.ahead > 0 {
        push_machine(&mut text, pipeline)?;
    }
    Ok(text)
}

/// The line that says what the pipeline is.
pub fn pipeline_summary(alloc: Global, pipeline: Pipeline) -> Result<Text, NoMemory>
    ensures { IfOk result (λ text. text ≡ spec.pipeline_summary pipeline) }
{
    let mut text = Text::new(alloc);
    text.push(b"roles ")?;
    text.push_number(u64::from(pipeline.roles))?;
    text.push(b" ahead ")?;
    text.push_number(u64::from(pipeline.ahead))?;
    text.push(b" rounds ")?;
    text.push_number(u64::from(pipeline.rounds))?;
    text.push(b"\n")?;
    Ok(text)
}
