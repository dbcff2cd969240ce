//! What the texts that clap found ask for.

ghost use Rattle.std.specs.Prelude.{◌≡◌, IfOk, codes, option_map};
ghost use Rattle.clap.specs.Words.{first_of, found_of, rows_of, subcommand_rows_of};
ghost use Rattle.rs_words.specs.Clap as clap;
ghost use Rattle.rs_words.specs.Meaning as spec;

use crate::limits::MOST_GEN;
use crate::numbers::{
    bound_in, drawn_limit_in, limit_in, number_in, ring_in, seed_in, swaps_in, workers_in,
};
use crate::tasks::{CheckOptions, DemoTask, DocumentTask, ImproveOptions, Task};
use clap::ArgMatches;
use rs_model::{Demo, Name, NoMemory, RunOptions};
use std::alloc::{AllocError, Global};

/// The demo of this name.
fn demo_of_name(text: &str) -> Option<Demo>
    ensures { result ≡ spec.demo_of_name text.now }
{
    if text == "double" {
        Some(Demo::Double)
    } else if text == "ring" {
        Some(Demo::Ring)
    } else if text == "stream" {
        Some(Demo::Stream)
    } else if text == "butterfly" {
        Some(Demo::Butterfly)
    } else {
        None
    }
}

/// What `check` asks for, by the texts of its options.
fn check_task(
    alloc: Global,
    bound: Option<&str>,
    derivations: bool,
) -> Result<Option<Task>, AllocError>
    ensures { IfOk result (λ r. r ≡ spec.check_task (option_map (λ s. s.now) bound.entry) derivations) }
{
    let Some(bound) = bound_in(alloc, bound)? else {
        return Ok(None);
    };
    let options = CheckOptions { bound, derivations };
    Ok(Some(Task::OnDocument(DocumentTask::Check(options))))
}

/// What `run` asks for, by the texts of its options.
fn run_task(
    alloc: Global,
    bound: Option<&str>,
    ring: Option<&str>,
    workers: Option<&str>,
    limit: Option<&str>,
    seed: Option<&str>,
) -> Result<Option<Task>, AllocError>
    ensures { IfOk result (λ r. r ≡ spec.run_task (option_map (λ s. s.now) bound.entry) (option_map (λ s. s.now) ring.entry) (option_map (λ s. s.now) workers.entry)
        (option_map (λ s. s.now) limit.entry) (option_map (λ s. s.now) seed.entry)) }
{
    let Some(bound) = bound_in(alloc, bound)? else {
        return Ok(None);
    };
    let Some(ring) = ring_in(alloc, ring)? else {
        return Ok(None);
    };
    let Some(workers) = workers_in(alloc, workers)? else {
        return Ok(None);
    };
    let Some(limit) = limit_in(alloc, limit)? else {
        return Ok(None);
    };
    let Some(seed) = seed_in(alloc, seed)? else {
        return Ok(None);
    };
    let options = RunOptions {
        bound,
        ring,
        limit,
        seed,
    };
    Ok(Some(Task::OnDocument(DocumentTask::Run { options, workers })))
}

/// What `demo` asks for, by the text of its name and those of its options.
fn demo_task(
    alloc: Global,
    name: Option<&str>,
    ring: Option<&str>,
    workers: Option<&str>,
) -> Result<Option<Task>, AllocError>
    ensures { IfOk result (λ r. r ≡ spec.demo_task (option_map (λ s. s.now) name.entry) (option_map (λ s. s.now) ring.entry) (option_map (λ s. s.now) workers.entry)) }
{
    let Some(name) = name else {
        return Ok(None);
    };
    let Some(kind) = demo_of_name(name) else {
        return Ok(None);
    };
    let Some(ring) = ring_in(alloc, ring)? else {
        return Ok(None);
    };
    let Some(workers) = workers_in(alloc, workers)? else {
        return Ok(None);
    };
    Ok(Some(Task::OnData(DemoTask {
        kind,
        ring,
        workers,
    })))
}

/// What `improve` asks for, by the text of its role and those of its options.
fn improve_task(
    alloc: Global,
    role: Option<&str>,
    swaps: Option<&str>,
    bound: Option<&str>,
) -> Result<Option<Task>, NoMemory>
    ensures { IfOk result (λ r. r ≡ spec.improve_task (option_map (λ s. s.now) role.entry) (option_map (λ s. s.now) swaps.entry) (option_map (λ s. s.now) bound.entry)) }
{
    let Some(role) = role else {
        return Ok(None);
    };
    let Some(swaps) = swaps_in(alloc, swaps)? else {
        return Ok(None);
    };
    let Some(bound) = bound_in(alloc, bound)? else {
        return Ok(None);
    };
    let options = ImproveOptions {
        role: Name::of(alloc, role.as_bytes())?,
        bound,
        swaps,
    };
    Ok(Some(Task::OnDocument(DocumentTask::Improve(options))))
}

/// What `explain` asks for, by the text of its bound.
fn explain_task(alloc: Global, bound: Option<&str>) -> Result<Option<Task>, AllocError>
    ensures { IfOk result (λ r. r ≡ spec.explain_task (option_map (λ s. s.now) bound.entry)) }
{
    let Some(bound) = bound_in(alloc, bound)? else {
        return Ok(None);
    };
    Ok(Some(Task::OnDocument(DocumentTask::Explain { bound })))
}

/// What `draw` without `--run` asks for, by the text of its role.
fn draw_plain_task(alloc: Global, role: Option<&str>) -> Result<Task, NoMemory>
    ensures { IfOk result (λ r. r ≡ spec.draw_plain_task (option_map (λ s. s.now) role.entry)) }
{
    let role = match role {
        Some(role) => Some(Name::of(alloc, role.as_bytes())?),
        None => None,
    };
    Ok(Task::OnDocument(DocumentTask::Draw { role }))
}

/// What `draw --run` asks for, by the texts of its options.
fn draw_run_task(
    alloc: Global,
    bound: Option<&str>,
    ring: Option<&str>,
    limit: Option<&str>,
    seed: Option<&str>,
) -> Result<Option<Task>, AllocError>
    ensures { IfOk result (λ r. r ≡ spec.draw_run_task (option_map (λ s. s.now) bound.entry) (option_map (λ s. s.now) ring.entry)
        (option_map (λ s. s.now) limit.entry) (option_map (λ s. s.now) seed.entry)) }
{
    let Some(bound) = bound_in(alloc, bound)? else {
        return Ok(None);
    };
    let Some(ring) = ring_in(alloc, ring)? else {
        return Ok(None);
    };
    let Some(limit) = drawn_limit_in(alloc, limit)? else {
        return Ok(None);
    };
    let Some(seed) = seed_in(alloc, seed)? else {
        return Ok(None);
    };
    let options = RunOptions {
        bound,
        ring,
        limit,
        seed,
    };
    Ok(Some(Task::OnDocument(DocumentTask::DrawRun { options })))
}

/// What `gen` asks for, by the text of its number.
fn gen_task(alloc: Global, number: Option<&str>) -> Result<Option<Task>, AllocError>
    ensures { IfOk result (λ r. r ≡ spec.gen_task (option_map (λ s. s.now) number.entry)) }
{
    let Some(number) = number else {
        return Ok(None);
    };
    let Some(number) = number_in(alloc, 0, MOST_GEN, number)? else {
        return Ok(None);
    };
    Ok(Some(Task::Gen { number }))
}

/// The text that clap found for an option or a positional word.
fn text_found<'a>(found: &ArgMatches<'a>, id: &str) -> Option<&'a str>
    ensures { option_map (λ s. s.now) result ≡ first_of id.now (rows_of (found_of found.now)) }
{
    found.get_str(id)
}

/// Whether the option without a value is used.
fn is_used(found: &ArgMatches<'_>, id: &str) -> bool
    ensures { result ≡ clap.is_true_text (first_of id.now (rows_of (found_of found.now))) }
{
    match text_found(found, id) {
        Some(text) => text == "true",
        None => false,
    }
}

/// What `run` asks for, by the texts that clap found.
fn run_task_in(alloc: Global, found: &ArgMatches<'_>) -> Result<Option<Task>, AllocError>
    ensures { IfOk result (λ r. r ≡ spec.run_task (first_of (codes "bound") (rows_of (found_of found.now))) (first_of (codes "ring") (rows_of (found_of found.now)))
        (first_of (codes "workers") (rows_of (found_of found.now))) (first_of (codes "limit") (rows_of (found_of found.now))) (first_of (codes "seed") (rows_of (found_of found.now)))) }
{
    run_task(
        alloc,
        text_found(found, "bound"),
        text_found(found, "ring"),
        text_found(found, "workers"),
        text_found(found, "limit"),
        text_found(found, "seed"),
    )
}

/// What `demo` asks for, by the texts that clap found.
fn demo_task_in(alloc: Global, found: &ArgMatches<'_>) -> Result<Option<Task>, AllocError>
    ensures { IfOk result (λ r. r ≡ spec.demo_task (first_of (codes "name") (rows_of (found_of found.now))) (first_of (codes "ring") (rows_of (found_of found.now)))
        (first_of (codes "workers") (rows_of (found_of found.now)))) }
{
    demo_task(
        alloc,
        text_found(found, "name"),
        text_found(found, "ring"),
        text_found(found, "workers"),
    )
}

/// What `improve` asks for, by the texts that clap found.
fn improve_task_in(alloc: Global, found: &ArgMatches<'_>) -> Result<Option<Task>, NoMemory>
    ensures { IfOk result (λ r. r ≡ spec.improve_task (first_of (codes "role") (rows_of (found_of found.now))) (first_of (codes "swaps") (rows_of (found_of found.now)))
        (first_of (codes "bound") (rows_of (found_of found.now)))) }
{
    improve_task(
        alloc,
        text_found(found, "role"),
        text_found(found, "swaps"),
        text_found(found, "bound"),
    )
}

/// Whether an option is used that only `draw --run` takes.
fn has_run_options(found: &ArgMatches<'_>) -> bool
    ensures { result ≡ spec.has_run_options (first_of (codes "bound") (rows_of (found_of found.now))) (first_of (codes "ring") (rows_of (found_of found.now)))
        (first_of (codes "limit") (rows_of (found_of found.now))) (first_of (codes "seed") (rows_of (found_of found.now))) }
{
    text_found(found, "bound").is_some()
        || text_found(found, "ring").is_some()
        || text_found(found, "limit").is_some()
        || text_found(found, "seed").is_some()
}

/// What `draw --run` asks for, by the texts that clap found.
fn draw_run_task_in(alloc: Global, found: &ArgMatches<'_>) -> Result<Option<Task>, AllocError>
    ensures { IfOk result (λ r. r ≡ spec.draw_run_task (first_of (codes "bound") (rows_of (found_of found.now))) (first_of (codes "ring") (rows_of (found_of found.now)))
        (first_of (codes "limit") (rows_of (found_of found.now))) (first_of (codes "seed") (rows_of (found_of found.now)))) }
{
    draw_run_task(
        alloc,
        text_found(found, "bound"),
        text_found(found, "ring"),
        text_found(found, "limit"),
        text_found(found, "seed"),
    )
}

/// What `draw` asks for, by the texts that clap found.
fn draw_task_in(alloc: Global, found: &ArgMatches<'_>) -> Result<Option<Task>, NoMemory>
    ensures { IfOk result (λ r. r ≡ spec.draw_task (clap.is_true_text (first_of (codes "run") (rows_of (found_of found.now)))) (first_of (codes "role") (rows_of (found_of found.now)))
        (first_of (codes "bound") (rows_of (found_of found.now))) (first_of (codes "ring") (rows_of (found_of found.now)))
        (first_of (codes "limit") (rows_of (found_of found.now))) (first_of (codes "seed") (rows_of (found_of found.now)))) }
{
    let role = text_found(found, "role");
    if is_used(found, "run") {
        if role.is_some() {
            return Ok(None);
        }
        Ok(draw_run_task_in(alloc, found)?)
    } else if has_run_options(found) {
        Ok(None)
    } else {
        Ok(Some(draw_plain_task(alloc, role)?))
    }
}

/// What the command of this name asks for, by the texts that clap found.
fn task_of(alloc: Global, name: &str, found: &ArgMatches<'_>) -> Result<Option<Task>, NoMemory>
    ensures { IfOk result (λ r. r ≡ spec.task_of name.now (clap.found_text (rows_of (found_of found.now)))) }
{
    if name == "check" {
        let derivations = is_used(found, "derivations");
        Ok(check_task(alloc, text_found(found, "bound"), derivations)?)
    } else if name == "verify" {
        Ok(Some(Task::OnDocument(DocumentTask::Verify)))
    } else if name == "migrate" {
        Ok(Some(Task::OnDocument(DocumentTask::Migrate)))
    } else if name == "show" {
        Ok(Some(Task::OnDocument(DocumentTask::Show)))
    } else if name == "project" {
        Ok(Some(Task::OnDocument(DocumentTask::Project)))
    } else if name == "run" {
        Ok(run_task_in(alloc, found)?)
    } else if name == "demo" {
        Ok(demo_task_in(alloc, found)?)
    } else if name == "gen" {
        Ok(gen_task(alloc, text_found(found, "number"))?)
    } else if name == "improve" {
        improve_task_in(alloc, found)
    } else if name == "explain" {
        Ok(explain_task(alloc, text_found(found, "bound"))?)
    } else if name == "draw" {
        draw_task_in(alloc, found)
    } else {
        Ok(None)
    }
}

/// What the command that clap found asks for.
pub(crate) fn task_in(alloc: Global, found: &ArgMatches<'_>) -> Result<Option<Task>, NoMemory>
    ensures { IfOk result (λ r. r ≡ clap.task_found (subcommand_rows_of found.now)) }
{
    match found.subcommand() {
        None => Ok(None),
        Some((name, inner)) => task_of(alloc, name, inner),
    }
}
