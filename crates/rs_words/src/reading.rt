//! The reader of the words.

ghost use Rattle.std.specs.Prelude.{IfOk};
ghost use Rattle.rs_words.specs.Clap as spec;
ghost use Rattle.rs_words.specs.Meaning.{IsMeaning};
ghost use Rattle.rs_words.specs.Words.{bytes_of_words};

use crate::commands::all_commands;
use crate::dashes::dashes_are_allowed;
use crate::meaning::task_in;
use crate::tasks::Task;
use clap::ArgMatches;
use clap::error::ErrorKind;
use rs_model::NoMemory;
use std::alloc::Global;

/// What clap finds in the words, and None where it refuses them.
fn matches_in<'a>(alloc: Global, words: &'a [String]) -> Result<Option<ArgMatches<'a>>, NoMemory>
    ensures { IfOk result (spec.ClapFinds (bytes_of_words words.now)) }
{
    let program = all_commands(alloc)?;
    match program.try_get_matches_from(words) {
        Ok(found) => Ok(Some(found)),
        Err(error) => {
            if error.kind() == ErrorKind::OutOfMemory {
                Err(NoMemory)
            } else {
                Ok(None)
            }
        }
    }
}

/// The task that the words spell, and None where they spell none.
pub fn read_words(alloc: Global, words: &[String]) -> Result<Option<Task>, NoMemory>
    ensures { IfOk result (IsMeaning (bytes_of_words words.now)) }
{
    if !dashes_are_allowed(words) {
        return Ok(None);
    }
    match matches_in(alloc, words)? {
        None => Ok(None),
        Some(found) => task_in(alloc, &found),
    }
}
