//! The lines of a report.

ghost use Rattle.std.specs.Prelude.{◌≡◌, ◌++◌, IfOk, OnOk};
ghost use Rattle.rs_answers.specs.Lines.{line_text, lines_text, report_by};

use crate::answers::Answer;
use crate::texts::Piece::{Number, Words};
use crate::texts::push_pieces;
use crate::verdicts::Verdict;
use rs_model::{Name, NoMemory};
use rs_safety::{Figures, room_by_figures};
use rs_text::Text;
use std::alloc::Global;

fn push_line(text: &mut Text, name: &Name, figures: Figures) -> Result<(), NoMemory>
    ensures { OnOk result (text.new ≡ text.old ++ line_text name.now figures) }
{
    push_pieces(
        text,
        &[
            Words(name.as_slice()),
            Words(b": nodes "),
            Number(figures.nodes),
            Words(b" pending "),
            Number(u64::from(figures.owed)),
            Words(b" rank "),
            Number(u64::from(figures.rank)),
            Words(b"\n"),
        ],
    )
}

fn push_lines(text: &mut Text, names: &[Name], figures: &[Figures]) -> Result<(), NoMemory>
    ensures { OnOk result (text.new ≡ text.old ++ lines_text names.now figures.now) }
{
    let [name, names @ ..] = names else {
        return Ok(());
    };
    let [own, figures @ ..] = figures else {
        return Ok(());
    };
    push_line(text, name, *own)?;
    push_lines(text, names, figures)
}

/// The report of an accepted session, from the figures of its derivations.
pub fn report_by_figures(
    alloc: Global,
    names: &[Name],
    figures: &[Figures],
) -> Result<Answer, NoMemory>
    ensures { IfOk result (λ a. a ≡ report_by names.now figures.now) }
{
    let mut text = Text::new(alloc);
    text.push(b"accepted\n")?;
    push_lines(&mut text, names, figures)?;
    push_pieces(
        &mut text,
        &[
            Words(b"room "),
            Number(room_by_figures(figures)),
            Words(b"\n"),
        ],
    )?;
    Ok(Answer {
        text,
        verdict: Verdict::Fine,
    })
}
