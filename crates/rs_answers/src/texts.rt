//! Texts that are put together of pieces.

ghost use Rattle.std.specs.Prelude.{◌≡◌, ◌++◌, IfOk, OnOk};
ghost use Rattle.rs_answers.specs.Texts.{piece_bytes, pieces_text};

use rs_model::NoMemory;
use rs_text::Text;
use std::alloc::Global;

/// A piece of a text.
#[derive(Clone, Copy)]
pub enum Piece<'a> {
    Words(&'a [u8]),
    Number(u64),
}

fn push_piece(text: &mut Text, piece: Piece) -> Result<(), NoMemory>
    ensures { OnOk result (text.new ≡ text.old ++ piece_bytes piece.entry) }
{
    match piece {
        Piece::Words(words) => text.push(words),
        Piece::Number(number) => text.push_number(number),
    }
}

/// Appends the pieces, one after the other.
pub fn push_pieces(text: &mut Text, pieces: &[Piece]) -> Result<(), NoMemory>
    ensures { OnOk result (text.new ≡ text.old ++ pieces_text pieces.now) }
{
    for piece in pieces {
        push_piece(text, *piece)?;
    }
    Ok(())
}

/// The pieces, one after the other.
pub fn text_of(alloc: Global, pieces: &[Piece]) -> Result<Text, NoMemory>
    ensures { IfOk result (λ text. text ≡ pieces_text pieces.now) }
{
    let mut text = Text::new(alloc);
    push_pieces(&mut text, pieces)?;
    Ok(text)
}
