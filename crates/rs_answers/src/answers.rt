//! Answers: a text, and what it says.

use crate::verdicts::Verdict;
use rs_text::Text;
use std::marker::Model;

/// An answer, made whole before its first byte is written: the text, and what it says.
#[derive(Drop)]
pub struct Answer {
    pub text: Text,
    pub verdict: Verdict,
}

impl Model for Answer {
    ghost use Rattle.rs_answers.specs.Data.{Answer_data};

    ghost Value = { Answer_data };

    ghost view = { λ a. record { text = a.text; verdict = a.verdict } };
}
