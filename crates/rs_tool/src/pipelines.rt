//! What a pipeline is.

ghost use Rattle.std.specs.Prelude.{◌≡◌};
ghost use Rattle.rs_tool.specs.Pipelines as spec;

/// A pipeline: round after round, a value goes from each role to the next one, and the last role acknowledges it to the
/// first. The first role may send some values before it takes the first acknowledgement.
#[derive(Clone, Copy, Debug, PartialEq, Eq)]
pub struct Pipeline {
    /// How many roles there are.
    pub roles: u32,
    /// How many values the first role sends ahead.
    pub ahead: u32,
    /// How many rounds there are before the protocol begins again.
    pub rounds: u32,
}

/// The pipeline of the number: 2 to 15 roles, 0 to 4 values ahead, 1 to 61 rounds.
pub fn pipeline_of(number: u32) -> Pipeline
    ensures { result ≡ spec.pipeline_of number }
{
    Pipeline {
        roles: 2 + number % 14,
        ahead: number % 5,
        rounds: 1 + number % 61,
    }
}
