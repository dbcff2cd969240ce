//! The line and the column of an offset.

ghost use Rattle.std.specs.Prelude.{◌≡◌, ◌≤◌, length};
ghost use Rattle.rs_text.specs.Places.{line_of, column_of};

/// Line and column of an offset, which is at most the length; both count from 1. Only LF ends a line, and each other
/// byte is one column.
pub fn place(bytes: &[u8], offset: usize) -> (usize, usize)
    requires { offset ≤ length bytes.now }
    ensures line { result.0 ≡ line_of bytes.now offset }
    ensures column { result.1 ≡ column_of bytes.now offset }
{
    let (before, _) = bytes.split_at(offset);
    let mut line = 1;
    let mut column = 1;
    for byte in before {
        if *byte == b'\n' {
            line += 1;
            column = 1;
        } else {
            column += 1;
        }
    }
    (line, column)
}
