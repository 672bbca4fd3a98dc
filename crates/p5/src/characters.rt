// White space, ends of lines and digits.
ghost use Rattle.std.specs.Prelude.{◌≡◌, get_or};
ghost use Rattle.p5.specs.Headers.{is_white, ends_line, is_digit};

// White space as the scope document takes it.
pub fn is_white(byte: u8) -> bool
    ensures { result ≡ is_white byte }
{
    matches!(byte, 9 | 10 | 13 | 32)
}

// Whether a white space byte stands at a position; beyond the file there is none.
pub fn white_at(file: &[u8], at: usize) -> bool
    ensures { result ≡ is_white (get_or file.now at 0) }
{
    at < file.len() && is_white(file[at])
}

// A byte that ends a line, and with it a comment.
pub fn ends_line(byte: u8) -> bool
    ensures { result ≡ ends_line byte }
{
    matches!(byte, 10 | 13)
}

// A decimal digit.
pub fn is_digit(byte: u8) -> bool
    ensures { result ≡ is_digit byte }
{
    byte.is_ascii_digit()
}
