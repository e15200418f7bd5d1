//! Where a line of a file ends.

ghost use Rattle.std.specs.Prelude.{◌≡◌, ◌==◌, ◌<◌, ◌≤◌, ◌∷◌, length, take, drop, position};
ghost use Rattle.line_grammar.specs.Lines.{line_feed, without_return, lines};

fn first_line_feed(bytes: &[u8]) -> Option<usize>
    ensures { result ≡ position (λ b. b == line_feed) bytes.now }
{
    bytes.iter().position(|b| *b == b'\n')
}

/// How many bytes are left without one carriage return at the end.
fn len_without_return(bytes: &[u8]) -> usize
    ensures within { result ≤ length bytes.now }
    ensures front { take result bytes.now ≡ without_return bytes.now }
{
    let len = bytes.len();
    if len > 0 && bytes[len - 1] == b'\r' {
        len - 1
    } else {
        len
    }
}

/// How many bytes the first line has, and after how many the next one begins.
fn first_line(rest: &[u8]) -> (usize, usize)
    requires { 0 < length rest.now }
    ensures ends { result.0 ≤ result.1 }
    ensures goes_on { 0 < result.1 }
    ensures within { result.1 ≤ length rest.now }
    ensures line { lines rest.now ≡ take result.0 rest.now ∷ lines (drop result.1 rest.now) }
{
    let end = first_line_feed(rest).unwrap_or(rest.len());
    let len = len_without_return(&rest[..end]);
    if end < rest.len() {
        (len, end + 1)
    } else {
        (len, end)
    }
}

/// The first line without its end, and the bytes from the next line on.
pub fn split_line(bytes: &[u8]) -> (&[u8], &[u8])
    requires { 0 < length bytes.now }
    ensures line { lines bytes.now ≡ result.0.now ∷ lines result.1.now }
    ensures shorter { length result.1.now < length bytes.now }
{
    let (len, next) = first_line(bytes);
    (&bytes[..len], &bytes[next..])
}
