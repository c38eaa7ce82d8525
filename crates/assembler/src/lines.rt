//! The lines of a text.
ghost use Rattle.std.specs.Prelude.{◌≡◌, ◌≢◌, ◌∷◌, ◌++◌, ◌<◌, ◌+◌, List, [], length, take, drop, All, MatchOption, IfSome, IfNone, Some, None};
ghost use Rattle.std.specs.Str.Lines.{strip_carriage_return, lines};
ghost use Rattle.assembler.specs.Numbered.{numbered};

/// Where the byte stands first.
fn find(byte: u8, text: &[u8]) -> Option<usize>
    ensures found { IfSome result (λ at. (at < length text.now) × (text.now ≡ take at text.now ++ byte ∷ drop (at + 1) text.now)
        × All (λ b. b ≢ byte) (take at text.now)) }
    ensures none { IfNone result (All (λ b. b ≢ byte) text.now) }
{
    text.iter().position(|b| *b == byte)
}

fn strip<'a>(line: &'a [u8]) -> &'a [u8]
    ensures { result.now ≡ strip_carriage_return line.now }
{
    if !line.is_empty() && line[line.len() - 1] == b'\r' {
        return &line[..line.len() - 1];
    }
    line
}

/// The line at the front, and what stands after it.
pub fn next_line<'a>(rest: &mut &'a [u8]) -> Option<&'a [u8]>
    ensures line { MatchOption result (lines rest.old.now ≡ []) (λ line. lines rest.old.now ≡ line.now ∷ lines rest.new.now) }
    ensures shorter { IfSome result (λ line. length rest.new.now < length rest.old.now) }
{
    let text = *rest;
    if text.is_empty() {
        return None;
    }
    match find(b'\n', text) {
        Some(at) => {
            *rest = &text[at + 1..];
            Some(strip(&text[..at]))
        }
        None => {
            *rest = &text[text.len()..];
            Some(text)
        }
    }
}

/// The line of this number, counted from 0, if there is one.
pub fn line_at<'a>(text: &'a [u8], number: usize) -> Option<&'a [u8]>
    ensures { MatchOption result (numbered number (lines text.now) ≡ None) (λ line. numbered number (lines text.now) ≡ Some line.now) }
{
    let mut rest = text;
    let mut left = number;
    while let Some(line) = next_line(&mut rest) {
        if left == 0 {
            return Some(line);
        }
        left -= 1;
    }
    None
}
