//! The search for the end of a block.

ghost use Rattle.std.specs.Prelude.{◌≡◌, ◌<◌, ◌==◌, length, position, IfSome};
ghost use Rattle.auc_block.specs.Block.{is_end};
ghost use Rattle.auc_block.specs.InnerHearing.{IsFound, IsSearched};

// What a search finds: where the first line `end` begins and where the bytes after it begin, or where the
// line begins that isn't whole yet.
pub(crate) enum Found {
    End(usize, usize),
    Open(usize),
}

// Searches a text for its first line `end`, after it was searched up to `place` in the line at `begin`.
pub(crate) fn find_end(text: &[u8], mut begin: usize, mut place: usize) -> Found
    requires { IsSearched text.now begin place }
    ensures { IsFound result text.now }
{
    while let Some(size) = place_of_lf(&text[place..]) {
        let lf = place + size;
        if is_end(&text[begin..lf]) {
            return Found::End(begin, lf + 1);
        }
        begin = lf + 1;
        place = lf + 1;
    }
    Found::Open(begin)
}

// The place of the first LF.
fn place_of_lf(text: &[u8]) -> Option<usize>
    ensures place { result ≡ position (λ byte. byte == 10) text.now }
    ensures within { IfSome result (λ place. place < length text.now) }
{
    text.iter().position(|byte| *byte == b'\n')
}

// Whether a line is `end`, with or without a CR.
fn is_end(line: &[u8]) -> bool
    ensures { result ≡ is_end line.now }
{
    line == b"end".as_slice() || line == b"end\r".as_slice()
}
