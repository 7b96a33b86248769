// The text of a range of cells, as it goes into a reply.
ghost use Rattle.std.specs.Prelude.{◌≡◌, ◌+◌, ◌≤◌, length};
ghost use Rattle.std.proofs.Math.Seq.{paste};
ghost use Rattle.edit.specs.Edits.{Copied};

// Copies the text into the reply from `at` on. The step is a byte: by the library's copy the archive for C would ask its caller for
// `memmove`.
fn copy(text: &[u8], reply: &mut [u8], at: usize)
    requires { at + length text.now ≤ length reply.old }
    ensures { reply.new ≡ paste reply.old at text.now (length text.now) }
{
    for i in 0..text.len() {
        reply[at + i] = text[i];
    }
}

// Copies the text of a range of cells into the reply from `at` on, and returns the place after it.
// (Document 01, code places: the part of the character buffer from the cursor on is handed on to be sent.)
pub fn copy_text(chars: &[u8], reply: &mut [u8], from: usize, end: usize, at: usize) -> usize
    ensures { Copied chars.now reply.old from end at reply.new result }
{
    let Some(text) = chars.get(from..end) else {
        return at;
    };
    if reply.len() < text.len() || reply.len() - text.len() < at {
        return at;
    }
    let next = at + text.len();
    copy(text, reply, at);
    next
}
