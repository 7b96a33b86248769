// 27 (request (v)): the unprotected fields with a marked cell into the reply.
ghost use Rattle.std.specs.Prelude.{length};
ghost use Rattle.reply.specs.Pieces.{marked_pieces, modified_pieces};
ghost use Rattle.reply.specs.Written.{Puts};

use crate::field::field_from;
use crate::{Reply, Screen};
use edit::mark::some_marked;
use screen::cell::place_of;
use screen::field::field_end;

impl Reply<'_> {
    // A field behind a preface of its own, if one of its cells is marked.
    #[tactic(auto, using(crate::proofs::WriteLaws::puts_none))]
    fn put_marked(&mut self, code: u8, width: u8, screen: Screen<'_>, cell: usize, end: usize)
        ensures { Puts self.old
            (marked_pieces code width screen.entry.chars.now screen.entry.marks.now cell end)
            self.new }
    {
        if some_marked(screen.marks, cell, end) {
            self.put_text(code, place_of(width, cell), screen.chars, cell, end);
        }
    }

    // Every such field: no separators, and nothing at all where there is none. A step is a field.
    #[tactic(auto, using(crate::proofs::WriteLaws::to_further))]
    pub(crate) fn put_modified(&mut self, code: u8, width: u8, screen: Screen<'_>)
        ensures { Puts self.old
            (modified_pieces code width screen.entry.chars.now screen.entry.attrs.now screen.entry.marks.now
            0 (length screen.entry.attrs.now))
            self.new }
    {
        let attrs = screen.attrs;
        let mut cell = field_from(attrs, 0);
        while cell < attrs.len() {
            let end = field_end(attrs, cell);
            self.put_marked(code, width, screen, cell, end);
            cell = field_from(attrs, end);
        }
    }
}
