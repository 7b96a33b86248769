// The session and the lent buffers, and what each order does to them.
use crate::lent::Lent;
use crate::order::{BUFFER, Order, ROOM};
use admit::open::open;
use det::operation::{host_bytes, key};
use rules::{Answer, Session};

// What stands in a buffer before its first call.
const CHAR: u8 = 0x2a;

const ATTR: u8 = 0x11;

const MARK: u8 = 1;

const REPLY: u8 = 0xa5;

// The last call's answer, whose session is the one in use, and the lent buffers: no reply buffer for `open`.
#[derive(Drop)]
pub(crate) struct Desk {
    pub(crate) answer: Answer,
    pub(crate) chars: Lent<BUFFER>,
    pub(crate) attrs: Lent<BUFFER>,
    pub(crate) marks: Lent<BUFFER>,
    pub(crate) reply: Lent<ROOM>,
}

impl Desk {
    // Before the first order: as after an `open` that is refused, with empty buffers.
    pub(crate) fn new() -> Self {
        Desk {
            answer: open(0, 0, 0, &mut [], &mut [], &mut []),
            chars: Lent::new(),
            attrs: Lent::new(),
            marks: Lent::new(),
            reply: Lent::new(),
        }
    }

    pub(crate) fn session(&self) -> &Session {
        &self.answer.session
    }

    fn open(&mut self, width: usize, height: usize, edition: usize) {
        self.reply.fill(0, REPLY);
        self.answer = open(
            width,
            height,
            edition,
            self.chars.as_mut_slice(),
            self.attrs.as_mut_slice(),
            self.marks.as_mut_slice(),
        );
    }

    fn host(&mut self, input: &[u8], room: usize) {
        self.reply.fill(room, REPLY);
        self.answer = host_bytes(
            self.answer.session,
            input,
            self.chars.as_mut_slice(),
            self.attrs.as_mut_slice(),
            self.marks.as_mut_slice(),
            self.reply.as_mut_slice(),
        );
    }

    fn key(&mut self, code: u8, room: usize) {
        self.reply.fill(room, REPLY);
        self.answer = key(
            self.answer.session,
            code,
            self.chars.as_mut_slice(),
            self.attrs.as_slice(),
            self.marks.as_mut_slice(),
            self.reply.as_mut_slice(),
        );
    }

    // Does what the order says.
    pub(crate) fn obey(&mut self, order: Order<'_>) {
        let session = &mut self.answer.session;
        match order {
            Order::Open {
                width,
                height,
                chars,
                attrs,
                marks,
                edition,
            } => {
                self.chars.fill(chars, CHAR);
                self.attrs.fill(attrs, ATTR);
                self.marks.fill(marks, MARK);
                self.open(width, height, edition);
            }
            Order::Chars(bytes) => self.chars.copy(bytes),
            Order::Attrs(bytes) => self.attrs.copy(bytes),
            Order::Marks(bytes) => self.marks.copy(bytes),
            Order::Cursor { x, y } => {
                session.frame.cursor.x.0 = x;
                session.frame.cursor.y.0 = y;
            }
            Order::Held(count) => session.reader.held.count = count,
            Order::Det(on) => session.frame.det = on,
            Order::Suppress(on) => session.frame.suppressed = on,
            Order::Pad(on) => session.frame.x3 = on,
            Order::Host { input, room } => self.host(input, room),
            Order::Key { code, room } => self.key(code, room),
            Order::State => {}
        }
    }
}
