// What a session remembers between calls, beside the lent bytes.
ghost use Rattle.std.specs.Prelude.{◌≡◌};
ghost use Rattle.session.specs.Sessions.{new_session, said_to, with_room, with_targets, with_out, opened_as};

#[derive(Clone, Copy, Debug, PartialEq, Eq)]
pub enum Open {
    Rope,
    History,
}

#[derive(Clone, Copy, Debug, PartialEq, Eq)]
pub struct Session {
    // What is open, and the rows and target rows lent to it.
    pub open: Option<Open>,
    pub lent: u32,
    pub held: u32,
    // What the next opening lends, and the next call.
    pub room: u32,
    pub targets: u32,
    pub out: u32,
    // How much of the answer buffer is written.
    pub at: usize,
}

impl Session {
    // Nothing is open, and everything is lent.
    pub fn new() -> Self
        ensures { result ≡ new_session }
    {
        Self {
            open: None,
            lent: 0,
            held: 0,
            room: u32::MAX,
            targets: u32::MAX,
            out: u32::MAX,
            at: 0,
        }
    }

    // More of the answer is written.
    pub fn said(self, at: usize) -> Self
        ensures { result ≡ said_to self at }
    {
        Self { at, ..self }
    }

    pub fn with_room(self, room: u32) -> Self
        ensures { result ≡ with_room self room }
    {
        Self { room, ..self }
    }

    pub fn with_targets(self, targets: u32) -> Self
        ensures { result ≡ with_targets self targets }
    {
        Self { targets, ..self }
    }

    pub fn with_out(self, out: u32) -> Self
        ensures { result ≡ with_out self out }
    {
        Self { out, ..self }
    }

    // A rope or a history is open in the room that was said.
    pub fn opened(self, what: Open) -> Self
        ensures { result ≡ opened_as self what }
    {
        Self {
            open: Some(what),
            lent: self.room,
            held: self.targets,
            ..self
        }
    }
}
