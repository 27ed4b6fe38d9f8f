// The answers to a piece (RFC 959, section 4.2).
ghost use Rattle.std.specs.Prelude.{◌≡◌, ◌++◌, ◌||◌, ℕ, List, [], None, OnErr, OnOk, false, length, not, true};
ghost use Rattle.std.specs.Io.KnownBytes.{Appends};
ghost use Rattle.ftp_server_model.specs.Machine.{IsReading, Reading};
ghost use Rattle.ftp_server.specs.Server.{view_of};
ghost use Rattle.tool_dialogue.specs.Dialogue.{is_refusal, said, talk_of, talks, turn};
ghost use Rattle.tool_dialogue.specs.Exchange.{BreaksIn, OctetsAreAnswered};
ghost use Rattle.tool_dialogue.specs.Free.{IsReadyForLine};
ghost use Rattle.tool_dialogue.specs.Short.{BreaksInShort, IsAnsweredShort, Talks, Turns};

use crate::refusal::is_refusal;
use crate::serving::{give, serve, take};
use ftp_ports::Failed;
use ftp_server::Server;
use ftp_server_session::ServerTransfer;
use ftp_tree::SureTree;
use std::alloc::Allocator;
use std::io::Write;

/// The answers to a piece, room for the next of them, whether any reply so far refused something, and whether the server was refused no memory so far.
#[derive(Drop)]
pub struct Answers<A: Allocator + Copy> {
    pub text: Vec<u8, A>,
    pub room: Vec<u8, A>,
    pub refused: bool,
    pub calm: bool,
}

impl<A: Allocator + Copy> Answers<A> {
    /// Nothing is answered yet.
    pub fn new(alloc: A) -> Answers<A>
        ensures text { result.text.items ≡ [] }
        ensures refused { result.refused ≡ false }
        ensures calm { result.calm ≡ true }
    {
        Answers {
            text: Vec::new(alloc),
            room: Vec::new(alloc),
            refused: false,
            calm: true,
        }
    }

    /// Whether something was refused so far, memory too.
    pub fn refuses(&self) -> bool
        ensures { result ≡ (self.now.refused || not self.now.calm) }
    {
        self.refused || !self.calm
    }

    /// Hears a piece, and writes the answers to it.
    pub fn exchange<T: SureTree<A>, J: ServerTransfer<A, T>, W: Write>(
        &mut self,
        server: &mut Server<A, T, J>,
        piece: &[u8],
        writer: &mut W,
    ) -> Result<(), Failed>
        requires free { IsReadyForLine (view_of T.table J.view server.old) }
        // Witness of free, answers, short, calm, wrote: `dialogue`, done.
        ensures free { OnOk result (IsReadyForLine (view_of T.table J.view server.new)) }
        ensures answers { OnOk result (self.new.calm ≡ true
            → OctetsAreAnswered piece.now (view_of T.table J.view server.old) self.old.refused self.new.text.items (view_of T.table J.view server.new) self.new.refused) }
        ensures short { OnOk result (IsAnsweredShort piece.now (view_of T.table J.view server.old) self.old.refused self.new.text.items (view_of T.table J.view server.new) self.new.refused) }
        ensures calm { self.new.calm ≡ true → self.old.calm ≡ true }
        ensures wrote { OnOk result (Appends (W.contents writer.old) (W.contents writer.new) self.new.text.items) }
        // Witness of err, breaks: `dialogue`, failed.
        ensures err { OnErr result (self.new.calm ≡ true → (read : Reading) → IsReading read → (before : List ℕ)
            → BreaksIn read piece.now (view_of T.table J.view server.old) self.old.refused before (W.contents writer.old) (W.contents writer.new)) }
        ensures breaks { OnErr result ((read : Reading) → IsReading read → (before : List ℕ)
            → BreaksInShort read piece.now (view_of T.table J.view server.old) self.old.refused before (W.contents writer.old) (W.contents writer.new)) }
    {
        self.text.clear();
        self.hear(server, piece)?;
        ftp_ports::put(writer, self.text.as_slice())
    }

    /// Hears a piece, and puts the answers to it behind those before.
    fn hear<T: SureTree<A>, J: ServerTransfer<A, T>>(
        &mut self,
        server: &mut Server<A, T, J>,
        piece: &[u8],
    ) -> Result<(), Failed>
        requires free { IsReadyForLine (view_of T.table J.view server.old) }
        ensures free { OnOk result (IsReadyForLine (view_of T.table J.view server.new)) }
        ensures talks { OnOk result (self.new.calm ≡ true → (read : Reading) → IsReading read → (before : List ℕ)
            → talk_of (view_of T.table J.view server.new) (before ++ self.new.text.items) self.new.refused
            ≡ talks read (talk_of (view_of T.table J.view server.old) (before ++ self.old.text.items) self.old.refused) piece.now) }
        ensures short { OnOk result ((read : Reading) → IsReading read → (before : List ℕ)
            → Talks read (talk_of (view_of T.table J.view server.old) (before ++ self.old.text.items) self.old.refused) piece.now
            (talk_of (view_of T.table J.view server.new) (before ++ self.new.text.items) self.new.refused)) }
        ensures calm { self.new.calm ≡ true → self.old.calm ≡ true }
    {
        for octet in piece {
            self.answer(server, *octet)?;
        }
        Ok(())
    }

    /// Hears an octet, does what is then wanted, and puts what is owed behind the answers; after QUIT it hears none.
    fn answer<T: SureTree<A>, J: ServerTransfer<A, T>>(
        &mut self,
        server: &mut Server<A, T, J>,
        octet: u8,
    ) -> Result<(), Failed>
        requires free { IsReadyForLine (view_of T.table J.view server.old) }
        ensures free { OnOk result (IsReadyForLine (view_of T.table J.view server.new)) }
        ensures turn { OnOk result (self.new.calm ≡ true → (read : Reading) → IsReading read → (before : List ℕ)
            → talk_of (view_of T.table J.view server.new) (before ++ self.new.text.items) self.new.refused
            ≡ turn read (talk_of (view_of T.table J.view server.old) (before ++ self.old.text.items) self.old.refused) octet) }
        ensures short { OnOk result ((read : Reading) → IsReading read → (before : List ℕ)
            → Turns read (talk_of (view_of T.table J.view server.old) (before ++ self.old.text.items) self.old.refused) octet
            (talk_of (view_of T.table J.view server.new) (before ++ self.new.text.items) self.new.refused)) }
        ensures calm { self.new.calm ≡ true → self.old.calm ≡ true }
    {
        if !server.is_running() {
            return Ok(());
        }
        let calm = take(server, octet);
        self.calm = self.calm && calm;
        serve(server);
        self.tell(server)?;
        Ok(())
    }

    /// Puts what is owed behind the answers, and sees whether it refuses something.
    pub fn tell<T: SureTree<A>, J: ServerTransfer<A, T>>(
        &mut self,
        server: &mut Server<A, T, J>,
    ) -> Result<(), Failed>
        requires none { (view_of T.table J.view server.old).waiting ≡ None }
        ensures view { OnOk result (view_of T.table J.view server.new ≡ said (view_of T.table J.view server.old)) }
        ensures text { OnOk result (self.new.text.items ≡ self.old.text.items ++ (view_of T.table J.view server.old).owed) }
        ensures refused { OnOk result (self.new.refused ≡ (self.old.refused || is_refusal (view_of T.table J.view server.old).owed)) }
        ensures calm { self.new.calm ≡ self.old.calm }
    {
        let owed = server.owed();
        if owed == 0 {
            return Ok(());
        }
        if self.room.resize(owed, 0).is_err() {
            return Err(Failed);
        }
        give(server, self.room.as_mut_slice());
        let octets = self.room.as_slice();
        self.refused = self.refused || is_refusal(octets);
        if self.text.extend_from_slice(octets).is_err() {
            return Err(Failed);
        }
        Ok(())
    }
}
